// The radius of the longest mirrored stretch at a centre.
ghost use Rattle.std.specs.Prelude.{◌≡◌, []};
ghost use Rattle.promises.specs.Answers.{reply, number_says};
ghost use Rattle.promises.specs.Book.{radius};
ghost use Rattle.promises.specs.Lent.{ReadsOn};

use cells::{ByCentre, Centre, Numbers};
use iterator::reading::Radii;
use promises::Refusal;
use refusals::centre_refusal;

#[tactic(auto, using(promises::proofs::RefusalLaws::centre_passed))]
pub fn radius(lane: &ByCentre, held: Numbers, c: Centre) -> Result<usize, Refusal>
    ensures { ReadsOn held (λ d. d.centres.radius ≡ lane.now) (radius c.0) (reply (number_says result) []) }
{
    centre_refusal(held, c)?;
    let radii = Radii { radius: lane, held };
    Ok(radii.radius_at(c))
}
