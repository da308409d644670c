// The centre of the next shorter ending after the one at a centre, and that one's length and least period.
ghost use Rattle.std.specs.Prelude.{◌≡◌, []};
ghost use Rattle.promises.specs.Answers.{reply, next_says};
ghost use Rattle.promises.specs.Book.{next};
ghost use Rattle.promises.specs.Lent.{ReadsOn};

use cells::{ByCentre, Centre, Numbers};
use iterator::reading::Radii;
use models::Shorter;
use promises::Refusal;
use refusals::centre_refusal;

#[tactic(auto, using(promises::proofs::RefusalLaws::centre_passed))]
pub fn next(
    radius: &ByCentre,
    links: &ByCentre,
    held: Numbers,
    c: Centre,
) -> Result<Shorter, Refusal>
    ensures { ReadsOn held (λ d. (d.centres.radius ≡ radius.now) × (d.centres.next ≡ links.now)) (next c.0) (reply (next_says result) []) }
{
    centre_refusal(held, c)?;
    let radii = Radii { radius, held };
    radii.next_shorter(links, c).ok_or(Refusal::NoEnding)
}
