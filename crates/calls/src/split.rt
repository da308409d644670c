// Split: a prefix and k, giving the ends of the split named, and its turn count.
ghost use Rattle.std.specs.Prelude.{◌≡◌};
ghost use Rattle.promises.specs.Answers.{reply, number_says};
ghost use Rattle.promises.specs.Book.{split};
ghost use Rattle.promises.specs.Lent.{ReadsOn};

use cells::{ByCentre, ByPlace, Numbers, Place};
use iterator::reading::Radii;
use promises::Refusal;
use refusals::split_refusal;
use splitting::{Search, turn_count};

#[tactic(auto, using(promises::proofs::RefusalLaws::split_fits))]
pub fn split(
    rows: &ByPlace,
    radius: &ByCentre,
    held: Numbers,
    i: Place,
    k: u8,
    ends: &mut [u16],
) -> Result<usize, Refusal>
    ensures { ReadsOn held (λ d. (d.places.rows ≡ rows.now) × (d.centres.radius ≡ radius.now)) (split i.0 k ends.old)
        (reply (number_says result) ends.new) }
{
    split_refusal(held, i, k, ends.len())?;
    let radii = Radii { radius, held };
    let search = Search { rows, radii };
    if search.split_into(k, i, ends) {
        let count = usize::from(k);
        return Ok(turn_count(&ends[..count]));
    }
    Err(Refusal::NoSplit)
}
