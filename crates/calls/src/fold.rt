// The folded record of a prefix, by the split named.
ghost use Rattle.std.specs.Prelude.{◌≡◌};
ghost use Rattle.promises.specs.Answers.{reply, number_says};
ghost use Rattle.promises.specs.Book.{fold};
ghost use Rattle.promises.specs.Lent.{ReadsOn};

use cells::{ByCentre, ByPlace, Letters, Numbers, Place, SECTIONS};
use iterator::reading::Radii;
use promises::Refusal;
use record::write_record;
use refusals::record_refusal;
use splitting::Search;

#[tactic(auto, using(promises::proofs::RefusalLaws::record_fits))]
pub fn fold(
    letters: &Letters,
    rows: &ByPlace,
    radius: &ByCentre,
    held: Numbers,
    i: Place,
    k: u8,
    output: &mut [u8],
) -> Result<usize, Refusal>
    ensures { ReadsOn held (λ d. (d.letters ≡ letters.now) × (d.places.rows ≡ rows.now) × (d.centres.radius ≡ radius.now))
        (fold i.0 k output.old) (reply (number_says result) output.new) }
{
    record_refusal(held, i, k)?;
    let mut ends = [0u16; SECTIONS];
    let radii = Radii { radius, held };
    let search = Search { rows, radii };
    if search.split_into(k, i, &mut ends) {
        let count = usize::from(k);
        return write_record(letters, i, &ends[..count], output);
    }
    Err(Refusal::NoSplit)
}
