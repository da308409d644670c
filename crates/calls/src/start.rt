// Start: K, giving an empty draft.
ghost use Rattle.std.specs.Prelude.{◌≡◌, replicate};
ghost use Rattle.words.specs.Definitions.{most_picks};
ghost use Rattle.promises.specs.Lifts.{fixed_lifts};
ghost use Rattle.promises.specs.Marks.{entries, no_marks};
ghost use Rattle.promises.specs.State.{draft_in, fresh};
ghost use Rattle.promises.specs.Promises.{StartPromise};
ghost use Rattle.promises.specs.Lent.{answered_as, done, numbers_after};

use cells::{
    ALPHABET, BY_CENTRE, BY_PLACE, Centre, Centres, Letters, Lifts, Marks, Numbers, PICKS, Places,
};
use promises::Refusal;
use refusals::start_refusal;

// The fixed table: two of eight harnesses for each of A to Z.
const LIFTS: Lifts = [
    3, 5, 9, 17, 33, 65, 129, 6, 10, 18, 34, 66, 130, 12, 20, 36, 68, 132, 24, 40, 72, 136, 48, 80,
    144, 96,
];

// The arrays of no letter: all is 0 but the row word of prefix 0, which has bit 0 alone, and its gathered word.
pub fn clear(codes: &mut Letters, centres: &mut Centres, places: &mut Places)
    ensures codes_after { codes.new ≡ replicate most_picks 0 }
    ensures centred { centres.new ≡ (fresh 0).centres }
    ensures placed { places.new ≡ (fresh 0).places }
{
    *codes = [0; PICKS];
    *centres = Centres {
        radius: [0; BY_CENTRE],
        lends: [0; BY_CENTRE],
        next: [0; BY_CENTRE],
        prev: [0; BY_CENTRE],
    };
    *places = Places {
        heads: [0; BY_PLACE],
        rows: [0; BY_PLACE],
        gathered: [0; BY_PLACE],
    };
    places.rows[0] = 1;
    places.gathered[0] = 1;
}

// No letter, the fixed table, no mark.
fn clear_tables(letters: &mut Letters, lifts: &mut Lifts, marks: &mut Marks)
    ensures letters_after { letters.new ≡ replicate most_picks 0 }
    ensures lifted { lifts.new ≡ fixed_lifts }
    ensures marked { marks.new ≡ entries no_marks }
{
    *letters = [0; PICKS];
    *lifts = LIFTS;
    *marks = [0; ALPHABET];
}

// A start on whatever is stored: `held` are the numbers stored.
pub fn start(
    letters: &mut Letters,
    codes: &mut Letters,
    lifts: &mut Lifts,
    marks: &mut Marks,
    centres: &mut Centres,
    places: &mut Places,
    held: Numbers,
    k: u8,
) -> Result<Numbers, Refusal>
    ensures { StartPromise
        (draft_in held letters.old codes.old lifts.old marks.old centres.old places.old) k
        (answered_as (done result)
        (draft_in (numbers_after held result) letters.new codes.new lifts.new marks.new centres.new places.new)) }
{
    start_refusal(k)?;
    clear_tables(letters, lifts, marks);
    clear(codes, centres, places);
    Ok(Numbers {
        n: 0,
        k: usize::from(k),
        longest: Centre(1),
    })
}
