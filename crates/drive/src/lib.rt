// The calls for a host: a script of calls on a state in lent arrays, a section shown, a record read back.
// No proof binds a host, so these functions take any contents.
#![tactic(auto)]

ghost use Rattle.std.specs.Prelude.{◌≡◌, [], ◌∷◌, ◌≤◌, length, take};
ghost use Rattle.std.proofs.lemmas.List.Edits.{sets};
ghost use Rattle.promises.specs.Answers.{found_numbers};
ghost use Rattle.promises.specs.Refusals.{show_refusal};
ghost use Rattle.layout.specs.Yield.{yield_at};
ghost use Rattle.promises.specs.Replies.{shown, unfold_reply};
ghost use Rattle.drive.specs.Script.{buffers};
ghost use Rattle.drive.specs.Drives.{held_in, state_of, encoded, Drives};

mod follow;
mod lending;
mod numbers;
mod request;
mod state;
mod told;

use crate::lending::Buffers;
use crate::state::State;
use crate::told::{found_told, told};
use cells::{Centre, Centres, Letters, Lifts, Marks, Numbers, Places};
use text::bytes::write_bytes;

// The numbers of the state, which C has as three: n, K and the centre of the longest ending.
fn held_in(numbers: &[usize; 3]) -> Numbers
    ensures { result ≡ held_in numbers.now }
{
    Numbers {
        n: numbers[0],
        k: numbers[1],
        longest: Centre(numbers[2]),
    }
}

// The calls of the script, one after the other; gives their number.
#[unsafe(no_mangle)]
pub extern "C" fn drive(
    letters: &mut Letters,
    codes: &mut Letters,
    lifts: &mut Lifts,
    marks: &mut Marks,
    centres: &mut Centres,
    places: &mut Places,
    numbers: &mut [usize; 3],
    script: &[u8],
    input: &[u8],
    lists: &mut [u16],
    bytes: &mut [u8],
    answers: &mut [usize],
) -> usize
    ensures { Drives
        (state_of numbers.old letters.old codes.old lifts.old marks.old centres.old places.old)
        script.now (buffers lists.old bytes.old input.now) answers.old result
        (state_of numbers.new letters.new codes.new lifts.new marks.new centres.new places.new)
        lists.new bytes.new answers.new }
{
    let mut state = State {
        letters,
        codes,
        lifts,
        marks,
        centres,
        places,
        numbers: held_in(numbers),
    };
    let mut buffers = Buffers {
        lists,
        bytes,
        input,
    };
    state.follow(numbers, script, &mut buffers, answers)
}

// Section s of the letters, as far as it fits the part; the answer is the companion's number and the section's length.
#[unsafe(no_mangle)]
pub extern "C" fn drive_show(
    letters: &[u8],
    ends: &[u16],
    s: usize,
    part: &mut [u8],
    answer: &mut [usize; 2],
) -> usize
    ensures value { result ≡ 0 }
    ensures part { part.new ≡ sets part.old 0 (shown letters.now ends.now s) }
    ensures answer { answer.new
        ≡ show_refusal letters.now ends.now s ∷ length (shown letters.now ends.now s) ∷ [] }
{
    let number = calls::show::show_number(letters, ends, s);
    let section = calls::show::show(letters, ends, s);
    *answer = [usize::from(number), section.len()];
    write_bytes(section, part, 0);
    0
}

// The picks of a folded record at the front of a list: the answer is 0 and their count, 1 and the number of the refusal, or 2, that
// number and its place.
#[unsafe(no_mangle)]
pub extern "C" fn drive_unfold(record: &[u8], picks: &mut [u8], answer: &mut [usize; 3]) -> usize
    ensures value { result ≡ 0 }
    ensures picks { picks.new ≡ (unfold_reply «record».now picks.old).list }
    ensures answer { answer.new ≡ take 3 (encoded (unfold_reply «record».now picks.old).said) }
{
    let [kind, first, second, _] = told(reader::unfold::unfold(record, picks));
    *answer = [kind, first, second];
    0
}

// What a reader yields at a place of a folded record: the answer is 1 for a turn on a pick, 2 for one between two picks, or 0 for
// none; the section's length, the turn's place, and the next place.
#[unsafe(no_mangle)]
pub extern "C" fn drive_section(record: &[u8], at: usize, answer: &mut [usize; 4]) -> usize
    ensures value { result ≡ 0 }
    ensures answer { answer.new ≡ found_numbers (yield_at «record».now at) }
{
    *answer = found_told(reader::section::section_at(record, at));
    0
}
