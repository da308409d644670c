// Mark: a name for the draft's length.
ghost use Rattle.std.specs.Prelude.{◌≡◌, ◌-◌, nat_lt, get_or};
ghost use Rattle.std.specs.List.{count_by};
ghost use Rattle.words.specs.Definitions.{first_letter};
ghost use Rattle.promises.specs.Marks.{room_for, marks_in};
ghost use Rattle.promises.specs.Lent.{MarksOn};

use cells::{MARKS, Marks, Numbers, at, letter_index, store};
use promises::Refusal;
use refusals::letter_refusal;

// The entry of a name, as the state has it for C: 0 where it is no mark.
pub fn entry_of(marks: &Marks, name: u8) -> u16
    ensures { result ≡ get_or marks.now (name - first_letter) 0 }
{
    at(marks, letter_index(name), 0)
}

// How many marks there are.
fn how_many(marks: &[u16]) -> usize
    ensures { result ≡ count_by (λ x. nat_lt 0 x) marks.now }
{
    let mut count = 0;
    for &entry in marks {
        if 0 < entry {
            count += 1;
        }
    }
    count
}

// Whether the name is a mark already, or not a fifth.
fn room_for(marks: &Marks, name: u8) -> bool
    ensures { result ≡ room_for (marks_in marks.now) name }
{
    0 < entry_of(marks, name) || how_many(marks) < MARKS
}

#[tactic(auto, using(promises::proofs::RefusalLaws::letter_passed))]
pub fn mark(marks: &mut Marks, held: Numbers, name: u8) -> Result<(), Refusal>
    ensures { MarksOn held marks.old name result marks.new }
{
    letter_refusal(held, name)?;
    if room_for(marks, name) {
        store(marks, letter_index(name), (held.n + 1) as u16);
        return Ok(());
    }
    Err(Refusal::FifthName)
}
