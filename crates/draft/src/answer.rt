// One pick: it is fed, and its line is filled.
ghost use Rattle.std.specs.Prelude.{◌≡◌, ◌+◌, ◌≤◌, length, take};
ghost use Rattle.words.specs.Definitions.{most_picks};
ghost use Rattle.draft.specs.Filling.{ending_length, byte_count, is_last, Tells, FillsOn};
ghost use Rattle.draft.specs.Putting.{room, IsPrefixLen};

use crate::line::{pick_line, refusal_line};
use calls::feed::{Step, feed};
use cells::{Centre, VISITS};
use promises::{Draft, FeedAnswer};
use std::ops::ControlFlow;

// The bytes of the first line.
const FIRST_LINE: usize = 2;

// A line that was filled, by the count of its bytes; the last one breaks.
pub type Told = ControlFlow<usize, usize>;

// The count of its bytes.
pub fn byte_count(told: Told) -> usize
    ensures { result ≡ byte_count told }
{
    match told {
        ControlFlow::Continue(count) | ControlFlow::Break(count) => count,
    }
}

// The length of the ending of prefix n with this centre; the engine's is another definition, cut at n.
fn ending_length(n: usize, centre: Centre) -> usize
    requires { n ≤ most_picks + 1 }
    ensures { result ≡ ending_length n centre.0 }
{
    (2 * n + 1).saturating_sub(centre.0)
}

// The line of feed's answer to the pick after n others.
fn tell(step: Step, n: usize, line: &mut [u8]) -> Told
    requires { (n ≤ most_picks) × (step.numbers.n ≤ most_picks + 1) × (room ≤ length line.old) }
    ensures { Tells n step result line.new }
{
    let numbers = step.numbers;
    match step.answer {
        FeedAnswer::Taken(mask, visits) => {
            let ending = ending_length(numbers.n, numbers.longest);
            ControlFlow::Continue(pick_line(numbers.n, mask, visits, ending, line))
        }
        FeedAnswer::Refused(number) => {
            ControlFlow::Break(refusal_line(number, FIRST_LINE + n, line))
        }
    }
}

// Feeds the pick, and fills the front of the room with its line.
pub fn answer(draft: &mut Draft, pick: u8, line: &mut [u8]) -> Told
    requires { (draft.old.numbers.n ≤ most_picks) × (room ≤ length line.old) }
    ensures prefix_len { IsPrefixLen (byte_count result) line.new }
    ensures fills_on { FillsOn draft.old pick (is_last result) draft.new (take (byte_count result) line.new) }
    ensures kept { (draft.new.lifts ≡ draft.old.lifts) × (draft.new.marks ≡ draft.old.marks) }
{
    let mut visits = [0u16; VISITS];
    let held = draft.numbers;
    let step = feed(
        &mut draft.letters,
        &mut draft.codes,
        &draft.lifts,
        &mut draft.centres,
        &mut draft.places,
        &mut visits,
        held,
        pick,
    );
    draft.numbers = step.numbers;
    tell(step, held.n, line)
}
