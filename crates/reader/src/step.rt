// One byte of a record read.
ghost use Rattle.std.specs.Prelude.{◌≡◌, ◌≤◌};
ghost use Rattle.words.specs.Definitions.{most_picks};
ghost use Rattle.reader.specs.Numbers.{totals, in_picks, in_count, in_length, next_section, in_half, stepped, Bounded, Small};

use crate::number::{Number, read_number};
use cells::{PICKS, SECTIONS};
use text::{COMMA, LINE_END};

// What is known behind the count: the picks and the sections that the record says, the sections read whole, the sum of their lengths.
#[derive(Clone, Copy)]
pub struct Sections {
    pub picks: usize,
    pub count: usize,
    pub whole: usize,
    pub sum: usize,
}

// Of a record read whole: the picks that it says, and the sum of its sections' lengths.
#[derive(Clone, Copy)]
pub struct Totals {
    pub picks: usize,
    pub sum: usize,
}

// Where the reading is: in the picks, in the count of sections, in a section's length, in its half of letters, or behind the line.
// A number is the one that the digits so far say.
#[derive(Clone, Copy)]
pub enum State {
    InPicks {
        number: usize,
    },
    InCount {
        picks: usize,
        number: usize,
    },
    InLength {
        read: Sections,
        number: usize,
    },
    InHalf {
        read: Sections,
        length: usize,
        letters: usize,
    },
    Closed(Totals),
}

impl State {
    // Before the first byte.
    pub const START: Self = State::InPicks { number: 0 };

    // Of a record read whole.
    pub fn totals(self) -> Option<Totals>
        ensures { result ≡ totals self }
    {
        match self {
            State::Closed(totals) => Some(totals),
            _ => None,
        }
    }
}

fn in_picks(number: usize, b: u8) -> Option<State>
    requires { number ≤ most_picks }
    ensures { result ≡ in_picks number b }
{
    Some(match read_number(PICKS, number, b)? {
        Number::More(number) => State::InPicks { number },
        Number::Ended => State::InCount {
            picks: number,
            number: 0,
        },
    })
}

fn in_count(picks: usize, number: usize, b: u8) -> Option<State>
    requires { number ≤ most_picks }
    ensures { result ≡ in_count picks number b }
{
    Some(match read_number(SECTIONS, number, b)? {
        Number::More(number) => State::InCount { picks, number },
        Number::Ended => State::InLength {
            read: Sections {
                picks,
                count: number,
                whole: 0,
                sum: 0,
            },
            number: 0,
        },
    })
}

fn in_length(read: Sections, number: usize, b: u8) -> Option<State>
    requires { number ≤ most_picks }
    ensures { result ≡ in_length read number b }
{
    Some(match read_number(PICKS, number, b)? {
        Number::More(number) => State::InLength { read, number },
        Number::Ended => State::InHalf {
            read,
            length: number,
            letters: 0,
        },
    })
}

// A half ended: a comma where a section is to come, the end of the line where none is.
#[tactic(auto, unfolding(crate::specs::Numbers::next_section))]
fn next_section(read: Sections, length: usize, b: u8) -> Option<State>
    requires { Bounded read × (length ≤ most_picks) }
    ensures { result ≡ next_section read length b }
{
    let read = Sections {
        whole: read.whole + 1,
        sum: read.sum + length,
        ..read
    };
    if read.whole < read.count {
        return (b == COMMA).then_some(State::InLength { read, number: 0 });
    }
    (b == LINE_END).then_some(State::Closed(Totals {
        picks: read.picks,
        sum: read.sum,
    }))
}

// A letter where the half lacks one.
#[tactic(auto, unfolding(layout::specs::Reading::is_letter, crate::specs::Numbers::in_half))]
fn in_half(read: Sections, length: usize, letters: usize, b: u8) -> Option<State>
    requires { Bounded read × (length ≤ most_picks) × (letters ≤ most_picks) }
    ensures { result ≡ in_half read length letters b }
{
    if letters < (length + 1) / 2 {
        return b.is_ascii_uppercase().then_some(State::InHalf {
            read,
            length,
            letters: letters + 1,
        });
    }
    next_section(read, length, b)
}

// The state after the byte; none where it breaks the reading off. That the numbers are small is required, since the specs have a state for
// any numbers. Who walks the bytes has a loop of its own, since each has another invariant.
#[tactic(auto, unfolding(crate::specs::Numbers::stepped))]
pub fn step(s: State, b: u8) -> Option<State>
    requires { Small s }
    ensures { result ≡ stepped s b }
{
    match s {
        State::InPicks { number } => in_picks(number, b),
        State::InCount { picks, number } => in_count(picks, number, b),
        State::InLength { read, number } => in_length(read, number, b),
        State::InHalf {
            read,
            length,
            letters,
        } => in_half(read, length, letters, b),
        State::Closed(_) => None,
    }
}
