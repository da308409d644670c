// Document 01's declarations: the state, why a call is refused, and what a call by value returns. What the calls promise is in specs/.
#![tactic(auto)]

pub mod refusal;

use cells::{Centres, Letters, Lifts, Marks, Numbers, Places};
pub use refusal::Refusal;

// The state of the board. Any numbers may be stored in it; a start does not look at them, and makes it an empty draft.
#[derive(Clone, Copy)]
pub struct Draft {
    // The picks so far, K, and the centre of the longest ending.
    pub numbers: Numbers,
    // The picks: their letters, and what the iterator compares, which is their lifts.
    pub letters: Letters,
    pub codes: Letters,
    // The table in force.
    pub lifts: Lifts,
    // For each letter the length that it marks, and one more; 0 where it is no mark.
    pub marks: Marks,
    // The iterator's and the engine's arrays, by centre and by place.
    pub centres: Centres,
    pub places: Places,
}

// What a call by value returns: its answer, and the state after it.
#[derive(Clone, Copy)]
pub struct Answered<A> {
    pub answer: A,
    pub state: Draft,
}

// Document 01, "The answer is either the mask, with the count of visits, or a refusal number", names this enum as its form, with
// `Taken(mask, count)` and `Refused(number)`. Every other call answers with a Result.
#[derive(Clone, Copy)]
pub enum FeedAnswer {
    // The mask, and the count of visits.
    Taken(u8, usize),
    Refused(u8),
}
