// What the iterator tells of an ending. What it and the engine compute, and their invariants, are in specs/, their laws in proofs/.
#![tactic(auto)]

use cells::Centre;

// After an ending: the centre of the next shorter one; its own length and least period.
#[derive(Clone, Copy)]
pub struct Shorter {
    pub centre: Centre,
    pub length: usize,
    pub period: usize,
}
