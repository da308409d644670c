// The folded record, for the writer and the reader. No code: the layout, what a record unfolds to and what a reader of it
// yields are in specs/.
#![tactic(auto)]

use cells::Place;

// A section's middle (document 02, "either on a pick or between two picks"): the pick's number in the draft, or that of the
// earlier of the two.
#[derive(Clone, Copy)]
pub enum Turn {
    OnPick(Place),
    Between(Place),
}

// A section as a reader yields it.
#[derive(Clone, Copy)]
pub struct Section {
    pub length: usize,
    pub turn: Turn,
}

// What a reader yields at a place of a record, if a section begins there, and the place after it.
#[derive(Clone, Copy)]
pub struct Found {
    pub yielded: Option<Section>,
    pub next: usize,
}
