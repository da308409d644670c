// A folded record read back: the picks that it unfolds to, and its sections one by one.
#![tactic(auto)]

ghost use Rattle.reader.specs.Reader.{NextPromise, bytes_left};

use crate::section::section_at;
use layout::Section;

mod number;
mod scan;
pub mod section;
mod step;
pub mod unfold;

// Document 02, "The reader keeps the record's bytes and its place in them": it begins at place 0.
#[derive(Drop)]
pub struct Reader<'a> {
    pub bytes: &'a [u8],
    pub at: usize,
}

// The next section, or none; and the reader moves on.
impl Iterator for Reader<'_> {
    type Item = Section;

    ghost next_gives = { NextPromise };

    ghost remaining = { bytes_left };

    fn next(&mut self) -> Option<Section> {
        let found = section_at(self.bytes, self.at);
        self.at = found.next;
        found.yielded
    }
}
