// What the calls of a script are lent beside the state, and how much of it.
ghost use Rattle.std.specs.Prelude.{◌≡◌, ℕ, cond};
ghost use Rattle.drive.specs.Script.{sizes_of, sizes_for};
ghost use Rattle.drive.specs.Numbers.{op_number, source_number};
ghost use Rattle.drive.specs.Lending.{held_by, sizes_in, onward, within, reached};

use crate::numbers::{Op, Source};

// The lists and bytes that calls fill, and the bytes that they read.
#[derive(Drop)]
pub struct Buffers<'a, 'b> {
    pub lists: &'a mut [u16],
    pub bytes: &'a mut [u8],
    pub input: &'b [u8],
}

// How much of each.
#[derive(Clone, Copy, Debug, Default, PartialEq, Eq)]
pub struct Sizes {
    pub entries: usize,
    pub output: usize,
    pub input: usize,
}

impl Buffers<'_, '_> {
    // How much there is.
    pub fn sizes(&self) -> Sizes
        ensures { result ≡ sizes_in (held_by self.now) }
    {
        Sizes {
            entries: self.lists.len(),
            output: self.bytes.len(),
            input: self.input.len(),
        }
    }
}

impl Source {
    // How much a call that asks for m is lent.
    fn sizes(self, m: usize) -> Sizes
        ensures { (x : ℕ) → result ≡ sizes_of (source_number self) x m }
    {
        let none = Sizes::default();
        match self {
            Source::Nothing => none,
            Source::Lists => Sizes { entries: m, ..none },
            Source::Bytes => Sizes { output: m, ..none },
            Source::Input => Sizes { input: m, ..none },
        }
    }
}

impl Op {
    // The same of a call.
    pub fn sizes(self, m: usize) -> Sizes
        ensures { (x : ℕ) → result ≡ sizes_for (op_number self) x m }
    {
        self.source().sizes(m)
    }
}

// Where so much more ends, if it is there.
fn end(lent: usize, more: usize, there: usize) -> Option<usize>
    ensures { result ≡ reached lent more there }
{
    lent.checked_add(more).filter(|end| *end <= there)
}

impl Sizes {
    // Where so much more of each ends, if it is there.
    pub fn past(self, more: Sizes, there: Sizes) -> Option<Sizes>
        ensures { result ≡ cond (within (onward self more) there) (Some (onward self more)) None }
    {
        Some(Sizes {
            entries: end(self.entries, more.entries, there.entries)?,
            output: end(self.output, more.output, there.output)?,
            input: end(self.input, more.input, there.input)?,
        })
    }
}
