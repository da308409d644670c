// The sections of the record, one after another; each begins where the one before it ends.
ghost use Rattle.std.specs.Prelude.{◌≡◌, ◌+◌, ◌*◌, ◌≤◌, ◌<◌, length};
ghost use Rattle.words.specs.Definitions.{most_sections, word};
ghost use Rattle.text.specs.Writes.{Writes, far};
ghost use Rattle.record.specs.Fields.{most_section_size, sections_size, sections_bytes};

use crate::section::{section_size, write_section};
use cells::Letters;

// The count of bytes of the sections with these ends.
pub fn sections_size(ends: &[u16]) -> usize
    requires { length ends.now ≤ most_sections }
    ensures { (result ≡ sections_size 0 ends.now) × (result ≤ most_sections * most_section_size) }
{
    let mut size = 0;
    let mut a = 0;
    for &end in ends {
        let e = usize::from(end);
        size += section_size(a, e);
        a = e;
    }
    size
}

// The bytes of the sections with these ends, and the place after them.
pub fn write_sections(letters: &Letters, ends: &[u16], output: &mut [u8], at: usize) -> usize
    requires { (length ends.now ≤ most_sections) × (at + most_sections * most_section_size ≤ far) }
    ensures writes { Writes output.old at (sections_bytes (word letters.now) 0 ends.now) output.new result }
    ensures small { result ≤ at + most_sections * most_section_size }
{
    let mut next = at;
    let mut a = 0;
    for &end in ends {
        let e = usize::from(end);
        next = write_section(letters, a, e, output, next);
        a = e;
    }
    next
}
