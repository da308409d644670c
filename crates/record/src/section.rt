// One section of the record: a comma, the section's length, a comma, its first half of letters, the middle pick included.
ghost use Rattle.std.specs.Prelude.{◌≡◌, ◌+◌, ◌/◌, ◌≤◌, ◌<◌};
ghost use Rattle.words.specs.Definitions.{word};
ghost use Rattle.text.specs.Writes.{Writes, far};
ghost use Rattle.record.specs.Fields.{section_size, section_bytes, most_section_size};

use cells::Letters;
use text::COMMA;
use text::bytes::{write_byte, write_part};
use text::decimal::{digit_count, write_decimal};

// How many letters of a section of this length are written: half of them, the middle pick included.
fn first_half(length: usize) -> usize
    requires { length < 65536 }
    ensures { result ≡ (length + 1) / 2 }
{
    length.div_ceil(2)
}

// The count of bytes of the section between the ends a and e. An end is an entry of 16 bits.
#[tactic(auto, using(crate::specs::RecordCode::section_size_as))]
pub fn section_size(a: usize, e: usize) -> usize
    requires { e < 65536 }
    ensures { (result ≡ section_size a e) × (result ≤ most_section_size) }
{
    let length = e.saturating_sub(a);
    // and two commas
    digit_count(length) + first_half(length) + 2
}

// The bytes of the section between the ends a and e, and the place after them. A local named for a field is the place of its first byte.
pub fn write_section(letters: &Letters, a: usize, e: usize, output: &mut [u8], at: usize) -> usize
    requires { (a < 65536) × (e < 65536) × (at + most_section_size ≤ far) }
    ensures writes { Writes output.old at (section_bytes (word letters.now) a e) output.new result }
    ensures small { result ≤ at + most_section_size }
{
    let length = e.saturating_sub(a);
    let count = first_half(length);
    let number = write_byte(COMMA, output, at);
    let comma = write_decimal(length, output, number);
    let half = write_byte(COMMA, output, comma);
    write_part(letters, a, count, output, half)
}
