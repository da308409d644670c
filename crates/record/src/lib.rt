// The folded record (document 01, "fields in a fixed order parted by commas"): its count of bytes, and writing it into a lent output.
#![tactic(auto)]

ghost use Rattle.std.specs.Prelude.{◌≡◌, ℕ, ◌+◌, ◌*◌, ◌≤◌, length};
ghost use Rattle.std.proofs.lemmas.List.Edits.{sets};
ghost use Rattle.words.specs.Definitions.{most_picks, most_sections, word};
ghost use Rattle.text.specs.Writes.{Writes};
ghost use Rattle.text.specs.Decimal.{most_digits};
ghost use Rattle.promises.specs.Answers.{number_says, reply};
ghost use Rattle.layout.specs.Record.{record_of};
ghost use Rattle.promises.specs.Replies.{or_too_long};
ghost use Rattle.record.specs.Fields.{head_bytes};

mod section;
mod sections;

use crate::sections::{sections_size, write_sections};
use cells::{Letters, Place};
use promises::Refusal;
use text::bytes::write_byte;
use text::decimal::{digit_count, write_decimal};
use text::{COMMA, LINE_END};

// The count of bytes of the record of prefix i in the sections with these ends; whatever the letters are, so they are no part of a struct
// with i and ends. Any ends may be given: that they are at most 8 is required.
#[tactic(auto, using(crate::specs::RecordCode::size_as))]
pub fn record_size(i: Place, ends: &[u16]) -> usize
    requires { (i.0 ≤ most_picks) × (length ends.now ≤ most_sections) }
    ensures { (w : ℕ → ℕ) → result ≡ length (record_of w i.0 ends.now) }
{
    let digits = digit_count(i.0) + digit_count(ends.len());
    // and a comma and the end of the line
    digits + sections_size(ends) + 2
}

// The picks and the sections at the front of the output, and the place after them.
fn write_head(i: Place, count: usize, output: &mut [u8]) -> usize
    requires { (i.0 ≤ most_picks) × (count ≤ most_sections) }
    ensures writes { Writes output.old 0 (head_bytes i.0 count) output.new result }
    ensures small { result ≤ 2 * most_digits + 1 }
{
    let comma = write_decimal(i.0, output, 0);
    let number = write_byte(COMMA, output, comma);
    write_decimal(count, output, number)
}

// The whole record at the front of the output.
fn write_fields(letters: &Letters, i: Place, ends: &[u16], output: &mut [u8])
    requires { (i.0 ≤ most_picks) × (length ends.now ≤ most_sections) }
    ensures { output.new ≡ sets output.old 0 (record_of (word letters.now) i.0 ends.now) }
{
    let sections = write_head(i, ends.len(), output);
    let end = write_sections(letters, ends, output, sections);
    write_byte(LINE_END, output, end);
}

// The record of prefix i in the sections with these ends, or the refusal that it is longer than the output.
#[tactic(auto, using(crate::specs::RecordCode::refused_as, crate::specs::RecordCode::written_as))]
pub fn write_record(
    letters: &Letters,
    i: Place,
    ends: &[u16],
    output: &mut [u8],
) -> Result<usize, Refusal>
    requires { (i.0 ≤ most_picks) × (length ends.now ≤ most_sections) }
    ensures { reply (number_says result) output.new
        ≡ or_too_long (record_of (word letters.now) i.0 ends.now) output.old }
{
    let size = record_size(i, ends);
    if output.len() < size {
        return Err(Refusal::TooLong);
    }
    write_fields(letters, i, ends, output);
    Ok(size)
}
