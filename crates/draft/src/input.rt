// Standard input, a byte at a time: nothing is read past the byte that ends the run.
ghost use Rattle.std.specs.Prelude.{◌≡◌, cond, ◌+◌, ◌-◌};
ghost use Rattle.std.specs.Io.KnownBytes.{Consumes};
ghost use Rattle.words.specs.Definitions.{most_sections};
ghost use Rattle.text.specs.Definitions.{digit_zero};
ghost use Rattle.words.specs.Ranges.{between};
ghost use Rattle.draft.specs.Reading.{bytes_of, FirstRead, PickRead, Reads};

use std::io::Read;
use text::{DIGIT_ZERO, LINE_END};

// The next byte; a read that fails counts as the end.
fn next_byte<R: Read>(input: &mut R) -> Option<u8>
    ensures { Consumes (R.remaining input.old) (R.remaining input.new) (bytes_of result) }
{
    let mut byte = [0u8; 1];
    match input.read(&mut byte) {
        Ok(1) => Some(byte[0]),
        _ => None,
    }
}

// The number of a digit 1 to 8.
fn sections_of(digit: u8) -> Option<u8>
    ensures { result ≡ cond (between (digit_zero + 1) (digit_zero + most_sections) digit) (Some (digit - digit_zero)) None }
{
    match digit {
        b'1'..=b'8' => Some(digit - DIGIT_ZERO),
        _ => None,
    }
}

// K, where the first line is one digit 1 to 8 followed by byte 10; nothing is read past its first wrong byte.
pub fn first_line<R: Read>(input: &mut R) -> Option<u8>
    ensures { Reads (FirstRead result) (R.remaining input.old) (R.remaining input.new) }
{
    let k = sections_of(next_byte(input)?)?;
    (next_byte(input)? == LINE_END).then_some(k)
}

// The next pick; byte 10 ends the picks.
pub fn next_pick<R: Read>(input: &mut R) -> Option<u8>
    ensures { Reads (PickRead result) (R.remaining input.old) (R.remaining input.new) }
{
    let byte = next_byte(input)?;
    (byte != LINE_END).then_some(byte)
}
