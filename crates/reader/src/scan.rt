// A whole record read: its totals or how far the reading came, and its picks or its refusal.
ghost use Rattle.std.specs.Prelude.{◌≡◌, ◌<◌, ◌≤◌, ◌-◌, ℕ, true, false, length, slice_index};
ghost use Rattle.std.specs.Char.{is_ascii_digit};
ghost use Rattle.layout.specs.Reading.{start, run, reach, number_at, reading};
ghost use Rattle.reader.specs.ScanCode.{scanned};
ghost use Rattle.reader.specs.CheckCode.{checked_of};

use crate::step::{State, Totals, step};
use cells::at;
use promises::Refusal;

// How the reading of all the bytes ends: with a whole record, or after how many of them it breaks off.
#[tactic(auto, using(crate::specs::ScanCode::scan_small))]
fn scan(bytes: &[u8]) -> Result<Totals, usize>
    ensures { result ≡ scanned (run start bytes.now) (reach start bytes.now) }
{
    let mut s = State::START;
    for (i, &b) in bytes.iter().enumerate() {
        s = step(s, b).ok_or(i)?;
    }
    s.totals().ok_or(bytes.len())
}

// The first of the digits at the end of these bytes.
fn digits_at(bytes: &[u8]) -> usize
    ensures within { result ≤ length bytes.now }
    ensures digits { (k : ℕ) → result ≤ k → k < length bytes.now → is_ascii_digit (slice_index bytes.now k) ≡ true }
    ensures before { 0 < result → is_ascii_digit (slice_index bytes.now (result - 1)) ≡ false }
{
    bytes
        .iter()
        .rposition(|b| !b.is_ascii_digit())
        .map_or(0, |i| i + 1)
}

// A number's first digit, for a digit of it; for any other byte its own place.
fn number_at(bytes: &[u8], place: usize) -> usize
    ensures { result ≡ number_at bytes.now place }
{
    if at(bytes, place, 0).is_ascii_digit() {
        digits_at(&bytes[..place])
    } else {
        place
    }
}

// How many picks a record has; refused are bytes that are none, and lengths that do not add up to the picks.
#[tactic(auto, using(crate::specs::CheckCode::passes_as, crate::specs::CheckCode::unequal_as, crate::specs::CheckCode::broken_as))]
pub fn check(bytes: &[u8]) -> Result<usize, Refusal>
    ensures { result ≡ checked_of (reading bytes.now) }
{
    match scan(bytes) {
        Ok(t) if t.sum == t.picks => Ok(t.picks),
        Ok(_) => Err(Refusal::Unequal),
        Err(stop) => Err(Refusal::NoRecord(number_at(bytes, stop))),
    }
}
