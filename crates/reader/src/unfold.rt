// A record unfolded into a lent list: each letter of a half goes to its pick and to the mirrored one.
ghost use Rattle.std.specs.Prelude.{◌≡◌};
ghost use Rattle.layout.specs.Reading.{start, run};
ghost use Rattle.promises.specs.Promises.{UnfoldPromise};
ghost use Rattle.reader.specs.Numbers.{Small};
ghost use Rattle.reader.specs.Filling.{put, Fills};

use crate::scan::check;
use crate::step::{State, step};
use cells::store;
use promises::Refusal;

// The stores of a step from s to t by the byte b.
#[tactic(auto, unfolding(crate::specs::Filling::put))]
fn put(picks: &mut [u8], s: State, t: State, b: u8)
    requires { Small s }
    ensures { picks.new ≡ put picks.old s t b }
{
    if let (
        State::InHalf {
            read,
            length,
            letters,
        },
        State::InHalf { .. },
    ) = (s, t)
    {
        store(picks, read.sum + letters, b);
        let last = (read.sum + length).saturating_sub(1);
        store(picks, last.saturating_sub(letters), b);
    }
}

#[tactic(auto, using(crate::specs::ScanCode::scan_small))]
fn write_picks(bytes: &[u8], picks: &mut [u8])
    ensures { Fills picks.old (run start bytes.now) picks.new }
{
    let mut s = State::START;
    for &b in bytes {
        let Some(t) = step(s, b) else { return };
        put(picks, s, t, b);
        s = t;
    }
}

// The record's picks at the front of the list, and how many.
#[tactic(auto, using(crate::specs::UnfoldCode::unfold_refused))]
pub fn unfold(bytes: &[u8], picks: &mut [u8]) -> Result<usize, Refusal>
    ensures { UnfoldPromise bytes.now picks.old result picks.new }
{
    let count = check(bytes)?;
    if picks.len() < count {
        return Err(Refusal::TooLong);
    }
    write_picks(bytes, picks);
    Ok(count)
}
