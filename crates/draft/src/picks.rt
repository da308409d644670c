// The picks, one after another.
ghost use Rattle.std.specs.Prelude.{◌≡◌, false, ◌+◌, ◌≤◌, IfOk, OnOk, OnErr};
ghost use Rattle.words.specs.Definitions.{most_picks};
ghost use Rattle.draft.specs.Filling.{is_last, FedWith, Written, TakenOn};

use crate::answer::{Told, answer, byte_count};
use crate::input::next_pick;
use crate::line::ROOM;
use cells::PICKS;
use promises::Draft;
use std::io;
use std::io::{Read, Write};

// Feeds the pick and writes its line. Where the write fails, the pick is fed all the same.
fn take_pick<W: Write>(draft: &mut Draft, pick: u8, output: &mut W) -> io::Result<Told>
    requires { draft.old.numbers.n ≤ most_picks }
    ensures one_more { IfOk result (λ told. is_last told ≡ false → draft.new.numbers.n ≡ draft.old.numbers.n + 1) }
    ensures written { IfOk result (λ told. Written draft.old pick (is_last told) draft.new (W.contents output.old) (W.contents output.new)) }
    ensures unwritten { OnErr result (FedWith draft.old pick draft.new) }
    ensures kept { (draft.new.lifts ≡ draft.old.lifts) × (draft.new.marks ≡ draft.old.marks) }
{
    let mut line = [0u8; ROOM];
    let told = answer(draft, pick, &mut line);
    let bytes = byte_count(told);
    output.write_all(&line[..bytes])?;
    Ok(told)
}

// Takes the picks of the input one by one. Pick 2,049 is refused, so it is the last. A `while`, since the state counts the picks.
pub fn take_picks<R: Read, W: Write>(
    draft: &mut Draft,
    input: &mut R,
    output: &mut W,
) -> io::Result<()>
    ensures { OnOk result (TakenOn draft.old (R.remaining input.old) (R.remaining input.new) (W.contents output.old) (W.contents output.new)) }
{
    while draft.numbers.n <= PICKS {
        let Some(pick) = next_pick(input) else {
            return Ok(());
        };
        if take_pick(draft, pick, output)?.is_break() {
            return Ok(());
        }
    }
    Ok(())
}
