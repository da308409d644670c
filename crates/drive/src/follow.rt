// A script of calls, one after the other.
ghost use Rattle.std.specs.Prelude.{◌≡◌, ◌≤◌, length};
ghost use Rattle.drive.specs.Script.{call_size};
ghost use Rattle.drive.specs.Drives.{answer_size, held_in, Drives};
ghost use Rattle.drive.specs.Lending.{held_by, SameBuffers};
ghost use Rattle.drive.specs.State.{draft_of, SameParts};
ghost use Rattle.drive.specs.Advancing.{Inside, AdvancesAt};

use crate::lending::{Buffers, Sizes};
use crate::request::{CALL_SIZE, request_of};
use crate::state::State;
use cells::Numbers;

// The numbers of an answer.
const ANSWER_SIZE: usize = 4;

// The numbers of the state, as C has them.
fn stored(held: Numbers) -> [usize; 3]
    ensures { held_in result ≡ held }
{
    [held.n, held.k, held.longest.0]
}

impl State<'_> {
    // The script's next call, if there is one, behind what calls before it were lent; gives how much was lent with it. The numbers are
    // stored after each call, so that a script that a reset cuts off leaves those of its last whole call.
    fn advance(
        &mut self,
        numbers: &mut [usize; 3],
        script: &[u8],
        buffers: &mut Buffers<'_, '_>,
        lent: Sizes,
        answer: &mut [usize],
    ) -> Option<Sizes>
        requires script { call_size ≤ length script.now }
        requires lent { Inside (held_by buffers.old) lent }
        requires answer { length answer.old ≡ answer_size }
        ensures numbers { held_in numbers.old ≡ self.old.numbers → held_in numbers.new ≡ self.new.numbers }
        ensures same { SameParts self.new self.old }
        ensures buffers { SameBuffers buffers.new buffers.old }
        ensures advances { AdvancesAt script.now (held_by buffers.old) answer.old lent result
            (draft_of self.old) (draft_of self.new) buffers.new.lists.now buffers.new.bytes.now answer.new }
    {
        let q = request_of(script)?;
        let there = buffers.sizes();
        let end = lent.past(q.op.sizes(q.m), there)?;
        let told = self.call(
            q,
            &buffers.input[lent.input..end.input],
            &mut buffers.lists[lent.entries..end.entries],
            &mut buffers.bytes[lent.output..end.output],
        );
        *numbers = stored(self.numbers);
        answer.copy_from_slice(&told);
        Some(end)
    }

    // The calls of the script; gives their number.
    pub fn follow(
        &mut self,
        numbers: &mut [usize; 3],
        script: &[u8],
        buffers: &mut Buffers<'_, '_>,
        answers: &mut [usize],
    ) -> usize
        ensures numbers { held_in numbers.old ≡ self.old.numbers → held_in numbers.new ≡ self.new.numbers }
        ensures same { SameParts self.new self.old }
        ensures buffers { SameBuffers buffers.new buffers.old }
        ensures drives { Drives (draft_of self.old) script.now (held_by buffers.old) answers.old result
            (draft_of self.new) buffers.new.lists.now buffers.new.bytes.now answers.new }
    {
        let calls = (script.len() / CALL_SIZE).min(answers.len() / ANSWER_SIZE);
        let mut lent = Sizes::default();
        // By number: of what is written through the parts of a chunks_mut a proof knows nothing.
        for made in 0..calls {
            let read = CALL_SIZE * made;
            let at = ANSWER_SIZE * made;
            let answer = &mut answers[at..at + ANSWER_SIZE];
            let Some(end) = self.advance(numbers, &script[read..], buffers, lent, answer) else {
                return made;
            };
            lent = end;
        }
        calls
    }
}
