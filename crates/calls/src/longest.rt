// The centre of the longest ending.
ghost use Rattle.std.specs.Prelude.{[]};
ghost use Rattle.promises.specs.Answers.{reply, centre_says};
ghost use Rattle.promises.specs.Book.{longest};
ghost use Rattle.promises.specs.Lent.{ReadsOn};

use cells::{Centre, Numbers};
use promises::Refusal;
use refusals::longest_refusal;

#[tactic(auto, using(promises::proofs::RefusalLaws::longest_passed))]
pub fn longest(held: Numbers) -> Result<Centre, Refusal>
    ensures { ReadsOn held (λ d. Unit) longest (reply (centre_says result) []) }
{
    longest_refusal(held)?;
    Ok(iterator::reading::longest(held.n, held.longest))
}
