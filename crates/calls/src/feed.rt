// Feed: a pick and a visit list.
ghost use Rattle.std.specs.Prelude.{◌≡◌, ◌+◌, ◌<◌};
ghost use Rattle.words.specs.Definitions.{most_picks};
ghost use Rattle.promises.specs.State.{draft_in};
ghost use Rattle.promises.specs.Promises.{mask_byte};
ghost use Rattle.promises.specs.Lent.{FeedsOn};

use crate::lift::lift_in;
use crate::mask::mask_byte;
use cells::{Centres, Letters, Lifts, Numbers, Place, Places, put};
use engine::append::{Appended, append};
use promises::FeedAnswer;
use refusals::feed_refusal;

// The answer, and the numbers of the state (document 01, "the state in a struct beside it").
#[derive(Clone, Copy)]
pub struct Step {
    pub answer: FeedAnswer,
    pub numbers: Numbers,
}

// One pick more than `held` tells. No From, since the numbers come of both.
fn taken(a: Appended, held: Numbers) -> Step
    requires { held.n < most_picks }
    ensures { (result.answer ≡ FeedAnswer.Taken (mask_byte a.row) a.count) × (result.numbers.n ≡ held.n + 1) × (result.numbers.k ≡ held.k)
        × (result.numbers.longest.0 ≡ a.longest.0) }
{
    let longest = a.longest;
    Step {
        answer: FeedAnswer::Taken(mask_byte(a.row), a.count),
        numbers: Numbers {
            n: held.n + 1,
            k: held.k,
            longest,
        },
    }
}

// The letter is stored as it is; the engine takes the pick's lift in force.
#[tactic(auto, using(promises::proofs::RefusalLaws::feed_fits))]
pub fn feed(
    letters: &mut Letters,
    codes: &mut Letters,
    lifts: &Lifts,
    centres: &mut Centres,
    places: &mut Places,
    visits: &mut [u16],
    held: Numbers,
    pick: u8,
) -> Step
    ensures { FeedsOn
        (λ marks. draft_in held letters.old codes.old lifts.now marks centres.old places.old)
        pick visits.old result.answer
        (λ marks. draft_in result.numbers letters.new codes.new lifts.now marks centres.new places.new)
        visits.new }
{
    // By hand, where the other calls have `?`: the answer is document 01's enum, no Result.
    if let Err(refusal) = feed_refusal(held, pick, visits.len()) {
        return Step {
            answer: FeedAnswer::Refused(refusal.number()),
            numbers: held,
        };
    }
    let code = lift_in(lifts, pick);
    put(letters, Place(held.n), pick);
    let a = append(codes, centres, places, visits, held, code);
    taken(a, held)
}
