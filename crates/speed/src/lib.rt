// The feeds of a whole draft on lent arrays, one after another: what bench/ times.
#![tactic(auto)]

ghost use Rattle.std.specs.Prelude.{◌≡◌, List, ℕ};
ghost use Rattle.promises.specs.State.{draft_in};
ghost use Rattle.speed.specs.Feeds.{mask_of, FeedsAll};

use calls::feed::feed;
use cells::{Centre, Centres, Letters, Lifts, Numbers, Places, SECTIONS, store};
use promises::FeedAnswer;

// A byte for each pick, which is what C is given: 0 where it is refused.
fn mask_of(a: FeedAnswer) -> u8
    ensures { result ≡ mask_of a }
{
    match a {
        FeedAnswer::Taken(mask, _) => mask,
        FeedAnswer::Refused(_) => 0,
    }
}

// Feeds the picks, K = 8, from no pick and centre 1 on, under these lifts and whatever the arrays hold, each with the visit list as the
// one before left it; each pick's mask is stored. Gives the centre of the longest ending.
#[unsafe(no_mangle)]
pub extern "C" fn feed_all(
    letters: &mut Letters,
    codes: &mut Letters,
    lifts: &Lifts,
    centres: &mut Centres,
    places: &mut Places,
    visits: &mut [u16],
    picks: &[u8],
    masks: &mut [u8],
) -> usize
    ensures { (marks : List ℕ) → FeedsAll
        (draft_in (record { n = 0; k = 8; longest = record { 0 = 1 } })
        letters.old codes.old lifts.now marks centres.old places.old)
        picks.now visits.old masks.old result
        (λ held. draft_in held letters.new codes.new lifts.now marks centres.new places.new)
        visits.new masks.new }
{
    let mut held = Numbers {
        n: 0,
        k: SECTIONS,
        longest: Centre(1),
    };
    for (i, &pick) in picks.iter().enumerate() {
        let step = feed(letters, codes, lifts, centres, places, visits, held, pick);
        store(masks, i, mask_of(step.answer));
        held = step.numbers;
    }
    held.longest.0
}
