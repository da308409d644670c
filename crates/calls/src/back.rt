// Back: the draft as it was at a mark. The kept picks are fed again, in place.
ghost use Rattle.std.specs.Prelude.{◌≡◌, map, ◌++◌, ◌-◌, ◌≤◌, length, replicate, take};
ghost use Rattle.words.specs.Definitions.{most_picks, most_sections};
ghost use Rattle.models.specs.Core.{arrays_in};
ghost use Rattle.promises.specs.Lifts.{lifted_by};
ghost use Rattle.promises.specs.State.{draft_in};
ghost use Rattle.promises.specs.Marks.{keep_to};
ghost use Rattle.promises.specs.State.{append_all};
ghost use Rattle.promises.specs.Promises.{BackPromise};
ghost use Rattle.promises.specs.Lent.{answered_as, done, numbers_after};

use crate::lift::lift_in;
use crate::mark::entry_of;
use crate::start::clear;
use cells::{Centre, Centres, Letters, Lifts, Marks, Numbers, Places, VISITS};
use engine::append::append;
use promises::Refusal;
use refusals::letter_refusal;

// The entry of a mark, 0 where it is above top.
fn keep_to(top: u16, entry: u16) -> u16
    ensures { result ≡ keep_to top entry }
{
    if entry <= top { entry } else { 0 }
}

// Drops the marks whose entry is above top.
fn drop_longer(marks: &mut [u16], top: u16)
    ensures { marks.new ≡ map (keep_to top) marks.old }
{
    for entry in marks {
        *entry = keep_to(top, *entry);
    }
}

// The first `kept` letters, and 0 behind them.
fn cut(letters: &mut [u8], kept: usize)
    requires { kept ≤ length letters.old }
    ensures { letters.new ≡ take kept letters.old ++ replicate (length letters.old - kept) 0 }
{
    letters[kept..].fill(0);
}

// Feeds the first `kept` letters to the arrays of no letter. Nobody asks for the visits.
#[tactic(auto, using(promises::proofs::BackLaws::again_all))]
fn feed_again(
    letters: &Letters,
    codes: &mut Letters,
    lifts: &Lifts,
    centres: &mut Centres,
    places: &mut Places,
    k: usize,
    kept: usize,
) -> Numbers
    requires { (k ≤ most_sections) × (kept ≤ most_picks) × (kept ≤ length letters.now) }
    ensures { (result.n ≡ kept) × (result.k ≡ k)
        × (arrays_in codes.new centres.new places.new result.longest.0
        ≡ append_all k 0 (arrays_in codes.old centres.old places.old 1)
        (lifted_by lifts.now (take kept letters.now))) }
{
    let mut visits = [0u16; VISITS];
    let mut held = Numbers {
        n: 0,
        k,
        longest: Centre(1),
    };
    for &letter in &letters[..kept] {
        let code = lift_in(lifts, letter);
        let a = append(codes, centres, places, &mut visits, held, code);
        let longest = a.longest;
        held = Numbers {
            n: held.n + 1,
            k,
            longest,
        };
    }
    held
}

#[tactic(auto, using(promises::proofs::RefusalLaws::letter_passed))]
pub fn back(
    letters: &mut Letters,
    codes: &mut Letters,
    lifts: &Lifts,
    marks: &mut Marks,
    centres: &mut Centres,
    places: &mut Places,
    held: Numbers,
    name: u8,
) -> Result<Numbers, Refusal>
    ensures { BackPromise
        (draft_in held letters.old codes.old lifts.now marks.old centres.old places.old) name
        (answered_as (done result)
        (draft_in (numbers_after held result) letters.new codes.new lifts.now marks.new centres.new places.new)) }
{
    letter_refusal(held, name)?;
    let entry = entry_of(marks, name);
    if entry == 0 {
        return Err(Refusal::NoMark);
    }
    let kept = (usize::from(entry) - 1).min(held.n);
    drop_longer(marks, entry);
    cut(letters, kept);
    clear(codes, centres, places);
    let numbers = feed_again(letters, codes, lifts, centres, places, held.k, kept);
    Ok(numbers)
}
