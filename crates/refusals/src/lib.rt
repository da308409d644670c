// When a call is refused: each line of the documents' lists, and for each call the first that it meets.
// Number 6 stands with show; 9, 10, 5, 15, 17 and 18 come after a search, with the calls that make it.
#![tactic(auto)]

ghost use Rattle.std.specs.Prelude.{◌≡◌, ◌+◌, ◌*◌, ◌≤◌};
ghost use Rattle.promises.specs.Answers.{done_says, outcome};
ghost use Rattle.promises.specs.Refusals.{line1, line2, line3, line4, line7, line8, line13, line14, line16, start_refusal, feed_refusal, table_refusal, mask_refusal, centre_refusal, longest_refusal, split_refusal, record_refusal, letter_refusal};
ghost use Rattle.words.specs.Definitions.{most_picks};

use cells::{ALPHABET, Centre, FIRST_LETTER, LAST_LETTER, Numbers, PICKS, Place, SECTIONS, VISITS};
use promises::Refusal;

// 1: k outside 1 to most. Each line of the documents' lists is a test of its own, with its number, where two are alike in form as well.
fn line1(most: usize, k: u8) -> Result<(), Refusal>
    ensures { done_says result ≡ outcome (line1 most k 0) }
{
    if !(1..=most).contains(&usize::from(k)) {
        return Err(Refusal::Sections);
    }
    Ok(())
}

// 2: a byte that is not A to Z.
fn line2(pick: u8) -> Result<(), Refusal>
    ensures { done_says result ≡ outcome (line2 pick 0) }
{
    if !(FIRST_LETTER..=LAST_LETTER).contains(&pick) {
        return Err(Refusal::NotALetter);
    }
    Ok(())
}

// 3: a visit list that is too short.
fn line3(entries: usize) -> Result<(), Refusal>
    ensures { done_says result ≡ outcome (line3 entries 0) }
{
    if entries < VISITS {
        return Err(Refusal::ShortVisits);
    }
    Ok(())
}

// 4: x outside low to high.
pub fn line4(low: usize, high: usize, x: usize) -> Result<(), Refusal>
    ensures { done_says result ≡ outcome (line4 low high x 0) }
{
    if !(low..=high).contains(&x) {
        return Err(Refusal::OutOfRange);
    }
    Ok(())
}

// 7: a stored n or K that no draft has.
fn line7(n: usize, sections: usize) -> Result<(), Refusal>
    ensures { done_says result ≡ outcome (line7 n sections 0) }
{
    if PICKS < n || !(1..=SECTIONS).contains(&sections) {
        return Err(Refusal::NoDraft);
    }
    Ok(())
}

// 8: no room for a pick.
fn line8(n: usize) -> Result<(), Refusal>
    ensures { done_says result ≡ outcome (line8 n 0) }
{
    if PICKS <= n {
        return Err(Refusal::Full);
    }
    Ok(())
}

// 13: an ends list that is too short.
fn line13(k: usize, entries: usize) -> Result<(), Refusal>
    ensures { done_says result ≡ outcome (line13 k entries 0) }
{
    if entries < k {
        return Err(Refusal::ShortEnds);
    }
    Ok(())
}

// 14: not as many bytes as there are letters.
fn line14(bytes: usize) -> Result<(), Refusal>
    ensures { done_says result ≡ outcome (line14 bytes 0) }
{
    if bytes != ALPHABET {
        return Err(Refusal::TableSize);
    }
    Ok(())
}

// 16: a draft that has picks.
pub fn line16(n: usize) -> Result<(), Refusal>
    ensures { done_says result ≡ outcome (line16 n 0) }
{
    if n != 0 {
        return Err(Refusal::NotEmpty);
    }
    Ok(())
}

// The calls

#[tactic(auto, unfolding(promises::specs::Refusals::start_refusal))]
pub fn start_refusal(k: u8) -> Result<(), Refusal>
    ensures { done_says result ≡ outcome (start_refusal k) }
{
    line1(SECTIONS, k)
}

#[tactic(auto, using(promises::proofs::Outcomes::in_order), unfolding(promises::specs::Refusals::feed_refusal))]
pub fn feed_refusal(held: Numbers, pick: u8, entries: usize) -> Result<(), Refusal>
    ensures { done_says result ≡ outcome (feed_refusal held.n held.k pick entries) }
{
    line7(held.n, held.k)?;
    line2(pick)?;
    line3(entries)?;
    line8(held.n)
}

#[tactic(auto, using(promises::proofs::Outcomes::in_order), unfolding(promises::specs::Refusals::mask_refusal))]
pub fn mask_refusal(held: Numbers, i: Place) -> Result<(), Refusal>
    ensures { done_says result ≡ outcome (mask_refusal held.n held.k i.0) }
{
    line7(held.n, held.k)?;
    line4(0, held.n, i.0)
}

// The centre: 1 to 2n+1.
#[tactic(auto, using(promises::proofs::Outcomes::in_order), unfolding(promises::specs::Refusals::centre_refusal))]
pub fn centre_refusal(held: Numbers, c: Centre) -> Result<(), Refusal>
    ensures { done_says result ≡ outcome (centre_refusal held.n held.k c.0) }
{
    line7(held.n, held.k)?;
    line4(1, 2 * held.n + 1, c.0)
}

#[tactic(auto, unfolding(promises::specs::Refusals::longest_refusal))]
pub fn longest_refusal(held: Numbers) -> Result<(), Refusal>
    ensures { done_says result ≡ outcome (longest_refusal held.n held.k) }
{
    line7(held.n, held.k)
}

#[tactic(auto, using(promises::proofs::Outcomes::in_order), unfolding(promises::specs::Refusals::split_refusal))]
pub fn split_refusal(held: Numbers, i: Place, k: u8, entries: usize) -> Result<(), Refusal>
    ensures { done_says result ≡ outcome (split_refusal held.n held.k i.0 k entries) }
{
    line7(held.n, held.k)?;
    line1(held.k, k)?;
    line13(usize::from(k), entries)?;
    line4(0, held.n, i.0)
}

// The split's, on a list that is long enough.
#[tactic(auto, using(promises::proofs::RefusalLaws::record_as_split))]
pub fn record_refusal(held: Numbers, i: Place, k: u8) -> Result<(), Refusal>
    ensures { done_says result ≡ outcome (record_refusal held.n held.k i.0 k) }
{
    split_refusal(held, i, k, usize::from(k))
}

// Of a lift, a mark and going back: 7 and 2.
#[tactic(auto, using(promises::proofs::Outcomes::in_order), unfolding(promises::specs::Refusals::letter_refusal))]
pub fn letter_refusal(held: Numbers, letter: u8) -> Result<(), Refusal>
    ensures { done_says result ≡ outcome (letter_refusal held.n held.k letter) }
{
    line7(held.n, held.k)?;
    line2(letter)
}

// A load's, before its bytes are looked at: 7 and 14.
#[tactic(auto, using(promises::proofs::Outcomes::in_order), unfolding(promises::specs::Refusals::table_refusal))]
pub fn table_refusal(held: Numbers, bytes: usize) -> Result<(), Refusal>
    ensures { done_says result ≡ outcome (table_refusal held.n held.k bytes) }
{
    line7(held.n, held.k)?;
    line14(bytes)
}
