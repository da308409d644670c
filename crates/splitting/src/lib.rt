// The search for the split named: from the last section back to the first, each section's start tried from place 0 upward;
// and the turn count of a split.
#![tactic(auto)]

ghost use Rattle.std.specs.Prelude.{◌≡◌, [], ◌∷◌, ◌+◌, ◌<◌, ◌≤◌, eqb};
ghost use Rattle.words.specs.Definitions.{most_picks, most_sections, turns_of, turn_count, bit};
ghost use Rattle.models.specs.Iterator.{longest_of};
ghost use Rattle.models.specs.Splitting.{starts_at, first_start, split_by};
ghost use Rattle.models.specs.SplitCode.{Stores};
ghost use Rattle.splitting.specs.Says.{first_says};

use cells::{ByPlace, Centre, Place, entry, store};
use iterator::reading::Radii;

// Whether the row word has bit k; the library has no such test.
fn has_bit(row: u16, k: u8) -> bool
    requires { k ≤ most_sections }
    ensures { result ≡ eqb (bit row k) 1 }
{
    (row >> k) % 2 == 1
}

// The centre of picks j + 1 to i.
fn centre_between(j: Place, i: Place) -> Centre
    requires { (j.0 ≤ most_picks) × (i.0 ≤ most_picks) }
    ensures { result.0 ≡ i.0 + j.0 + 1 }
{
    Centre(i.0 + j.0 + 1)
}

// What a split is sought by: the row words and the radii. The prefix and the number of sections are what is asked, so they are parameters.
#[derive(Clone, Copy)]
pub struct Search<'a, 'b> {
    pub rows: &'a ByPlace,
    pub radii: Radii<'b>,
}

impl Search<'_, '_> {
    // Whether prefix j splits into k sections and picks j + 1 to i are one more. Constant work: a bit and a radius.
    fn starts_at(&self, k: u8, i: Place, j: Place) -> bool
        requires { (k ≤ most_sections) × (i.0 ≤ most_picks) × (j.0 < i.0) }
        ensures { result ≡ starts_at self.now.rows.now self.now.radii.radius.now self.now.radii.held.n
            (longest_of self.now.radii.held.n self.now.radii.held.longest.0) k i.0 j.0 }
    {
        if has_bit(entry(self.rows, j, 0), k) {
            let r = self.radii.radius_at(centre_between(j, i));
            return (i.0 - j.0) / 2 <= r;
        }
        false
    }

    // The first start of a last section of prefix i whose rest splits into k: tried from place 0 upward. On a frame of its own, which the
    // searches of the sections before do not pile up.
    #[inline(never)]
    fn first_start(&self, k: u8, i: Place) -> Option<Place>
        requires { (k ≤ most_sections) × (i.0 ≤ most_picks) }
        ensures { first_says result ≡ first_start self.now.rows.now self.now.radii.radius.now self.now.radii.held.n
            (longest_of self.now.radii.held.n self.now.radii.held.longest.0) k i.0 i.0 0 }
    {
        // A copy, which no try reads from memory again.
        let search = *self;
        for j in 0..i.0 {
            if search.starts_at(k, i, Place(j)) {
                return Some(Place(j));
            }
        }
        None
    }

    // The ends of the split named of prefix i into k go to the front of the list; where there is none, nothing is stored.
    pub fn split_into(&self, k: u8, i: Place, ends: &mut [u16]) -> bool
        requires { (k ≤ most_sections) × (i.0 ≤ most_picks) }
        ensures { Stores (split_by self.now.rows.now self.now.radii.radius.now self.now.radii.held.n
            (longest_of self.now.radii.held.n self.now.radii.held.longest.0) k i.0) ends.old result ends.new }
    {
        if k == 0 {
            return i.0 == 0;
        }
        let Some(j) = self.first_start(k - 1, i) else {
            return false;
        };
        if self.split_into(k - 1, j, ends) {
            store(ends, usize::from(k - 1), i.0 as u16);
            return true;
        }
        false
    }
}

// A section of two or more picks makes a turn.
fn turns_in(len: usize) -> usize
    ensures { (result ≡ turns_of (len ∷ [])) × (result ≤ 1) }
{
    if 2 <= len { 1 } else { 0 }
}

// The turn count of the split with these ends.
pub fn turn_count(ends: &[u16]) -> usize
    ensures { result ≡ turn_count ends.now }
{
    let mut turns = 0;
    let mut a = 0;
    for &end in ends {
        let e = usize::from(end);
        turns += turns_in(e.saturating_sub(a));
        a = e;
    }
    turns
}
