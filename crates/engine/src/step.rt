// The engine's part of append: the new place's row word, from the words gathered at the visited places.
ghost use Rattle.std.specs.Prelude.{◌≡◌, ◌≤◌, ◌<◌, ◌^◌, suc};
ghost use Rattle.words.specs.Definitions.{most_picks, most_sections};
ghost use Rattle.words.specs.Computed.{raised};
ghost use Rattle.models.specs.Engine.{longest_length, stepped_as, stepped};

use crate::visits::visit_all;
use cells::{ByCentre, Centre, Numbers, Place, Places, put};

// The length of the longest ending, whose centre is s; brought into 0 to n.
fn longest_length(n: usize, s: Centre) -> usize
    requires { n ≤ most_picks }
    ensures { result ≡ longest_length n s.0 }
{
    (2 * n + 1).saturating_sub(s.0).min(n)
}

// The first number that is no row word under k.
fn row_end(k: usize) -> usize
    requires { k ≤ most_sections }
    ensures value { result ≡ 2 ^ suc k }
    ensures small { (0 < result) × (result ≤ 512) }
{
    2 << k
}

// The word moved up one bit, bits above k dropped.
fn raised(word: u16, k: usize) -> u16
    requires { k ≤ most_sections }
    ensures { result ≡ raised k word }
{
    (usize::from(word) * 2 % row_end(k)) as u16
}

// The row word of the new place, and how many places were visited for it. `Visited` has the union, which is a bit lower.
#[derive(Clone, Copy)]
pub struct NewRow {
    pub row: u16,
    pub count: usize,
}

// The prefix that `new` tells: its length, K and the centre of its longest ending.
pub fn step(next: &ByCentre, places: &mut Places, visits: &mut [u16], new: Numbers) -> NewRow
    requires { (new.n ≤ most_picks) × (new.k ≤ most_sections) }
    ensures { stepped_as places.new visits.new result.row result.count
        ≡ stepped new.k new.n new.longest.0 places.old next.now visits.old }
{
    let length = longest_length(new.n, new.longest);
    let seen = visit_all(next, places, visits, new.n, length);
    let row = raised(seen.union, new.k);
    put(&mut places.rows, Place(new.n), row);
    put(&mut places.gathered, Place(new.n), row);
    NewRow {
        row,
        count: seen.count,
    }
}
