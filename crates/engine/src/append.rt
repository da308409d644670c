// Section 4, append: the core.
ghost use Rattle.std.specs.Prelude.{◌≤◌, ◌<◌};
ghost use Rattle.words.specs.Definitions.{most_picks, most_sections};
ghost use Rattle.models.specs.Core.{arrays_in, after, Appends};

use crate::step::step;
use cells::{Centre, Centres, Letters, Numbers, Places};

// What one pick more gives beside the arrays: its row word, the count of its visits, the centre of the longest ending.
#[derive(Clone, Copy)]
pub struct Appended {
    pub row: u16,
    pub count: usize,
    pub longest: Centre,
}

// One pick more after those that `held` tells. The lengths of its visits go to the front of the list. The arrays are parameters, since a
// feed is lent them one by one.
pub fn append(
    letters: &mut Letters,
    centres: &mut Centres,
    places: &mut Places,
    visits: &mut [u16],
    held: Numbers,
    pick: u8,
) -> Appended
    requires { (held.n < most_picks) × (held.k ≤ most_sections) }
    ensures { Appends held.k held.n pick
        (arrays_in letters.old centres.old places.old held.longest.0) visits.old
        (after (arrays_in letters.new centres.new places.new result.longest.0) visits.new result.row result.count) }
{
    let longest = iterator::append::append(letters, centres, places, held.n, held.longest, pick);
    let new = Numbers {
        n: held.n + 1,
        k: held.k,
        longest,
    };
    let s = step(&centres.next, places, visits, new);
    Appended {
        row: s.row,
        count: s.count,
        longest,
    }
}
