// Section 3, append.
ghost use Rattle.std.specs.Prelude.{◌≡◌, ◌+◌, ◌*◌, ◌<◌};
ghost use Rattle.words.specs.Definitions.{most_picks};
ghost use Rattle.models.specs.Answers.{AppendsLetter};
ghost use Rattle.cells.specs.Lanes.{with_heads};
ghost use Rattle.models.specs.Iterator.{lost_place};
ghost use Rattle.models.specs.Lanes.{iterator_in};

use crate::links::{link, unlinks};
use crate::reading::longest;
use crate::scan::scan;
use cells::{Centre, Centres, Letters, Place, Places, entry, put};

// The place after the first pick of the longest ending of n + 1 picks, whose centre is s.
fn lost_place(n: usize, s: Centre) -> Place
    requires { n < most_picks }
    ensures { result.0 ≡ lost_place n s.0 }
{
    Place(s.0.saturating_sub(n + 1))
}

// One letter more after n of them; the centre of the longest ending was `stored` and is what is returned. The arrays are parameters, since
// a feed is lent them one by one.
pub fn append(
    letters: &mut Letters,
    centres: &mut Centres,
    places: &mut Places,
    n: usize,
    stored: Centre,
    pick: u8,
) -> Centre
    requires { n < most_picks }
    ensures appends_letter { AppendsLetter n pick
        (iterator_in letters.old centres.old places.old stored.0)
        (iterator_in letters.new centres.new places.new result.0) }
    ensures rest { places.new ≡ with_heads places.old places.new.heads }
{
    let s = scan(letters, centres, places, n, longest(n, stored), pick);
    put(letters, Place(n), pick);
    link(centres, Centre(2 * n + 1), Centre(2 * n + 2));
    link(centres, Centre(2 * n + 2), Centre(2 * n + 3));
    let head = entry(&places.heads, lost_place(n, s), 0);
    unlinks(centres, s, Centre(usize::from(head)));
    s
}
