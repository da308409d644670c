// Section 3, append, lines 2 to 7.
ghost use Rattle.std.specs.Prelude.{◌≡◌, ◌+◌, ◌-◌, ◌*◌, ◌≤◌, ◌<◌};
ghost use Rattle.words.specs.Definitions.{most_picks};
ghost use Rattle.models.specs.Iterator.{start, extends, reflected_radius};
ghost use Rattle.models.specs.Lanes.{moved};
ghost use Rattle.models.specs.IteratorCode.{scan_in};

use crate::reflection::reflection;
use cells::{ByCentre, Centre, Centres, Letters, Place, Places, entry};

// The radius at c, from `from` on and within the text, by reflection at `from`. `reflected_radius` without its test, which would cost a
// feed 3 instructions in 100.
fn radius_ahead(radius: &ByCentre, n: usize, from: Centre, c: Centre) -> usize
    requires { (n < most_picks) × (from.0 ≤ 2 * n + 1) × (from.0 ≤ c.0) × (c.0 < 2 * n + 2) }
    ensures { result ≡ reflected_radius radius.now n from.0 c.0 }
{
    let mirrored = reflection(c, from);
    usize::from(radius[mirrored.0]).min(n - c.0 / 2)
}

// The place where a stretch of radius r at c starts. `div_ceil` here makes the scan's loop a third longer.
fn start(c: Centre, r: usize) -> Place
    requires { (c.0 < 65536) × (r < 65536) }
    ensures { result.0 ≡ start c.0 r }
{
    Place(((c.0 + 1) / 2).saturating_sub(r + 1))
}

// Whether the stretch closes the n letters and the letter before it is the new one.
fn extends(letters: &Letters, n: usize, c: Centre, r: usize, pick: u8) -> bool
    requires { (c.0 < 65536) × (r < 65536) }
    ensures { result ≡ extends letters.now n c.0 r pick }
{
    if c.0 / 2 + r == n {
        let i = start(c, r);
        if 0 < i.0 {
            return entry(letters, Place(i.0 - 1), 0) == pick;
        }
    }
    false
}

// The loop of Manacher's kind: the centre of the longest ending moves on from `from` to where the new letter leaves one.
pub fn scan(
    letters: &Letters,
    centres: &mut Centres,
    places: &mut Places,
    n: usize,
    from: Centre,
    pick: u8,
) -> Centre
    requires { (n < most_picks) × (from.0 ≤ 2 * n + 1) }
    ensures places_after { moved result.0 centres.new places.new
        ≡ scan_in letters.now n pick from.0 (2 * n + 2 - from.0) from.0 centres.old places.old }
    ensures high { result.0 ≤ 2 * n + 2 }
{
    for half_picks in from.0..2 * n + 2 {
        let c = Centre(half_picks);
        let r = radius_ahead(&centres.radius, n, from, c);
        if extends(letters, n, c, r, pick) {
            centres.radius[c.0] = (r + 1) as u16;
            return c;
        }
        centres.radius[c.0] = r as u16;
        let i = start(c, r);
        centres.lends[c.0] = places.heads[i.0];
        places.heads[i.0] = c.0 as u16;
    }
    let last = Centre(2 * n + 2);
    centres.radius[last.0] = 0;
    last
}
