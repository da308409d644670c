// Section 4, append, lines 3 to 9: the walk over the leading endings.
ghost use Rattle.std.specs.Prelude.{◌≡◌, ◌-◌, ◌≤◌, ◌<◌, get_or, set};
ghost use Rattle.std.specs.Int.Bits.{bit_or};
ghost use Rattle.words.specs.Definitions.{most_picks, centre, next_leading};
ghost use Rattle.words.specs.Computed.{mended};
ghost use Rattle.cells.specs.Lanes.{with_gathered};
ghost use Rattle.models.specs.Engine.{period_of, seen_as};
ghost use Rattle.models.specs.EngineCode.{seen_in};

use cells::{ByCentre, Centre, Place, Places, store};
use iterator::reading::period_at;

// The centre of the ending of len picks, of n. An ending's length is 1 to n: a parameter, since a struct of `next`, n and len would be
// made anew at each visit.
fn centre_of(n: usize, len: usize) -> Centre
    requires { (n ≤ most_picks) × (len ≤ n) }
    ensures { result.0 ≡ centre n len }
{
    Centre((n + 1 - len) + n)
}

// The least period of the ending of length len.
#[tactic(auto, unfolding(models::specs::Engine::period_of))]
fn period_of(next: &ByCentre, n: usize, len: usize) -> usize
    requires { (n ≤ most_picks) × (0 < len) × (len ≤ n) }
    ensures value { result ≡ period_of next.now n len }
    ensures small { (0 < result) × (result ≤ len) }
{
    period_at(next, centre_of(n, len), len)
}

// The gathered word of the place before a leading ending, and the length of the next.
#[derive(Clone, Copy)]
struct Mended {
    word: u16,
    next: usize,
}

// A visit: the gathered word is the own row word where three periods do not fit, else one row word is joined to it.
fn visit(next: &ByCentre, places: &mut Places, n: usize, len: usize) -> Mended
    requires { (n ≤ most_picks) × (0 < len) × (len ≤ n) }
    ensures next_value { result.next ≡ next_leading len (period_of next.now n len) }
    ensures word { result.word
        ≡ mended bit_or (λ i. get_or places.old.rows i 0) n len (period_of next.now n len) (get_or places.old.gathered (n - len) 0) }
    ensures stored { places.new ≡ with_gathered places.old (set places.old.gathered (n - len) result.word) }
{
    let p = period_of(next, n, len);
    let i = Place(n - len);
    if len < 3 * p {
        let own = places.rows[i.0];
        places.gathered[i.0] = own;
        return Mended {
            word: own,
            next: len - p,
        };
    }
    let d = p + len % p;
    let j = Place(n - d - p);
    let word = places.gathered[i.0] | places.rows[j.0];
    places.gathered[i.0] = word;
    Mended { word, next: d }
}

// The union of the visited places' gathered words, and how many they are.
#[derive(Clone, Copy)]
pub struct Visited {
    pub union: u16,
    pub count: usize,
}

// The visits, from the longest ending on; their lengths go to the front of the list. A `while`, since each length gives the next.
pub fn visit_all(
    next: &ByCentre,
    places: &mut Places,
    visits: &mut [u16],
    n: usize,
    longest: usize,
) -> Visited
    requires { (n ≤ most_picks) × (longest ≤ n) }
    ensures { seen_as places.new result.union visits.new result.count
        ≡ seen_in next.now n longest longest 0 places.old visits.old 0 }
{
    let mut union = 0u16;
    let mut count = 0usize;
    let mut len = longest;
    while 0 < len {
        let v = visit(next, places, n, len);
        union = union | v.word;
        store(visits, count, len as u16);
        count = count + 1;
        len = v.next;
    }
    Visited { union, count }
}
