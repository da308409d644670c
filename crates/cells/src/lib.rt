// The stored arrays, and total access to them: outside of an array a given value is read and nothing is stored.
#![tactic(auto)]

ghost use Rattle.std.specs.Prelude.{◌≡◌, ◌-◌, ℕ, get_or, set};

// The most picks of a draft (document 01, "A draft has 0 to 2,048 picks").
pub const PICKS: usize = 2048;

// The most sections asked for (document 01, "K, chosen at the start, is 1 to 8").
pub const SECTIONS: usize = 8;

// The fewest entries of a visit list (document 01, "Visit list under 19 entries").
pub const VISITS: usize = 19;

// The letters of a pick (document 01, "A pick is one byte, A to Z (65 to 90)").
pub const FIRST_LETTER: u8 = b'A';

pub const LAST_LETTER: u8 = b'Z';

// The letters, A to Z: entries of a table of lifts, and names of marks.
pub const ALPHABET: usize = 26;

// The most marks of a draft (document 02, "up to four marks").
pub const MARKS: usize = 4;

// The entries of an array by place, 0 to 2,048; and of one by centre, 1 to 2 x 2,048 + 1 and entry 0, which is not used.
pub const BY_PLACE: usize = PICKS + 1;

pub const BY_CENTRE: usize = 2 * PICKS + 2;

// What an array of N entries is read by.
pub trait Index<const N: usize>: Copy {
    ghost number: { Self → ℕ };

    fn number(self) -> usize
        ensures { result ≡ number self };
}

// A centre, counted in half picks (document 01, "Centres are counted in half picks and places in whole picks").
#[derive(Clone, Copy)]
pub struct Centre(pub usize);

impl Index<{ BY_CENTRE }> for Centre {
    ghost number = { λ c. c.0 };

    fn number(self) -> usize {
        self.0
    }
}

// A place, counted in whole picks: place i stands after the first i picks. What nothing compares or prints derives no more.
#[derive(Clone, Copy)]
pub struct Place(pub usize);

impl Index<{ BY_PLACE }> for Place {
    ghost number = { λ i. i.0 };

    fn number(self) -> usize {
        self.0
    }
}

// The pick after a place.
impl Index<{ PICKS }> for Place {
    ghost number = { λ i. i.0 };

    fn number(self) -> usize {
        self.0
    }
}

// A letter for each place that a pick follows; a number for each place; a number for each centre. Arrays of fixed size, of which n picks
// count: there is no heap, and C has them so.
pub type Letters = [u8; PICKS];

pub type ByPlace = [u16; BY_PLACE];

pub type ByCentre = [u16; BY_CENTRE];

// A lift for each letter, A to Z.
pub type Lifts = [u8; ALPHABET];

// A mark for each letter: 0 where it is none, else the length that it marks and one more.
pub type Marks = [u16; ALPHABET];

// The stored arrays by centre: radii, lend lists, the list of the endings' centres forward and backward.
#[repr(C)]
#[derive(Clone, Copy)]
pub struct Centres {
    pub radius: ByCentre,
    pub lends: ByCentre,
    pub next: ByCentre,
    pub prev: ByCentre,
}

// Those by place: heads of the lend lists, row words, gathered words.
#[repr(C)]
#[derive(Clone, Copy)]
pub struct Places {
    pub heads: ByPlace,
    pub rows: ByPlace,
    pub gathered: ByPlace,
}

// The numbers of the state: how many picks, K, the centre of the longest ending. They are whatever is stored, so what a function needs of
// them it requires: a type that says it could not hold them.
#[derive(Clone, Copy)]
pub struct Numbers {
    pub n: usize,
    pub k: usize,
    pub longest: Centre,
}

// Entry i, or `outside` where there is none.
pub fn at<T: Copy>(s: &[T], i: usize, outside: T) -> T
    ensures { result ≡ get_or s.now i outside }
{
    s.get(i).copied().unwrap_or(outside)
}

// v at entry i, where there is one.
pub fn store<T: Copy>(s: &mut [T], i: usize, v: T)
    ensures { s.new ≡ set s.old i v }
{
    if i < s.len() {
        s[i] = v;
    }
}

// The same of an array, by what it is read by.

pub fn entry<T: Copy, const N: usize, I: Index<N>>(array: &[T; N], i: I, outside: T) -> T
    ensures { result ≡ get_or array.now (I.number i) outside }
{
    at(array, i.number(), outside)
}

pub fn put<T: Copy, const N: usize, I: Index<N>>(array: &mut [T; N], i: I, v: T)
    ensures { array.new ≡ set array.old (I.number i) v }
{
    store(array, i.number(), v);
}

// The place of a letter in the alphabet, from 0; 0 of a byte below A.
pub fn letter_index(letter: u8) -> usize
    ensures { result ≡ letter - 65 }
{
    usize::from(letter.saturating_sub(FIRST_LETTER))
}
