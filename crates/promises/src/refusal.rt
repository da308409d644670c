// Why a call is refused: a case for each line of the documents' lists, in the order of their numbers.
ghost use Rattle.std.specs.Prelude.{◌≡◌, Some};
ghost use Rattle.promises.specs.Answers.{number_of, place_of, refusal_text};

use std::fmt;

#[derive(Clone, Copy, Debug, PartialEq, Eq)]
pub enum Refusal {
    // Document 01, "K outside 1 to 8, or k outside 1 to K".
    Sections,
    // "Pick not A to Z, in feeding or in looking up a lift"; document 02, "A name outside A to Z is 2".
    NotALetter,
    // "Visit list under 19 entries".
    ShortVisits,
    // "Prefix above n, centre outside 1 to 2n+1, or s outside 1 to the number of ends".
    OutOfRange,
    // "Record longer than the lent output"; document 02, of the list that takes a record's picks, "a list too short is 5".
    TooLong,
    // "Ends not rising strictly from above 0 to exactly the number of lent letters".
    NotRising,
    // "Stored n above 2,048 or stored K outside 1 to 8".
    NoDraft,
    // "Feeding with n = 2,048".
    Full,
    // "No division of the prefix into k sections exists".
    NoSplit,
    // "The centre belongs to no ending, or to the empty one, when the next shorter is sought".
    NoEnding,
    // Document 02, "with the place of the first byte that cannot continue the layout".
    NoRecord(usize),
    // "lengths not adding up to the picks".
    Unequal,
    // "ends list under k entries".
    ShortEnds,
    // "not 26 bytes".
    TableSize,
    // "a lift of 0, with the first one's place from 0".
    ZeroLift(usize),
    // "the draft is not empty".
    NotEmpty,
    // "no such mark".
    NoMark,
    // "a fifth name".
    FifthName,
}

impl Refusal {
    // The number of its line.
    pub fn number(self) -> u8
        ensures { result ≡ number_of self }
    {
        match self {
            Refusal::Sections => 1,
            Refusal::NotALetter => 2,
            Refusal::ShortVisits => 3,
            Refusal::OutOfRange => 4,
            Refusal::TooLong => 5,
            Refusal::NotRising => 6,
            Refusal::NoDraft => 7,
            Refusal::Full => 8,
            Refusal::NoSplit => 9,
            Refusal::NoEnding => 10,
            Refusal::NoRecord(_) => 11,
            Refusal::Unequal => 12,
            Refusal::ShortEnds => 13,
            Refusal::TableSize => 14,
            Refusal::ZeroLift(_) => 15,
            Refusal::NotEmpty => 16,
            Refusal::NoMark => 17,
            Refusal::FifthName => 18,
        }
    }

    // The place that it names, if it names one.
    pub fn place(self) -> Option<usize>
        ensures { result ≡ place_of self }
    {
        match self {
            Refusal::NoRecord(place) | Refusal::ZeroLift(place) => Some(place),
            _ => None,
        }
    }
}

// Its number, and its place.
impl fmt::Display for Refusal {
    ghost output = { λ r. Some (refusal_text r) };

    fn fmt<W: fmt::Write>(&self, f: &mut fmt::Formatter<W>) -> fmt::Result {
        write!(f, "refused {}", self.number())?;
        match self.place() {
            Some(place) => write!(f, " at {place}"),
            None => Ok(()),
        }
    }
}
