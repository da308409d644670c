// An answer in four numbers.
ghost use Rattle.std.specs.Prelude.{◌≡◌, ℕ, List, [], ◌∷◌, get_or};
ghost use Rattle.cells.specs.declared.Centre.{Centre};
ghost use Rattle.models.specs.declared.Shorter.{Shorter};
ghost use Rattle.promises.specs.Answers.{says, refusal_says, feed_says, found_numbers};
ghost use Rattle.drive.specs.Drives.{encoded};

use cells::{Centre, Numbers};
use layout::{Found, Section, Turn};
use models::Shorter;
use promises::{FeedAnswer, Refusal};

// As C reads it: 0 for an answer given, 1 for a refusal, 2 for one with a place; then the values, or the refusal's number and place.
pub type Told = [usize; 4];

// What an accepted call gives, as three numbers: 0 where there is no value.
pub trait Values {
    ghost values: { Self → List ℕ };

    fn numbers(self) -> [usize; 3]
        ensures { result ≡ get_or (values self) 0 0 ∷ get_or (values self) 1 0 ∷ get_or (values self) 2 0 ∷ [] };
}

impl Values for () {
    ghost values = { λ _. [] };

    fn numbers(self) -> [usize; 3] {
        [0, 0, 0]
    }
}

// The state's numbers are no part of an answer.
impl Values for Numbers {
    ghost values = { λ _. [] };

    fn numbers(self) -> [usize; 3] {
        [0, 0, 0]
    }
}

impl Values for u8 {
    ghost values = { λ x. x ∷ [] };

    fn numbers(self) -> [usize; 3] {
        [usize::from(self), 0, 0]
    }
}

impl Values for usize {
    ghost values = { λ x. x ∷ [] };

    fn numbers(self) -> [usize; 3] {
        [self, 0, 0]
    }
}

impl Values for Centre {
    ghost values = { λ c. c.0 ∷ [] };

    fn numbers(self) -> [usize; 3] {
        [self.0, 0, 0]
    }
}

impl Values for Shorter {
    ghost values = { λ s. s.centre.0 ∷ s.length ∷ s.period ∷ [] };

    fn numbers(self) -> [usize; 3] {
        [self.centre.0, self.length, self.period]
    }
}

// A refusal's number, and its place where it has one.
fn refused(refusal: Refusal) -> Told
    ensures { result ≡ encoded (refusal_says refusal) }
{
    let number = usize::from(refusal.number());
    match refusal.place() {
        Some(place) => [2, number, place, 0],
        None => [1, number, 0, 0],
    }
}

// What a call answers.
pub fn told<T: Values>(answer: Result<T, Refusal>) -> Told
    ensures { result ≡ encoded (says T.values answer) }
{
    match answer {
        Ok(given) => {
            let [first, second, third] = given.numbers();
            [0, first, second, third]
        }
        Err(refusal) => refused(refusal),
    }
}

// What a feed answers.
pub fn feed_told(answer: FeedAnswer) -> Told
    ensures { result ≡ encoded (feed_says answer) }
{
    match answer {
        FeedAnswer::Taken(mask, count) => [0, usize::from(mask), count, 0],
        FeedAnswer::Refused(number) => [1, usize::from(number), 0, 0],
    }
}

// What a reader yields, as C reads it: 1 for a turn on a pick, 2 for one between two picks, 0 for none.
pub fn found_told(found: Found) -> Told
    ensures { result ≡ found_numbers found }
{
    let next = found.next;
    match found.yielded {
        Some(
            Section {
                length,
                turn: Turn::OnPick(place),
            },
        ) => [1, length, place.0, next],
        Some(
            Section {
                length,
                turn: Turn::Between(place),
            },
        ) => [2, length, place.0, next],
        None => [0, 0, 0, next],
    }
}
