// One byte of a number read.
ghost use Rattle.std.specs.Prelude.{◌≡◌, ◌≤◌};
ghost use Rattle.words.specs.Definitions.{most_picks};
ghost use Rattle.text.specs.Definitions.{digit_zero};
ghost use Rattle.layout.specs.Reading.{onward};
ghost use Rattle.reader.specs.Numbers.{read_number};

use text::{COMMA, DIGIT_ZERO};

// What a byte makes of a number: it has one digit more, or it has ended. No Option: it stands in one, whose None is another byte.
#[derive(Clone, Copy)]
pub enum Number {
    More(usize),
    Ended,
}

// The number n, one digit on.
fn onward(n: usize, b: u8) -> usize
    requires { (n ≤ most_picks) × (digit_zero ≤ b) }
    ensures { result ≡ onward n b }
{
    10 * n + usize::from(b - DIGIT_ZERO)
}

// A digit that keeps the number within 1 to most, or a comma behind a number.
#[tactic(auto, unfolding(layout::specs::Reading::is_digit, crate::specs::Numbers::read_number))]
pub fn read_number(most: usize, number: usize, b: u8) -> Option<Number>
    requires { number ≤ most_picks }
    ensures { result ≡ read_number most number b }
{
    if b.is_ascii_digit() {
        let n = onward(number, b);
        return (1..=most).contains(&n).then_some(Number::More(n));
    }
    (b == COMMA && 1 <= number).then_some(Number::Ended)
}
