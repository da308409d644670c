// Numbers in decimal, without leading zeros. By hand, since what lies outside of the output is dropped, where `write!` would stop.
ghost use Rattle.std.specs.Prelude.{◌≡◌, ◌+◌, ◌≤◌, ◌<◌, length};
ghost use Rattle.text.specs.Definitions.{digit_zero, decimal};
ghost use Rattle.text.specs.Decimal.{most_digits};
ghost use Rattle.text.specs.Writes.{Writes, far};

use crate::DIGIT_ZERO;
use cells::store;

const BASE: usize = 10;

// The byte of a digit.
fn digit(d: usize) -> u8
    requires { d < 10 }
    ensures { result ≡ digit_zero + d }
{
    DIGIT_ZERO + d as u8
}

// How many digits n has. One, as most numbers of a record and a line have, is found without a logarithm.
#[tactic(auto, using(crate::specs::Decimal::length_digit_lem, crate::specs::Decimal::length_power))]
pub fn digit_count(n: usize) -> usize
    ensures { (result ≡ length (decimal n)) × (0 < result) × (result ≤ most_digits) }
{
    if n < BASE {
        return 1;
    }
    n.ilog10() as usize + 1
}

// The digits of n, the last one first, and the place after them.
pub fn write_decimal(n: usize, output: &mut [u8], at: usize) -> usize
    requires { at + most_digits ≤ far }
    ensures writes { Writes output.old at (decimal n) output.new result }
    ensures small { result ≤ at + most_digits }
{
    let next = at + digit_count(n);
    let mut left = n;
    for last in (at..next).rev() {
        store(output, last, digit(left % BASE));
        left /= BASE;
    }
    next
}
