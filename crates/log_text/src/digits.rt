//! The digits of a number: how many there are, and writing them in their place.
ghost use Rattle.std.specs.Prelude.{◌≡◌, ◌<◌, ◌≤◌, ◌-◌, ◌++◌, decimal, length, take};

use itoa::write_digits;

/// How many digits a number below 10,000 has.
#[inline(always)]
#[tactic(auto, using(crate::proofs::DigitLaws::few_digits))]
fn short_count(number: u64) -> usize
    requires { number < 10000 }
    ensures value { result ≡ length (decimal number) }
    ensures short { result ≤ 4 }
{
    if number < 10 {
        1
    } else if number < 100 {
        2
    } else if number < 1_000 {
        3
    } else {
        4
    }
}

/// How many digits a number has. It has no loop, so that the compiler can leave it out where nobody reads the count.
#[inline(always)]
#[tactic(auto, using(crate::proofs::DigitLaws::many_digits))]
pub fn digit_count(number: u64) -> usize
    ensures value { result ≡ length (decimal number) }
    ensures short { result ≤ 20 }
{
    if number < 10_000 {
        short_count(number)
    } else if number < 100_000_000 {
        4 + short_count(number / 10_000)
    } else if number < 1_000_000_000_000 {
        8 + short_count(number / 100_000_000)
    } else if number < 10_000_000_000_000_000 {
        12 + short_count(number / 1_000_000_000_000)
    } else {
        16 + short_count(number / 10_000_000_000_000_000)
    }
}

/// Writes a number's digits before an end.
#[inline(always)]
pub fn write_before(number: u64, bytes: &mut [u8], end: usize)
    requires room { length (decimal number) ≤ end }
    requires within { end ≤ length bytes.old }
    ensures { take end bytes.new ≡ take (end - length (decimal number)) bytes.old ++ decimal number }
{
    write_digits(number, bytes, end);
}
