//! Exponential lengths by whole numbers.
//!
//! Minus the logarithm of a number drawn evenly from 0 to 1 is exponential. The number is a power of a half times a mantissa
//! from 1 to 2. The exponent is one more than the zeros that one word begins with; another word gives the mantissa. So minus the
//! logarithm to base 2 is the exponent less the logarithm of the mantissa. The binary digits of the mantissa's logarithm come
//! one by one: the mantissa is squared, and the digit is 1 if the square passes 2; then the square is halved.
ghost use Rattle.std.specs.Prelude.{◌≡◌, ◌≤◌, ◌<◌, ◌*◌, ◌^◌};
ghost use Rattle.bq_workload.specs.Lengths.{longest};
ghost use Rattle.bq_workload.specs.Draws.{exponential, fraction, logarithm, digit, squared};

use crate::limits::LONGEST;

/// The number of binary digits of a logarithm that are computed.
const DIGITS: u32 = 32;

/// The natural logarithm of 2, as a number of 2^32.
const LOGARITHM_OF_TWO: u128 = 2_977_044_472;

/// An exponential length of this mean, by two words: at least 1, and no longer than there are lengths.
pub fn exponential(mean: u64, first: u64, second: u64) -> u64
    requires { mean ≤ longest }
    ensures value { result ≡ exponential mean first second }
    ensures least { 1 ≤ result }
    ensures greatest { result ≤ longest }
{
    let times = u128::from(logarithm(first, second)) * LOGARITHM_OF_TWO;
    let length = (times * u128::from(mean)) >> 64;
    length.max(1).min(u128::from(LONGEST)) as u64
}

/// Minus the logarithm to base 2 of a number from 0 to 1, by two words, as a number of 2^32.
fn logarithm(first: u64, second: u64) -> u64
    ensures value { result ≡ logarithm first second }
    ensures high { result ≤ 65 * 2 ^ 32 }
{
    let power = u64::from(first.leading_zeros()) + 1;
    (power << DIGITS) - fraction((1 << 63) + second / 2)
}

/// The binary digits of the logarithm to base 2 of a mantissa, which counts by 2^63 and is from 1 to 2.
fn fraction(mantissa: u64) -> u64
    requires { 2 ^ 63 ≤ mantissa }
    ensures value { result ≡ fraction 32 0 mantissa }
    ensures high { result < 2 ^ 32 }
{
    let mut rest = mantissa;
    let mut digits = 0;
    let mut left = DIGITS;
    'digits: while left > 0 {
        left -= 1;
        let (digit, next) = squared(rest);
        digits = 2 * digits + digit;
        rest = next;
    }
    digits
}

/// The next binary digit of the logarithm of a mantissa, and the mantissa for those that follow.
fn squared(mantissa: u64) -> (u64, u64)
    requires { 2 ^ 63 ≤ mantissa }
    ensures digit { result.0 ≡ digit mantissa }
    ensures rest { result.1 ≡ squared mantissa }
    ensures small { result.0 ≤ 1 }
    ensures low { 2 ^ 63 ≤ result.1 }
{
    let square = u128::from(mantissa) * u128::from(mantissa);
    if square < 1 << 127 {
        (0, (square >> 63) as u64)
    } else {
        (1, (square >> 64) as u64)
    }
}
