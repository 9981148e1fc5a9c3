//! Quotients and what is left, in 64 bits wherever the numbers fit.
ghost use Rattle.std.specs.Prelude.{◌≡◌, ◌/◌, ◌%◌, ◌^◌, ◌<◌, ◌≤◌};

use crate::num::ONE;

/// A size past 64 bits is divided in two steps, without its last 32 bits and then with them.
const HALF_WORD: u64 = 1 << 32;

/// The quotient by a small divisor and what is left, without a division of 128 bits.
#[inline(always)]
pub(crate) fn divide_small(size: u128, divisor: u64) -> (u128, u64)
    requires size { size < 10 ^ 28 }
    requires divisor { (0 < divisor) × (divisor ≤ 10 ^ 9) }
    ensures quotient { result.0 ≡ size / divisor }
    ensures rest { result.1 ≡ size % divisor }
{
    if size <= u64::MAX as u128 {
        let size = size as u64;
        return ((size / divisor) as u128, size % divisor);
    }
    let front = (size / HALF_WORD as u128) as u64;
    let last = (size % HALF_WORD as u128) as u64;
    let rest = front % divisor * HALF_WORD + last;
    let quotient = (front / divisor) as u128 * HALF_WORD as u128 + (rest / divisor) as u128;
    (quotient, rest % divisor)
}

/// The whole part of a size, and its fraction in billionths.
pub(crate) fn split(size: u128) -> (u64, u64)
    requires { size < 10 ^ 27 }
    ensures whole { result.0 ≡ size / 10 ^ 9 }
    ensures billionths { result.1 ≡ size % 10 ^ 9 }
{
    let (whole, billionths) = divide_small(size, ONE);
    (whole as u64, billionths)
}

/// The quotient and what is left.
pub(crate) fn divide(size: u128, divisor: u128) -> (u128, u128)
    requires { 0 < divisor }
    ensures quotient { result.0 ≡ size / divisor }
    ensures rest { result.1 ≡ size % divisor }
{
    if size <= u64::MAX as u128 && divisor <= u64::MAX as u128 {
        let (size, divisor) = (size as u64, divisor as u64);
        return ((size / divisor) as u128, (size % divisor) as u128);
    }
    (size / divisor, size % divisor)
}
