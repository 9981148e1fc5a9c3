//! Products and quotients, each rounded once to nine places.
ghost use Rattle.std.specs.Prelude.{◌≡◌, ◌+◌, ◌*◌, ◌^◌, ◌<◌, ◌≤◌, min};
ghost use Rattle.calc_num.specs.Decimals.{rounded, mul, div, percent};

use crate::num::{LIMIT, Num, NumFault, ONE};
use crate::split::{divide_small, split};

/// Half of the raw number of 1.
const HALF: u64 = ONE / 2;
/// Sizes up to this one are multiplied in one step.
const SMALL: u128 = 1 << 63;
/// The raw number of 0.0001.
const TICK: u64 = 100_000;
/// How many of those make 1.
const TICKS: u64 = ONE / TICK;
/// Sizes up to this one are divided in one step, by a divisor of at most four places.
const SHORT: u64 = 900_000 * ONE;

/// The size of a product of two small sizes.
#[tactic(auto, using(crate::proofs::Arithmetic::Products::product_parted))]
fn small_product(a: u64, b: u64) -> u128
    requires first { a ≤ 2 ^ 63 }
    requires second { b ≤ 2 ^ 63 }
    ensures { result ≡ rounded (a * b) (10 ^ 9) }
{
    let rest = a % ONE;
    let rest = rest * (b / ONE) + (rest * (b % ONE) + HALF) / ONE;
    (a / ONE) as u128 * b as u128 + rest as u128
}

/// The size of a product, or the limit where it is as large as that.
#[tactic(auto, using(crate::proofs::Arithmetic::Products::product_large, crate::proofs::Arithmetic::Products::product_in_four))]
fn rounded_product(a: u128, b: u128) -> u128
    requires first { a < 10 ^ 27 }
    requires second { b < 10 ^ 27 }
    ensures { result ≡ min (rounded (a * b) (10 ^ 9)) (10 ^ 27) }
{
    if a <= SMALL && b <= SMALL {
        return small_product(a as u64, b as u64).min(LIMIT);
    }
    let (a_whole, a_rest) = split(a);
    let (b_whole, b_rest) = split(b);
    let wholes = a_whole as u128 * b_whole as u128;
    if wholes >= LIMIT / ONE as u128 {
        return LIMIT;
    }
    let crossed = a_whole as u128 * b_rest as u128 + a_rest as u128 * b_whole as u128;
    let rest = (a_rest * b_rest + HALF) / ONE;
    (wholes * ONE as u128 + crossed + rest as u128).min(LIMIT)
}

/// The size of a quotient whose divisor is counted in ten thousandths.
fn short_quotient(a: u64, b: u64) -> u64
    requires dividend { a ≤ 9 * 10 ^ 14 }
    requires divisor { (0 < b) × (b ≤ 10 ^ 14) }
    ensures { result ≡ rounded (a * 10 ^ 4) b }
{
    (2 * (a * TICKS) + b) / (2 * b)
}

/// The size of a quotient, or the limit where it is as large as that.
fn rounded_quotient(a: u128, b: u128) -> u128
    requires dividend { a < 10 ^ 27 }
    requires divisor { (0 < b) × (b < 10 ^ 27) }
    ensures { result ≡ min (rounded (a * 10 ^ 9) b) (10 ^ 27) }
{
    if a <= SHORT as u128 && b <= SMALL && b as u64 % TICK == 0 {
        return short_quotient(a as u64, b as u64 / TICK) as u128;
    }
    ((2 * (a * ONE as u128) + b) / (2 * b)).min(LIMIT)
}

impl Num {
    /// The product, rounded once. Its one fault is `Over`.
    pub fn mul(self, other: Num) -> Result<Num, NumFault>
        ensures { result ≡ mul self other }
    {
        let size = rounded_product(self.size(), other.size());
        Num::from_any_size(self.is_negative() != other.is_negative(), size)
    }

    /// The quotient, rounded once. A divisor of zero is `DivZero`; its other fault is `Over`.
    #[tactic(auto, using(crate::proofs::Arithmetic::Products::div_of_sizes))]
    pub fn div(self, other: Num) -> Result<Num, NumFault>
        ensures { result ≡ div self other }
    {
        if other.size() == 0 {
            return Err(NumFault::DivZero);
        }
        let size = rounded_quotient(self.size(), other.size());
        Num::from_any_size(self.is_negative() != other.is_negative(), size)
    }

    /// A hundredth, rounded once. It is always in range.
    pub fn percent(self) -> Num
        ensures { result ≡ percent self }
    {
        Num::from_size(self.is_negative(), divide_small(self.size() + 50, 100).0)
    }
}
