ghost use Rattle.std.specs.Prelude.{◌≡◌, ◌^◌, ◌<◌, pos, neg_ℤ, ◌+ℤ◌, ◌-ℤ◌, ◌↔◌, IsSome, IfSome, int_lt, unsigned_abs};
ghost use Rattle.calc_num.specs.Decimals.{IsRaw, checked, with_sign};

use std::marker::Model;

/// The raw number of 1.
pub(crate) const ONE: u64 = 1_000_000_000;
/// The first size that is out of range.
pub(crate) const LIMIT: u128 = 1_000_000_000_000_000_000_000_000_000;
/// The greatest raw number.
const MOST: i128 = LIMIT as i128 - 1;

/// A decimal number. Contracts see its raw number n, which stands for n / 10^9.
#[derive(Clone, Copy, Debug, PartialEq, Eq)]
pub struct Num {
    raw: i128,
}

impl Model for Num {
    ghost use Rattle.std.specs.Prelude.{ℤ};
    ghost use Rattle.calc_num.specs.Decimals.{IsRaw};

    ghost Value = { ℤ };

    ghost view = { λ n. n.raw };

    ghost invariant = { λ n. IsRaw n.raw };

    ghost inverse = { λ z. record { raw = z } };
}

/// Why an operation has no number as its result.
#[derive(Clone, Copy, Debug, PartialEq, Eq)]
pub enum NumFault {
    /// The result is out of range.
    Over,
    /// The divisor is zero.
    DivZero,
    /// The operation has no result at this operand.
    NotNum,
}

impl Default for Num {
    ghost use Rattle.std.specs.Prelude.{◌≡◌, pos};

    ghost is_default = { λ n. n ≡ pos 0 };

    /// Zero.
    fn default() -> Num {
        Num { raw: 0 }
    }
}

impl Num {
    /// The number of n billionths, or None where the size of n is 10^27 or more.
    pub fn from_raw(n: i128) -> Option<Num>
        ensures in_range { IsSome result ↔ IsRaw n }
        ensures value { IfSome result (λ num. num ≡ n) }
    {
        if -MOST <= n && n <= MOST {
            Some(Num { raw: n })
        } else {
            None
        }
    }

    /// The raw number: how many billionths the number has.
    pub fn raw(self) -> i128
        ensures value { result ≡ self }
        ensures in_range { IsRaw result }
    {
        self.raw
    }

    /// The size of the raw number.
    pub(crate) fn size(self) -> u128
        ensures value { result ≡ unsigned_abs self }
        ensures small { result < 10 ^ 27 }
    {
        self.raw.unsigned_abs()
    }

    /// Whether the number is below zero.
    pub(crate) fn is_negative(self) -> bool
        ensures { result ≡ int_lt self (pos 0) }
    {
        self.raw < 0
    }

    /// The number with this raw size, or its negative.
    pub(crate) fn from_size(negative: bool, size: u128) -> Num
        requires { size < 10 ^ 27 }
        ensures { result ≡ with_sign negative size }
    {
        let raw = size as i128;
        Num {
            raw: if negative { -raw } else { raw },
        }
    }

    /// The number with this raw size, or its negative, if that is in range.
    pub(crate) fn from_any_size(negative: bool, size: u128) -> Result<Num, NumFault>
        ensures { result ≡ checked (with_sign negative size) }
    {
        if size < LIMIT {
            Ok(Num::from_size(negative, size))
        } else {
            Err(NumFault::Over)
        }
    }

    /// The sum, which is exact. Its one fault is `Over`.
    pub fn add(self, other: Num) -> Result<Num, NumFault>
        ensures { result ≡ checked (self +ℤ other) }
    {
        Num::from_raw(self.raw + other.raw).ok_or(NumFault::Over)
    }

    /// The difference, which is exact. Its one fault is `Over`.
    pub fn sub(self, other: Num) -> Result<Num, NumFault>
        ensures { result ≡ checked (self -ℤ other) }
    {
        Num::from_raw(self.raw - other.raw).ok_or(NumFault::Over)
    }

    /// The negative, which is always in range.
    pub fn neg(self) -> Num
        ensures { result ≡ neg_ℤ self }
    {
        Num { raw: -self.raw }
    }
}
