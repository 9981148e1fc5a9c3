//! The printed text of a number.
ghost use Rattle.std.specs.Prelude.{◌≡◌, ◌+◌, ◌-◌, ◌==◌, ◌^◌, ◌<◌, ◌≤◌, length, slice_range};
ghost use Rattle.std.specs.List.{suffix_len};
ghost use Rattle.calc_num.specs.declared.parse.Reading.TheVariants.{Number};
ghost use Rattle.calc_num.specs.Spelling.{reading};
ghost use Rattle.calc_num.specs.Numbers.{printed, printed_size, printed_fraction};

use crate::num::{Num, ONE};
use crate::split::split;
use itoa::write_digits;
use std::marker::Model;

/// The longest text has a sign, 18 digits, a point and nine digits.
const LEN: usize = 29;
/// Where the point of a text stands.
const POINT: usize = 19;

/// The printed text of a number, without an allocation. Contracts see its bytes.
#[derive(Debug, Drop)]
pub struct NumText {
    bytes: [u8; LEN],
    start: usize,
    end: usize,
}

impl Model for NumText {
    ghost use Rattle.std.specs.Prelude.{◌≤◌, ℕ, List, slice_range};

    ghost Value = { List ℕ };

    ghost view = { λ t. slice_range t.bytes t.start t.end };

    ghost invariant = { λ t. (t.start ≤ t.end) × (t.end ≤ 29) };
}

impl NumText {
    /// The text's bytes, at most 29.
    pub fn bytes(&self) -> &[u8]
        ensures value { result.now ≡ self.now }
        ensures short { length result.now ≤ 29 }
    {
        &self.bytes[self.start..self.end]
    }
}

/// How many digits stand before the zeros at the end.
fn count_before_zeros(digits: &[u8]) -> usize
    ensures { result + suffix_len (λ digit. digit == 48) digits.now ≡ length digits.now }
{
    let mut count = digits.len();
    while count > 0 && digits[count - 1] == b'0' {
        count -= 1;
    }
    count
}

/// Puts the text of a fraction in billionths behind the point, and says where it ends.
fn put_fraction(bytes: &mut [u8], billionths: u64) -> usize
    requires size { length bytes.old ≡ 29 }
    requires fraction { billionths < 10 ^ 9 }
    ensures end { (19 ≤ result) × (result ≤ 29) }
    ensures written { slice_range bytes.new 19 result ≡ printed_fraction billionths }
{
    if billionths == 0 {
        return POINT;
    }
    write_digits(ONE + billionths, bytes, LEN);
    bytes[POINT] = b'.';
    POINT + 1 + count_before_zeros(&bytes[POINT + 1..])
}

/// Puts the text of a size in billionths round the point, and says where it starts and ends.
fn put_size(bytes: &mut [u8], size: u128) -> (usize, usize)
    requires room { length bytes.old ≡ 29 }
    requires small { size < 10 ^ 27 }
    ensures start { (1 ≤ result.0) × (result.0 ≤ result.1) }
    ensures end { result.1 ≤ 29 }
    ensures written { slice_range bytes.new result.0 result.1 ≡ printed_size size }
{
    let (whole, billionths) = split(size);
    let end = put_fraction(bytes, billionths);
    let start = write_digits(whole, bytes, POINT);
    (start, end)
}

impl Num {
    /// The printed text: `-` where the number is negative, the whole part with at least one digit,
    /// and a point and the fraction's digits, without the zeros at their end, where it has one.
    // Inlined, since its caller would copy the text.
    #[inline(always)]
    pub fn write(self) -> NumText
        ensures value { result ≡ printed self }
        ensures short { length result ≤ 29 }
        ensures read_back { reading result ≡ Number self }
    {
        let raw = self.raw();
        let mut text = NumText {
            bytes: [b'0'; LEN],
            start: POINT,
            end: POINT,
        };
        let (start, end) = put_size(&mut text.bytes, raw.unsigned_abs());
        text.start = start;
        text.end = end;
        if raw >= 0 {
            return text;
        }
        text.start = start - 1;
        text.bytes[start - 1] = b'-';
        text
    }
}
