//! The end of a number that a longer text begins with.
ghost use Rattle.calc_num.specs.Fronts.{behind_exponent, unsigned_len};
ghost use Rattle.std.specs.Prelude.{length, ◌≡◌, ◌≤◌};

use crate::parse::{split_digits, split_fraction, split_sign};

/// How many bytes in front of a text an unsigned number takes: digits, a point with the digits behind
/// it, and an exponent, each where it stands there. These bytes need be no number, as `.` or `1e`.
/// Linear in them.
pub fn unsigned_len(text: &[u8]) -> usize
    ensures value { result ≡ unsigned_len text.now }
    ensures within { result ≤ length text.now }
{
    let (_, rest) = split_digits(text);
    let (_, rest) = split_fraction(rest);
    text.len().saturating_sub(behind_exponent(rest).len())
}

/// What stands behind an exponent that a text begins with.
fn behind_exponent(text: &[u8]) -> &[u8]
    ensures { result.now ≡ behind_exponent text.now }
{
    match text {
        [b'e' | b'E', rest @ ..] => {
            let (_, digits) = split_sign(rest);
            split_digits(digits).1
        }
        _ => text,
    }
}
