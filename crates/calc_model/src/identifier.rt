ghost use Rattle.std.specs.Prelude.{◌≡◌};
ghost use Rattle.std.specs.List.{list_all};
ghost use Rattle.std.specs.Str.{is_utf8};
ghost use Rattle.calc_model.specs.Tokens.{begins_identifier, has_identifier_bytes, is_identifier, is_in_identifier, is_name};

use calc_addr::{Spelled, read_address};
use std::str;

/// The most bytes of an identifier.
const MOST_BYTES: usize = 255;

/// Whether the text is a name as formulas and scripts spell one: an identifier that isn't the address of
/// a cell in the sheet. Linear in the text.
pub fn is_name(text: &[u8]) -> bool
    ensures { result ≡ is_name text.now }
{
    is_identifier(text) && !matches!(read_address(text), Spelled::Is(_))
}

/// Whether the text is an identifier: a letter, `_` or a character past ASCII, then any number of these,
/// digits and points, in at most 255 bytes. Linear in the text.
pub fn is_identifier(text: &[u8]) -> bool
    ensures { result ≡ is_identifier text.now }
{
    has_identifier_bytes(text) && text.len() <= MOST_BYTES && is_utf8(text)
}

/// Whether the bytes are those of a text. Linear in them.
pub fn is_utf8(bytes: &[u8]) -> bool
    ensures { result ≡ is_utf8 bytes.now }
{
    match str::from_utf8(bytes) {
        Ok(_) => true,
        Err(_) => false,
    }
}

fn has_identifier_bytes(text: &[u8]) -> bool
    ensures { result ≡ has_identifier_bytes text.now }
{
    match text.split_first() {
        Some((first, rest)) => begins_identifier(*first) && are_in_identifier(rest),
        None => false,
    }
}

fn are_in_identifier(bytes: &[u8]) -> bool
    ensures { result ≡ list_all is_in_identifier bytes.now }
{
    bytes.iter().all(|byte| is_in_identifier(*byte))
}

/// Whether an identifier may begin with the byte.
pub fn begins_identifier(byte: u8) -> bool
    ensures { result ≡ begins_identifier byte }
{
    byte.is_ascii_alphabetic() || byte == b'_' || byte > 127
}

/// Whether the byte may stand in an identifier behind its first.
pub fn is_in_identifier(byte: u8) -> bool
    ensures { result ≡ is_in_identifier byte }
{
    begins_identifier(byte) || byte.is_ascii_digit() || byte == b'.'
}
