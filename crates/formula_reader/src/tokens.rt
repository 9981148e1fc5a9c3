ghost use Rattle.calc_model.specs.Field.{error_constants};
ghost use Rattle.calc_model.specs.ValueTexts.{fault_text};
ghost use Rattle.calc_model.specs.declared.fault.Fault.{Fault};
ghost use Rattle.formula_reader.specs.Leaves.{behind_quote, error_at, number_at, operand_at, string_at, text_behind, token_by, token_taken, unquoted};
ghost use Rattle.formula_reader.specs.Unread.{Gives, Makes, unread_of};
ghost use Rattle.std.specs.List.{find, starts_with};
ghost use Rattle.std.specs.Prelude.{false, length, nat_eq, option_map, ◌≡◌, ◌≤◌};

use crate::constant::ERROR_CONSTANTS;
use crate::cursor::{Cursor, Stop};
use crate::references::reference;
use byte_cuts::split_once;
use calc_model::{Fault, Text, Tree};
use calc_num::{Num, Reading, unsigned_len};
use sqlite_items::Boxed;
use std::alloc::Global;

/// The byte before and behind a text, which is doubled inside it.
const QUOTE: u8 = b'"';

/// Takes an operand of one token: a number, a text in quotes, a reference in brackets, or an error
/// constant. Linear in the token.
pub(crate) fn operand(alloc: Global, cursor: &mut Cursor<'_>) -> Result<Boxed<Tree>, Stop>
    ensures { Gives result cursor.new (token_by operand_at (unread_of cursor.old)) }
{
    match cursor.bytes {
        [QUOTE, rest @ ..] => string(alloc, rest, cursor),
        [b'[', rest @ ..] => reference(alloc, rest, cursor),
        [b'#', ..] => error_constant(alloc, cursor),
        [b'0'..=b'9' | b'.', ..] => number(alloc, cursor),
        _ => Err(Stop::Unspelled),
    }
}

/// A number, which is the error `#OVER!` where it is too large.
fn number(alloc: Global, cursor: &mut Cursor<'_>) -> Result<Boxed<Tree>, Stop>
    ensures { Gives result cursor.new (token_by number_at (unread_of cursor.old)) }
{
    let (number, rest) = cursor.bytes.split_at(unsigned_len(cursor.bytes));
    cursor.past(rest)?;
    match Num::read(number) {
        Reading::Number(number) => Ok(Boxed::new(alloc, Tree::Number(number))?),
        Reading::TooLarge => Ok(Boxed::new(alloc, Tree::Bad(Fault::Over))?),
        Reading::NotNumber => Err(Stop::Unspelled),
    }
}

/// A text in quotes, behind its first quote.
#[cold]
#[inline(never)]
fn string<'a>(alloc: Global, bytes: &'a [u8], cursor: &mut Cursor<'a>) -> Result<Boxed<Tree>, Stop>
    ensures { Gives result cursor.new (token_taken cursor.old.tokens (string_at bytes.now)) }
{
    let (text, rest) = unquoted(alloc, bytes)?;
    cursor.past(rest)?;
    match String::from_utf8(text) {
        Ok(text) => Ok(Boxed::new(alloc, Tree::Words(Text::of(text)))?),
        Err(_) => Err(Stop::Unspelled),
    }
}

/// The text up to the first quote that isn't doubled, run by run up to each quote, and what stands
/// behind that quote.
fn unquoted(alloc: Global, bytes: &[u8]) -> Result<(Vec<u8>, &[u8]), Stop>
    ensures { Makes text_behind result (unquoted false bytes.now) }
{
    let mut text = Vec::new(alloc);
    let mut left = bytes;
    while let Some((run, rest)) = split_once(left, QUOTE) {
        text.extend_from_slice(run)?;
        match behind_quote(rest) {
            Some(more) => {
                text.push(QUOTE)?;
                left = more;
            }
            None => return Ok((text, rest)),
        }
    }
    Err(Stop::Unspelled)
}

/// What stands behind a quote that is next.
fn behind_quote(bytes: &[u8]) -> Option<&[u8]>
    ensures { option_map (λ rest. rest.now) result ≡ behind_quote bytes.now }
{
    match bytes {
        [QUOTE, rest @ ..] => Some(rest),
        _ => None,
    }
}

/// An error constant.
#[cold]
#[inline(never)]
fn error_constant(alloc: Global, cursor: &mut Cursor<'_>) -> Result<Boxed<Tree>, Stop>
    ensures { Gives result cursor.new (token_by error_at (unread_of cursor.old)) }
{
    match error_in_front(cursor.bytes) {
        Some(fault) => {
            cursor.past(&cursor.bytes[fault.text().len()..])?;
            Ok(Boxed::new(alloc, Tree::Bad(fault))?)
        }
        None => Err(Stop::Unspelled),
    }
}

fn error_in_front(bytes: &[u8]) -> Option<Fault>
    ensures fault { result
        ≡ find (λ fault. starts_with nat_eq bytes.now (fault_text fault)) error_constants }
    ensures within { (fault : Fault) → result ≡ Some fault
        → length (fault_text fault) ≤ length bytes.now }
{
    ERROR_CONSTANTS
        .iter()
        .copied()
        .find(|fault| bytes.starts_with(fault.text().as_bytes()))
}
