ghost use Rattle.formula_reader.specs.Unread.{Makes};
ghost use Rattle.formula_reader.specs.Reading.{behind_equals, behind_front, comparison_in_limits, formula_of};
ghost use Rattle.std.specs.Prelude.{option_map, ◌≡◌};

use crate::cursor::{Cursor, Stop, skip};
use crate::operands::{COMPARISON, operands};
use calc_model::{MOST_FORMULA_BYTES, MOST_OPEN, MOST_TOKENS, Tree};
use sqlite_items::Boxed;
use std::alloc::Global;

/// The formula that a text spells: the front `=`, `==`, `of:=` or `of:==`, and a
/// comparison after OpenFormula's expression syntax. All infix operators associate to the left, prefix
/// operators bind the tightest, then `%`, `^`, `*` and `/`, `+` and `-`, `&` and the comparisons. A text
/// of more than 8,192 bytes spells none, nor does one with more than 1,024 tokens, 64 parentheses open
/// at one point or 30 parameters of a call. Linear in the text; the stack grows with open parentheses
/// alone.
#[tactic(auto, unfolding(crate::specs::Reading::formula_of))]
pub(crate) fn read_formula(alloc: Global, text: &[u8]) -> Result<Boxed<Tree>, Stop>
    ensures { Makes (λ tree. tree) result (formula_of text.now) }
{
    if text.len() > MOST_FORMULA_BYTES {
        return Err(Stop::Unspelled);
    }
    match behind_front(text) {
        Some(bytes) => read_comparison(alloc, bytes),
        None => Err(Stop::Unspelled),
    }
}

/// A comparison that is all of these bytes.
fn read_comparison(alloc: Global, bytes: &[u8]) -> Result<Boxed<Tree>, Stop>
    ensures { Makes (λ tree. tree) result (comparison_in_limits bytes.now) }
{
    let mut cursor = Cursor {
        bytes: skip(bytes),
        tokens: MOST_TOKENS,
    };
    let tree = operands(alloc, MOST_OPEN, COMPARISON, &mut cursor)?;
    if cursor.bytes.is_empty() {
        Ok(tree)
    } else {
        Err(Stop::Unspelled)
    }
}

/// What stands behind a formula's front: `=`, `==`, `of:=` or `of:==`.
fn behind_front(text: &[u8]) -> Option<&[u8]>
    ensures { option_map (λ rest. rest.now) result ≡ behind_front text.now }
{
    behind_equals(text.strip_prefix(b"of:").unwrap_or(text))
}

fn behind_equals(text: &[u8]) -> Option<&[u8]>
    ensures { option_map (λ rest. rest.now) result ≡ behind_equals text.now }
{
    match text {
        [b'=', b'=', rest @ ..] => Some(rest),
        [b'=', rest @ ..] => Some(rest),
        _ => None,
    }
}
