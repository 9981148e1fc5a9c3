ghost use Rattle.formula_reader.specs.Signs.{sign_at, sign_taken, signed, signed_by};
ghost use Rattle.formula_reader.specs.Operands.{TakesSigns};
ghost use Rattle.formula_reader.specs.Unread.{Gives, unread_of};
ghost use Rattle.std.specs.Prelude.{IfOk, option_map, ◌≡◌};

use crate::cursor::{Cursor, Stop};
use calc_addr::NoMemory;
use calc_model::Tree;
use sqlite_items::Boxed;
use std::alloc::Global;

/// A prefix operator.
#[derive(Clone, Copy)]
pub(crate) enum Sign {
    Plus,
    Minus,
}

/// Takes the sign in front, if there is one.
#[tactic(auto, unfolding(crate::specs::Signs::sign_taken))]
fn take_sign(cursor: &mut Cursor<'_>) -> Result<Option<Sign>, Stop>
    ensures { Gives result cursor.new (sign_taken (unread_of cursor.old)) }
{
    match sign_in_front(cursor.bytes) {
        Some((sign, rest)) => {
            cursor.past(rest)?;
            Ok(Some(sign))
        }
        None => Ok(None),
    }
}

/// The sign at the front, and what stands behind it.
pub(crate) fn sign_in_front(bytes: &[u8]) -> Option<(Sign, &[u8])>
    ensures { option_map (λ found. (found.0, found.1.now)) result ≡ sign_at bytes.now }
{
    match bytes {
        [b'+', rest @ ..] => Some((Sign::Plus, rest)),
        [b'-', rest @ ..] => Some((Sign::Minus, rest)),
        _ => None,
    }
}

/// Takes all signs in front.
pub(crate) fn take_signs(alloc: Global, cursor: &mut Cursor<'_>) -> Result<Vec<Sign>, Stop>
    ensures { TakesSigns result cursor.old cursor.new }
{
    let mut signs = Vec::new(alloc);
    while let Some(sign) = take_sign(cursor)? {
        signs.push(sign)?;
    }
    Ok(signs)
}

/// A tree behind signs, of which the last binds it first.
pub(crate) fn signed(
    alloc: Global,
    signs: Vec<Sign>,
    tree: Boxed<Tree>,
) -> Result<Boxed<Tree>, NoMemory>
    ensures { IfOk result (λ made. made ≡ signed signs.items tree) }
{
    let mut signs = signs;
    let mut made = tree;
    while let Some(sign) = signs.pop() {
        made = signed_by(alloc, sign, made)?;
    }
    Ok(made)
}

fn signed_by(alloc: Global, sign: Sign, tree: Boxed<Tree>) -> Result<Boxed<Tree>, NoMemory>
    ensures { IfOk result (λ made. made ≡ signed_by sign tree) }
{
    match sign {
        Sign::Plus => Boxed::new(alloc, Tree::Plus(tree)),
        Sign::Minus => Boxed::new(alloc, Tree::Minus(tree)),
    }
}
