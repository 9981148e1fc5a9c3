ghost use Rattle.formula_reader.specs.Operands.{args_at, attached, comparison_of, inside_of, operands_at, prefixed_at, primary_at, start_of, word_at};
ghost use Rattle.formula_reader.specs.Unread.{Gives, unread_of};
ghost use Rattle.std.specs.Prelude.{IfOk, [], ◌∷◌, ◌≡◌};

use crate::cursor::{Cursor, Stop};
use crate::operators::{Operator, infix_level, take_operator};
use crate::signs::{sign_in_front, signed, take_signs};
use crate::tokens::operand;
use crate::words::{capitals, name, split_word};
use calc_addr::NoMemory;
use calc_model::{MOST_PARAMETERS, Tree, begins_identifier, is_identifier};
use sqlite_items::{Boxed, Items};
use std::alloc::Global;

/// The level of comparisons, which bind the least.
pub(crate) const COMPARISON: u8 = 6;

/// How many parameters a call has room for at first, where it has more than one.
const FEW_PARAMETERS: usize = 4;

/// A comparison inside a parenthesis, where so many may be opened with it.
#[cycle(reading)]
#[tactic(auto, unfolding(crate::specs::Operands::comparison_at))]
pub(crate) fn comparison(
    alloc: Global,
    depth: u8,
    cursor: &mut Cursor<'_>,
) -> Result<Boxed<Tree>, Stop>
    ensures { Gives result cursor.new (comparison_of depth (unread_of cursor.old)) }
{
    if depth == 0 {
        return Err(Stop::Unspelled);
    }
    operands(alloc, depth - 1, COMPARISON, cursor)
}

/// An operand, and the operators up to the level behind it, where so many parentheses may be opened. An
/// operator's right operand goes up to the next tighter level, so that operators bind to the left. Linear
/// in what is read; the stack grows with open parentheses alone.
#[cycle(reading)]
pub(crate) fn operands(
    alloc: Global,
    depth: u8,
    level: u8,
    cursor: &mut Cursor<'_>,
) -> Result<Boxed<Tree>, Stop>
    ensures { Gives result cursor.new (operands_at (inside_of depth) level (unread_of cursor.old)) }
{
    let mut tree = prefixed(alloc, depth, cursor)?;
    for _ in 0..cursor.tokens {
        match take_operator(level, cursor)? {
            None => return Ok(tree),
            Some(operator) => tree = attach(alloc, depth, operator, tree, cursor)?,
        }
    }
    Ok(tree)
}

/// A tree with an operator behind it, and with the right operand of an infix one.
#[cycle(reading)]
fn attach(
    alloc: Global,
    depth: u8,
    operator: Operator,
    left: Boxed<Tree>,
    cursor: &mut Cursor<'_>,
) -> Result<Boxed<Tree>, Stop>
    ensures { Gives result cursor.new
        (attached (operands_at (inside_of depth)) operator left (unread_of cursor.old)) }
{
    match operator {
        Operator::Percent => Ok(Boxed::new(alloc, Tree::Percent(left))?),
        Operator::Infix(op) => {
            let right = operands(alloc, depth, infix_level(op) - 1, cursor)?;
            Ok(Boxed::new(alloc, Tree::Binary { op, left, right })?)
        }
    }
}

/// A primary, or prefix operators and the primary behind them.
#[cycle(reading)]
fn prefixed(alloc: Global, depth: u8, cursor: &mut Cursor<'_>) -> Result<Boxed<Tree>, Stop>
    ensures { Gives result cursor.new (prefixed_at (inside_of depth) (unread_of cursor.old)) }
{
    match sign_in_front(cursor.bytes) {
        None => primary(alloc, depth, cursor),
        Some(_) => signed_primary(alloc, depth, cursor),
    }
}

/// Prefix operators and the primary behind them. The operators are taken first, so that any number of
/// them takes no stack.
#[cycle(reading)]
#[inline(never)]
fn signed_primary(alloc: Global, depth: u8, cursor: &mut Cursor<'_>) -> Result<Boxed<Tree>, Stop>
    ensures { Gives result cursor.new (prefixed_at (inside_of depth) (unread_of cursor.old)) }
{
    let signs = take_signs(alloc, cursor)?;
    let tree = primary(alloc, depth, cursor)?;
    Ok(signed(alloc, signs, tree)?)
}

/// What begins a primary.
#[derive(Clone, Copy)]
enum Start {
    Parenthesis,
    Word,
    Operand,
}

fn start_of(bytes: &[u8]) -> Start
    ensures { result ≡ start_of bytes.now }
{
    match bytes {
        [b'(', ..] => Start::Parenthesis,
        [byte, ..] if begins_identifier(*byte) => Start::Word,
        _ => Start::Operand,
    }
}

#[cycle(reading)]
#[inline(always)]
#[tactic(auto, unfolding(crate::specs::Operands::primary_at))]
fn primary(alloc: Global, depth: u8, cursor: &mut Cursor<'_>) -> Result<Boxed<Tree>, Stop>
    ensures { Gives result cursor.new (primary_at (inside_of depth) (unread_of cursor.old)) }
{
    match start_of(cursor.bytes) {
        Start::Parenthesis => {
            cursor.token(b'(')?;
            let tree = comparison(alloc, depth, cursor)?;
            cursor.token(b')')?;
            Ok(Boxed::new(alloc, Tree::Paren(tree))?)
        }
        Start::Word => word(alloc, depth, cursor),
        Start::Operand => operand(alloc, cursor),
    }
}

/// A word with a parenthesis behind it is a call, and another one a name.
#[cycle(reading)]
#[tactic(auto, unfolding(crate::specs::Operands::word_behind))]
fn word(alloc: Global, depth: u8, cursor: &mut Cursor<'_>) -> Result<Boxed<Tree>, Stop>
    ensures { Gives result cursor.new (word_at (inside_of depth) (unread_of cursor.old)) }
{
    let (word, rest) = split_word(cursor.bytes);
    cursor.past(rest)?;
    if !cursor.next_is(b'(') {
        return name(alloc, word);
    }
    if depth == 0 || !is_identifier(word) {
        return Err(Stop::Unspelled);
    }
    cursor.token(b'(')?;
    let args = arguments(alloc, depth, cursor)?;
    cursor.token(b')')?;
    let name = capitals(alloc, word)?;
    Ok(Boxed::new(alloc, Tree::Call { name, args })?)
}

/// The parameters of a call, behind its parenthesis.
#[cycle(reading)]
#[tactic(auto, unfolding(crate::specs::Operands::args_at))]
fn arguments(alloc: Global, depth: u8, cursor: &mut Cursor<'_>) -> Result<Items<Tree>, Stop>
    ensures { Gives result cursor.new (args_at (inside_of depth) (unread_of cursor.old)) }
{
    if cursor.next_is(b')') {
        return Ok(Items::new(alloc));
    }
    let first = comparison(alloc, depth, cursor)?;
    let mut args = first_argument(alloc, first, cursor.next_is(b';'))?;
    for _ in 1..MOST_PARAMETERS {
        if !cursor.next_is(b';') {
            return Ok(args);
        }
        cursor.token(b';')?;
        args.push(comparison(alloc, depth, cursor)?.into_inner())?;
    }
    Ok(args)
}

/// The first parameter of a call, with room for no other one unless more come.
fn first_argument(
    alloc: Global,
    first: Boxed<Tree>,
    more_come: bool,
) -> Result<Items<Tree>, NoMemory>
    ensures { IfOk result (λ args. args ≡ first ∷ []) }
{
    let mut args = Vec::with_capacity(alloc, if more_come { FEW_PARAMETERS } else { 1 })?;
    args.push(first.into_inner())?;
    Ok(Items::from_vec(args))
}
