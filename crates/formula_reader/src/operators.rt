ghost use Rattle.calc_model.specs.Grammar.{op_level};
ghost use Rattle.formula_reader.specs.Operators.{greater_at, less_at, level_of, operator_at, operator_taken, single_operator};
ghost use Rattle.formula_reader.specs.Unread.{Gives, unread_of};
ghost use Rattle.std.specs.Prelude.{IfOk, IfSome, option_map, ◌<◌, ◌≡◌, ◌≤◌};

use crate::cursor::{Cursor, Stop};
use calc_model::Op;

/// An operator that stands behind an operand.
#[derive(Clone, Copy)]
pub(crate) enum Operator {
    Percent,
    Infix(Op),
}

/// Takes the operator in front, if there is one and its level is this or tighter.
#[tactic(auto, unfolding(crate::specs::Operators::operator_taken))]
pub(crate) fn take_operator(level: u8, cursor: &mut Cursor<'_>) -> Result<Option<Operator>, Stop>
    ensures taken { Gives result cursor.new (operator_taken level (unread_of cursor.old)) }
    ensures within { IfOk result (λ found. IfSome found (λ operator. level_of operator ≤ level)) }
{
    match operator_in_front(cursor.bytes) {
        Some((operator, rest)) if level_of(operator) <= level => {
            cursor.past(rest)?;
            Ok(Some(operator))
        }
        _ => Ok(None),
    }
}

/// The operator at the front, and what stands behind it.
fn operator_in_front(bytes: &[u8]) -> Option<(Operator, &[u8])>
    ensures { option_map (λ found. (found.0, found.1.now)) result ≡ operator_at bytes.now }
{
    match bytes {
        [] => None,
        [b'<', rest @ ..] => Some(less(rest)),
        [b'>', rest @ ..] => Some(greater(rest)),
        [byte, rest @ ..] => Some((single_operator(*byte)?, rest)),
    }
}

fn less(rest: &[u8]) -> (Operator, &[u8])
    ensures operator { result.0 ≡ (less_at rest.now).0 }
    ensures behind { result.1.now ≡ (less_at rest.now).1 }
{
    match rest {
        [b'>', behind @ ..] => (Operator::Infix(Op::Ne), behind),
        [b'=', behind @ ..] => (Operator::Infix(Op::Le), behind),
        _ => (Operator::Infix(Op::Lt), rest),
    }
}

fn greater(rest: &[u8]) -> (Operator, &[u8])
    ensures operator { result.0 ≡ (greater_at rest.now).0 }
    ensures behind { result.1.now ≡ (greater_at rest.now).1 }
{
    match rest {
        [b'=', behind @ ..] => (Operator::Infix(Op::Ge), behind),
        _ => (Operator::Infix(Op::Gt), rest),
    }
}

fn single_operator(byte: u8) -> Option<Operator>
    ensures { result ≡ single_operator byte }
{
    match byte {
        b'%' => Some(Operator::Percent),
        b'^' => Some(Operator::Infix(Op::Pow)),
        b'*' => Some(Operator::Infix(Op::Mul)),
        b'/' => Some(Operator::Infix(Op::Div)),
        b'+' => Some(Operator::Infix(Op::Add)),
        b'-' => Some(Operator::Infix(Op::Sub)),
        b'&' => Some(Operator::Infix(Op::Cat)),
        b'=' => Some(Operator::Infix(Op::Eq)),
        _ => None,
    }
}

/// The level of an operator: the lower, the tighter it binds.
fn level_of(operator: Operator) -> u8
    ensures { result ≡ level_of operator }
{
    match operator {
        Operator::Percent => 1,
        Operator::Infix(op) => infix_level(op),
    }
}

pub(crate) fn infix_level(op: Op) -> u8
    ensures level { result ≡ op_level op }
    ensures some { 0 < result }
{
    match op {
        Op::Pow => 2,
        Op::Mul | Op::Div => 3,
        Op::Add | Op::Sub => 4,
        Op::Cat => 5,
        Op::Eq | Op::Ne | Op::Lt | Op::Le | Op::Gt | Op::Ge => 6,
    }
}
