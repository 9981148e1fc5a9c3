ghost use Rattle.std.specs.Prelude.{◌≡◌, ◌^◌, true, pos, IfOk, if◌then◌else◌};
ghost use Rattle.calc_model.specs.Operators.{binary, hundredth, joined, negated, value_of as decimal_value};
ghost use Rattle.cell_interpreter.specs.Operands.{Appends, arithmetic, holds, is_arithmetic, is_comparison, value_of};

use crate::scalar::Scalar;
use calc_addr::NoMemory;
use calc_model::{Fault, MOST_FIELD_BYTES, Op, Text};
use calc_num::{Num, NumFault};
use std::alloc::Global;
use std::cmp::Ordering;

/// The raw number of 1.
const ONE: i128 = 1_000_000_000;

/// An infix operator.
pub(crate) fn binary<'a>(
    alloc: Global,
    op: Op,
    left: &Scalar<'_>,
    right: &Scalar<'_>,
) -> Result<Scalar<'a>, NoMemory>
    ensures { IfOk result (λ v. value_of v ≡ binary op (value_of left.now) (value_of right.now)) }
{
    match op {
        Op::Pow | Op::Mul | Op::Div | Op::Add | Op::Sub => Ok(arithmetic(op, left, right)),
        Op::Cat => joined(alloc, left, right),
        Op::Eq | Op::Ne | Op::Lt | Op::Le | Op::Gt | Op::Ge => Ok(comparison(op, left, right)),
    }
}

/// The prefix `-`.
pub(crate) fn negated<'a>(operand: &Scalar<'_>) -> Scalar<'a>
    ensures { value_of result ≡ negated (value_of operand.now) }
{
    match operand.to_number() {
        Ok(number) => Scalar::Number(number.neg()),
        Err(fault) => Scalar::Bad(fault),
    }
}

/// The postfix `%`.
pub(crate) fn hundredth<'a>(operand: &Scalar<'_>) -> Scalar<'a>
    ensures { value_of result ≡ hundredth (value_of operand.now) }
{
    match operand.to_number() {
        Ok(number) => Scalar::Number(number.percent()),
        Err(fault) => Scalar::Bad(fault),
    }
}

/// An operator on two numbers.
fn arithmetic<'a>(op: Op, left: &Scalar<'_>, right: &Scalar<'_>) -> Scalar<'a>
    requires { is_arithmetic op ≡ true }
    ensures { value_of result ≡ binary op (value_of left.now) (value_of right.now) }
{
    match left.to_number() {
        Err(fault) => Scalar::Bad(fault),
        Ok(number) => match right.to_number() {
            Err(fault) => Scalar::Bad(fault),
            Ok(other) => of_decimal(calculate(op, number, other)),
        },
    }
}

fn calculate(op: Op, number: Num, other: Num) -> Result<Num, NumFault>
    requires { is_arithmetic op ≡ true }
    ensures { result ≡ arithmetic op number other }
{
    match op {
        Op::Pow => number.pow(other),
        Op::Mul => number.mul(other),
        Op::Div => number.div(other),
        Op::Add => number.add(other),
        Op::Sub => number.sub(other),
        Op::Cat | Op::Eq | Op::Ne | Op::Lt | Op::Le | Op::Gt | Op::Ge => unreachable!(),
    }
}

/// The result of a decimal operation.
fn of_decimal<'a>(result_of: Result<Num, NumFault>) -> Scalar<'a>
    ensures { value_of result ≡ decimal_value result_of }
{
    match result_of {
        Ok(number) => Scalar::Number(number),
        Err(NumFault::Over) => Scalar::Bad(Fault::Over),
        Err(NumFault::DivZero) => Scalar::Bad(Fault::DivZero),
        Err(NumFault::NotNum) => Scalar::Bad(Fault::BadNum),
    }
}

/// Two texts, joined.
fn joined<'a>(alloc: Global, left: &Scalar<'_>, right: &Scalar<'_>) -> Result<Scalar<'a>, NoMemory>
    ensures { IfOk result (λ v. value_of v ≡ joined (value_of left.now) (value_of right.now)) }
{
    let mut text = Text::new(alloc);
    if let Some(fault) = append(&mut text, left)? {
        return Ok(Scalar::Bad(fault));
    }
    if let Some(fault) = append(&mut text, right)? {
        return Ok(Scalar::Bad(fault));
    }
    if text.bytes().len() > MOST_FIELD_BYTES {
        return Ok(Scalar::Bad(Fault::Over));
    }
    Ok(Scalar::Made(text))
}

/// Appends the text of a value, or gives its error.
fn append(text: &mut Text, operand: &Scalar<'_>) -> Result<Option<Fault>, NoMemory>
    ensures { IfOk result (Appends text.old text.new (value_of operand.now)) }
{
    match operand {
        Scalar::Number(number) => text.push_number(*number)?,
        Scalar::Lent(words) => text.push_str(words.as_str())?,
        Scalar::Made(words) => text.push_str(words.as_str())?,
        Scalar::Bad(fault) => return Ok(Some(*fault)),
        Scalar::Blank => (),
    }
    Ok(None)
}

/// An operator that compares.
fn comparison<'a>(op: Op, left: &Scalar<'_>, right: &Scalar<'_>) -> Scalar<'a>
    requires { is_comparison op ≡ true }
    ensures { value_of result ≡ binary op (value_of left.now) (value_of right.now) }
{
    match left.compare(right) {
        Ok(order) => Scalar::Number(truth(holds(op, order))),
        Err(fault) => Scalar::Bad(fault),
    }
}

fn holds(op: Op, order: Ordering) -> bool
    requires { is_comparison op ≡ true }
    ensures { result ≡ holds op order }
{
    match op {
        Op::Eq => order.is_eq(),
        Op::Ne => order.is_ne(),
        Op::Lt => order.is_lt(),
        Op::Le => order.is_le(),
        Op::Gt => order.is_gt(),
        Op::Ge => order.is_ge(),
        Op::Pow | Op::Mul | Op::Div | Op::Add | Op::Sub | Op::Cat => unreachable!(),
    }
}

/// 1 or 0.
fn truth(holds: bool) -> Num
    ensures { result ≡ (if holds then pos (10 ^ 9) else pos 0) }
{
    if holds {
        Num::from_raw(ONE).unwrap()
    } else {
        Num::default()
    }
}
