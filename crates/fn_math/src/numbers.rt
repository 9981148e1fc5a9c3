//! Sizes, signs, whole numbers, quotients and powers (OpenFormula, 6.16 and 6.17).
ghost use Rattle.std.specs.Prelude.{◌≡◌, ◌*ℤ◌, ◌^◌, pos, IfOk};
ghost use Rattle.std.specs.Int.{int_signum};
ghost use Rattle.std.specs.Int.RustNames.{unsigned_abs};
ghost use Rattle.calc_model.specs.Arguments.{meanings_of};
ghost use Rattle.calc_model.specs.Rounding.{abs, int, mod_, power, quotient_, sign, square_root};

use crate::operands::{only_number, only_numbers};
use calc_addr::{Cell, NoMemory};
use calc_model::{Arg, Value, Values};
use calc_num::{Num, Way};
use fn_args::value_of;
use std::alloc::Global;

/// The raw number of 1.
const ONE: i128 = 1_000_000_000;

/// ABS: the number's size.
#[tactic(auto, using(crate::proofs::OneOrTwo::of_one))]
pub fn fn_abs<V: Values>(
    _alloc: Global,
    args: &[Arg],
    home: Cell,
    values: &V,
) -> Result<Value, NoMemory>
    ensures { IfOk result (λ v. v ≡ abs (meanings_of home (V.values values.now) args.now)) }
{
    match only_number(args, home, values) {
        Ok(number) => Ok(Value::Number(size_of(number))),
        Err(fault) => Ok(Value::Bad(fault)),
    }
}

/// The number without its sign.
fn size_of(number: Num) -> Num
    ensures { result ≡ pos (unsigned_abs number) }
{
    if number.raw() < 0 {
        number.neg()
    } else {
        number
    }
}

/// SIGN: -1, 0 or 1.
#[tactic(auto, using(crate::proofs::OneOrTwo::of_one))]
pub fn fn_sign<V: Values>(
    _alloc: Global,
    args: &[Arg],
    home: Cell,
    values: &V,
) -> Result<Value, NoMemory>
    ensures { IfOk result (λ v. v ≡ sign (meanings_of home (V.values values.now) args.now)) }
{
    match only_number(args, home, values) {
        Ok(number) => Ok(Value::Number(sign_of(number))),
        Err(fault) => Ok(Value::Bad(fault)),
    }
}

/// -1, 0 or 1, as the number is below, at or above zero.
fn sign_of(number: Num) -> Num
    ensures { result ≡ int_signum number *ℤ pos (10 ^ 9) }
{
    Num::from_raw(number.raw().signum() * ONE).unwrap()
}

/// INT: the greatest whole number that isn't above the number.
#[tactic(auto, using(crate::proofs::OneOrTwo::of_one))]
pub fn fn_int<V: Values>(
    _alloc: Global,
    args: &[Arg],
    home: Cell,
    values: &V,
) -> Result<Value, NoMemory>
    ensures { IfOk result (λ v. v ≡ int (meanings_of home (V.values values.now) args.now)) }
{
    match only_number(args, home, values) {
        Ok(number) => Ok(value_of(number.round_to(0, Way::Floor))),
        Err(fault) => Ok(Value::Bad(fault)),
    }
}

/// MOD: what is left of the first number without the second as often as it goes, rounded down.
#[tactic(auto, using(crate::proofs::OneOrTwo::of_two))]
pub fn fn_mod<V: Values>(
    _alloc: Global,
    args: &[Arg],
    home: Cell,
    values: &V,
) -> Result<Value, NoMemory>
    ensures { IfOk result (λ v. v ≡ mod_ (meanings_of home (V.values values.now) args.now)) }
{
    match only_numbers(args, home, values) {
        Ok((left, right)) => Ok(value_of(left.floor_mod(right))),
        Err(fault) => Ok(Value::Bad(fault)),
    }
}

/// QUOTIENT: the quotient, cut toward zero.
#[tactic(auto, using(crate::proofs::OneOrTwo::of_two))]
pub fn fn_quotient<V: Values>(
    _alloc: Global,
    args: &[Arg],
    home: Cell,
    values: &V,
) -> Result<Value, NoMemory>
    ensures { IfOk result (λ v. v ≡ quotient_ (meanings_of home (V.values values.now) args.now)) }
{
    match only_numbers(args, home, values) {
        Ok((left, right)) => Ok(value_of(left.quotient(right))),
        Err(fault) => Ok(Value::Bad(fault)),
    }
}

/// POWER: the first number to the power of the second.
#[tactic(auto, using(crate::proofs::OneOrTwo::of_two))]
pub fn fn_power<V: Values>(
    _alloc: Global,
    args: &[Arg],
    home: Cell,
    values: &V,
) -> Result<Value, NoMemory>
    ensures { IfOk result (λ v. v ≡ power (meanings_of home (V.values values.now) args.now)) }
{
    match only_numbers(args, home, values) {
        Ok((left, right)) => Ok(value_of(left.pow(right))),
        Err(fault) => Ok(Value::Bad(fault)),
    }
}

/// SQRT: the square root.
#[tactic(auto, using(crate::proofs::OneOrTwo::of_one))]
pub fn fn_sqrt<V: Values>(
    _alloc: Global,
    args: &[Arg],
    home: Cell,
    values: &V,
) -> Result<Value, NoMemory>
    ensures { IfOk result (λ v. v ≡ square_root (meanings_of home (V.values values.now) args.now)) }
{
    match only_number(args, home, values) {
        Ok(number) => Ok(value_of(number.sqrt())),
        Err(fault) => Ok(Value::Bad(fault)),
    }
}
