//! Functions of logical values, and choices by them (OpenFormula, 6.15).
ghost use Rattle.std.specs.Prelude.{◌≡◌, IfOk};
ghost use Rattle.calc_model.specs.Arguments.{meanings_of};
ghost use Rattle.calc_model.specs.Logic.{and, false_, if_, if_error, not_, not_available, or, true_};

use crate::kinds::is_error;
use crate::truths::{Truths, if_some};
use calc_addr::{Cell, NoMemory};
use calc_model::{Arg, Fault, Value, Values};
use calc_num::Num;
use fn_args::{copied, scalar, tally_list, truth, truth_value, value};
use std::alloc::Global;

/// AND: whether all numbers of a list are true. A list without one has no value.
pub fn fn_and<V: Values>(
    _alloc: Global,
    args: &[Arg],
    home: Cell,
    values: &V,
) -> Result<Value, NoMemory>
    ensures { IfOk result (λ v. v ≡ and (meanings_of home (V.values values.now) args.now)) }
{
    let mut truths = Truths::new();
    match tally_list(args, values, &mut truths) {
        Ok(()) => Ok(if_some(truths.some, truths.all)),
        Err(fault) => Ok(Value::Bad(fault)),
    }
}

/// OR: whether a number of a list is true. A list without one has no value.
pub fn fn_or<V: Values>(
    _alloc: Global,
    args: &[Arg],
    home: Cell,
    values: &V,
) -> Result<Value, NoMemory>
    ensures { IfOk result (λ v. v ≡ or (meanings_of home (V.values values.now) args.now)) }
{
    let mut truths = Truths::new();
    match tally_list(args, values, &mut truths) {
        Ok(()) => Ok(if_some(truths.some, truths.any)),
        Err(fault) => Ok(Value::Bad(fault)),
    }
}

/// NOT: the other logical value.
pub fn fn_not<V: Values>(
    _alloc: Global,
    args: &[Arg],
    home: Cell,
    values: &V,
) -> Result<Value, NoMemory>
    ensures { IfOk result (λ v. v ≡ not_ (meanings_of home (V.values values.now) args.now)) }
{
    match args {
        [x] => match truth_value(x, home, values) {
            Ok(holds) => Ok(truth(!holds)),
            Err(fault) => Ok(Value::Bad(fault)),
        },
        _ => Ok(Value::Bad(Fault::BadValue)),
    }
}

/// TRUE: 1.
pub fn fn_true<V: Values>(
    _alloc: Global,
    args: &[Arg],
    home: Cell,
    values: &V,
) -> Result<Value, NoMemory>
    ensures { IfOk result (λ v. v ≡ true_ (meanings_of home (V.values values.now) args.now)) }
{
    Ok(truth(true))
}

/// FALSE: 0.
pub fn fn_false<V: Values>(
    _alloc: Global,
    args: &[Arg],
    home: Cell,
    values: &V,
) -> Result<Value, NoMemory>
    ensures { IfOk result (λ v. v ≡ false_ (meanings_of home (V.values values.now) args.now)) }
{
    Ok(truth(false))
}

/// NA: the error `#N/A`.
pub fn fn_na<V: Values>(
    _alloc: Global,
    args: &[Arg],
    home: Cell,
    values: &V,
) -> Result<Value, NoMemory>
    ensures { IfOk result (λ v. v
        ≡ not_available (meanings_of home (V.values values.now) args.now)) }
{
    Ok(Value::Bad(Fault::NA))
}

/// IF: the second parameter where the first is true, else the third, or 0 where there is none. The value
/// that isn't taken isn't looked at.
pub fn fn_if<V: Values>(
    alloc: Global,
    args: &[Arg],
    home: Cell,
    values: &V,
) -> Result<Value, NoMemory>
    ensures { IfOk result (λ v. v ≡ if_ (meanings_of home (V.values values.now) args.now)) }
{
    match args {
        [test, first] => match truth_value(test, home, values) {
            Err(fault) => Ok(Value::Bad(fault)),
            Ok(true) => value(alloc, first, home, values),
            Ok(false) => Ok(Value::Number(Num::default())),
        },
        [test, first, second] => match truth_value(test, home, values) {
            Err(fault) => Ok(Value::Bad(fault)),
            Ok(true) => value(alloc, first, home, values),
            Ok(false) => value(alloc, second, home, values),
        },
        _ => Ok(Value::Bad(Fault::BadValue)),
    }
}

/// IFERROR: the first parameter unless it is an error, else the second.
pub fn fn_iferror<V: Values>(
    alloc: Global,
    args: &[Arg],
    home: Cell,
    values: &V,
) -> Result<Value, NoMemory>
    ensures { IfOk result (λ v. v ≡ if_error (meanings_of home (V.values values.now) args.now)) }
{
    match args {
        [x, other] => {
            if is_error(&scalar(x, home, values)) {
                value(alloc, other, home, values)
            } else {
                value(alloc, x, home, values)
            }
        }
        _ => Ok(Value::Bad(Fault::BadValue)),
    }
}
