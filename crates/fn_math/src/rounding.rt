//! Rounding to a number of digits behind the point (OpenFormula, 6.17).
ghost use Rattle.std.specs.Prelude.{◌≡◌, IfOk};
ghost use Rattle.calc_model.specs.Arguments.{meanings_of};
ghost use Rattle.calc_model.specs.Rounding.{round, round_down, round_up, rounded_by};

use calc_addr::{Cell, NoMemory};
use calc_model::{Arg, Fault, Value, Values};
use calc_num::Way;
use fn_args::{number, value_of, whole};
use std::alloc::Global;

/// The multiple of 10^(-digits) that a way of rounding picks. Without digits it is a whole number.
fn rounded_by<V: Values>(way: Way, args: &[Arg], home: Cell, values: &V) -> Value
    ensures { result ≡ rounded_by way (meanings_of home (V.values values.now) args.now) }
{
    match args {
        [x] => match number(x, home, values) {
            Err(fault) => Value::Bad(fault),
            Ok(number) => value_of(number.round_to(0, way)),
        },
        [x, digits] => match number(x, home, values) {
            Err(fault) => Value::Bad(fault),
            Ok(number) => match whole(digits, home, values) {
                Err(fault) => Value::Bad(fault),
                Ok(digits) => value_of(number.round_to(digits, way)),
            },
        },
        _ => Value::Bad(Fault::BadValue),
    }
}

/// TRUNC: the multiple toward zero.
pub fn fn_trunc<V: Values>(
    _alloc: Global,
    args: &[Arg],
    home: Cell,
    values: &V,
) -> Result<Value, NoMemory>
    ensures { IfOk result (λ v. v ≡ round_down (meanings_of home (V.values values.now) args.now)) }
{
    Ok(rounded_by(Way::Toward, args, home, values))
}

/// ROUNDDOWN: the multiple toward zero.
pub fn fn_rounddown<V: Values>(
    _alloc: Global,
    args: &[Arg],
    home: Cell,
    values: &V,
) -> Result<Value, NoMemory>
    ensures { IfOk result (λ v. v ≡ round_down (meanings_of home (V.values values.now) args.now)) }
{
    Ok(rounded_by(Way::Toward, args, home, values))
}

/// ROUND: the nearest multiple, halves away from zero.
pub fn fn_round<V: Values>(
    _alloc: Global,
    args: &[Arg],
    home: Cell,
    values: &V,
) -> Result<Value, NoMemory>
    ensures { IfOk result (λ v. v ≡ round (meanings_of home (V.values values.now) args.now)) }
{
    Ok(rounded_by(Way::Nearest, args, home, values))
}

/// ROUNDUP: the multiple away from zero.
pub fn fn_roundup<V: Values>(
    _alloc: Global,
    args: &[Arg],
    home: Cell,
    values: &V,
) -> Result<Value, NoMemory>
    ensures { IfOk result (λ v. v ≡ round_up (meanings_of home (V.values values.now) args.now)) }
{
    Ok(rounded_by(Way::Away, args, home, values))
}
