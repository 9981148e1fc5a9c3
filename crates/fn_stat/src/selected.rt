//! SUMIF (OpenFormula, 6.16.62).
ghost use Rattle.std.specs.Prelude.{◌≡◌, IfOk};
ghost use Rattle.calc_model.specs.Arguments.{meanings_of};
ghost use Rattle.calc_model.specs.Meanings.{values_in};
ghost use Rattle.calc_model.specs.Statistics.{has_shape_of, sum_if, sum_picked};
ghost use Rattle.fn_args.specs.Lent.{wanted_value};

use crate::criteria::criterion_of;
use crate::sums::Sum;
use calc_addr::{Area, Cell, NoMemory};
use calc_model::{Arg, Fault, Value, Values};
use fn_args::{Wanted, area, tally_picked, wanted_by};
use std::alloc::Global;

/// SUMIF: the exact sum of the numbers in the third area, or in the first where it is missing, at the places
/// whose cells in the first match the criterion; it is tested once at the end. Texts are passed over, and the
/// first error at such a place is the result. One walk over both areas in step.
pub fn fn_sumif<V: Values>(
    _alloc: Global,
    args: &[Arg],
    home: Cell,
    values: &V,
) -> Result<Value, NoMemory>
    ensures { IfOk result (λ v. v ≡ sum_if (meanings_of home (V.values values.now) args.now)) }
{
    match args {
        [x, sought] => match area(x) {
            Err(fault) => Ok(Value::Bad(fault)),
            Ok(tested) => match wanted_by(sought, home, values) {
                Err(fault) => Ok(Value::Bad(fault)),
                Ok(wanted) => Ok(sum_picked(&wanted, tested, tested, values)),
            },
        },
        [x, sought, y] => match area(x) {
            Err(fault) => Ok(Value::Bad(fault)),
            Ok(tested) => match wanted_by(sought, home, values) {
                Err(fault) => Ok(Value::Bad(fault)),
                Ok(wanted) => match area(y) {
                    Err(fault) => Ok(Value::Bad(fault)),
                    Ok(summed) => Ok(sum_picked(&wanted, tested, summed, values)),
                },
            },
        },
        _ => Ok(Value::Bad(Fault::BadValue)),
    }
}

/// The sum of the numbers of an area at the places whose cells in another of its shape match.
fn sum_picked<V: Values>(wanted: &Wanted<'_>, tested: Area, summed: Area, values: &V) -> Value
    ensures { result ≡ sum_picked (wanted_value wanted.now)
        (record { area = tested; values = values_in (V.values values.now) tested })
        (record { area = summed; values = values_in (V.values values.now) summed }) }
{
    if !has_shape_of(tested, summed) {
        return Value::Bad(Fault::BadValue);
    }
    let criterion = criterion_of(wanted);
    let mut sum = Sum::new();
    match tally_picked(tested, summed, values, &criterion, &mut sum) {
        Ok(()) => sum.total(),
        Err(fault) => Value::Bad(fault),
    }
}

/// Whether two areas have as many rows and as many columns.
fn has_shape_of(a: Area, b: Area) -> bool
    ensures { result ≡ has_shape_of a b }
{
    a.last_col - a.first_col == b.last_col - b.first_col
        && a.last_row - a.first_row == b.last_row - b.first_row
}
