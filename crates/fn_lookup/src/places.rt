//! Places and sizes of areas (OpenFormula, 6.13.4, 6.13.5, 6.13.29 and 6.13.30).
ghost use Rattle.std.specs.Prelude.{◌≡◌, ◌≤◌, IfOk};
ghost use Rattle.calc_addr.specs.Places.{Place, Rectangle};
ghost use Rattle.calc_model.specs.Arguments.{meanings_of};
ghost use Rattle.calc_model.specs.Lookup.{col_count, first_of, row_count, size_of};

use calc_addr::{Area, Cell, NoMemory};
use calc_model::{Arg, Fault, Value, Values};
use fn_args::{area, counted};
use std::alloc::Global;

/// ROW: the first row of an area, or the row of the formula's cell.
pub fn fn_row<V: Values>(
    _alloc: Global,
    args: &[Arg],
    home: Cell,
    values: &V,
) -> Result<Value, NoMemory>
    ensures { IfOk result (λ v. v ≡ first_of (λ (p : Place). p.row) (λ (a : Rectangle). a.first_row)
        home (meanings_of home (V.values values.now) args.now)) }
{
    match args {
        [] => Ok(counted(u64::from(home.row))),
        [x] => match area(x) {
            Ok(area) => Ok(counted(u64::from(area.first_row))),
            Err(fault) => Ok(Value::Bad(fault)),
        },
        _ => Ok(Value::Bad(Fault::BadValue)),
    }
}

/// COLUMN: the first column of an area, or the column of the formula's cell.
pub fn fn_column<V: Values>(
    _alloc: Global,
    args: &[Arg],
    home: Cell,
    values: &V,
) -> Result<Value, NoMemory>
    ensures { IfOk result (λ v. v ≡ first_of (λ (p : Place). p.col) (λ (a : Rectangle). a.first_col)
        home (meanings_of home (V.values values.now) args.now)) }
{
    match args {
        [] => Ok(counted(u64::from(home.col))),
        [x] => match area(x) {
            Ok(area) => Ok(counted(u64::from(area.first_col))),
            Err(fault) => Ok(Value::Bad(fault)),
        },
        _ => Ok(Value::Bad(Fault::BadValue)),
    }
}

/// ROWS: how many rows an area has.
pub fn fn_rows<V: Values>(
    _alloc: Global,
    args: &[Arg],
    home: Cell,
    values: &V,
) -> Result<Value, NoMemory>
    ensures { IfOk result (λ v. v
        ≡ size_of row_count (meanings_of home (V.values values.now) args.now)) }
{
    match args {
        [x] => match area(x) {
            Ok(area) => Ok(counted(u64::from(row_count(area)))),
            Err(fault) => Ok(Value::Bad(fault)),
        },
        _ => Ok(Value::Bad(Fault::BadValue)),
    }
}

/// COLUMNS: how many columns an area has.
pub fn fn_columns<V: Values>(
    _alloc: Global,
    args: &[Arg],
    home: Cell,
    values: &V,
) -> Result<Value, NoMemory>
    ensures { IfOk result (λ v. v
        ≡ size_of col_count (meanings_of home (V.values values.now) args.now)) }
{
    match args {
        [x] => match area(x) {
            Ok(area) => Ok(counted(u64::from(col_count(area)))),
            Err(fault) => Ok(Value::Bad(fault)),
        },
        _ => Ok(Value::Bad(Fault::BadValue)),
    }
}

/// How many rows an area has.
pub(crate) fn row_count(area: Area) -> u32
    ensures count { result ≡ row_count area }
    ensures some { 1 ≤ result }
{
    area.last_row + 1 - area.first_row
}

/// How many columns an area has.
pub(crate) fn col_count(area: Area) -> u32
    ensures count { result ≡ col_count area }
    ensures some { 1 ≤ result }
{
    u32::from(area.last_col) + 1 - u32::from(area.first_col)
}
