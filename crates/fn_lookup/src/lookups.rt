//! MATCH, VLOOKUP and HLOOKUP (OpenFormula, 6.14.9, 6.14.12 and 6.14.5).
ghost use Rattle.std.specs.Prelude.{◌≡◌, ◌<◌, ℕ, IfOk};
ghost use Rattle.calc_model.specs.Arguments.{meanings_of};
ghost use Rattle.calc_model.specs.Lookup.{first_column, first_row, if_within, look_up, looked_up_along, looked_up_down, match_, matched, type_of};
ghost use Rattle.calc_model.specs.Meanings.{values_in};
ghost use Rattle.calc_model.specs.Operators.{from_ok};
ghost use Rattle.calc_model.specs.Scalars.{CellValues};
ghost use Rattle.calc_model.specs.declared.value.Value.{Value as CellValue};
ghost use Rattle.fn_args.specs.Lent.{wanted_value};
ghost use Rattle.fn_lookup.specs.Lines.{looked_up, valued};

use crate::choices::value_in;
use crate::places::{col_count, row_count};
use crate::scan::place_in;
use calc_addr::{Area, Cell, NoMemory};
use calc_model::{Arg, Fault, Value, Values};
use fn_args::{Wanted, area, counted, truth_value, wanted_by, whole};
use std::alloc::Global;

/// Which way a table is looked up: down its first column, or along its first row.
#[derive(Clone, Copy)]
pub(crate) enum Way {
    Down,
    Along,
}

/// MATCH: the place of a value in an area of one row or one column, counted from 1. The third parameter is
/// the order in which the cells stand: 0 for none, above it ascending and below it descending. One walk over
/// the area.
pub fn fn_match<V: Values>(
    _alloc: Global,
    args: &[Arg],
    home: Cell,
    values: &V,
) -> Result<Value, NoMemory>
    ensures { IfOk result (λ v. v ≡ match_ (meanings_of home (V.values values.now) args.now)) }
{
    match args {
        [x, y] => match wanted_by(x, home, values) {
            Err(fault) => Ok(Value::Bad(fault)),
            Ok(sought) => match area(y) {
                Err(fault) => Ok(Value::Bad(fault)),
                Ok(area) => Ok(matched(&sought, area, 1, values)),
            },
        },
        [x, y, number] => match wanted_by(x, home, values) {
            Err(fault) => Ok(Value::Bad(fault)),
            Ok(sought) => match area(y) {
                Err(fault) => Ok(Value::Bad(fault)),
                Ok(area) => match whole(number, home, values) {
                    Err(fault) => Ok(Value::Bad(fault)),
                    Ok(number) => Ok(matched(&sought, area, number, values)),
                },
            },
        },
        _ => Ok(Value::Bad(Fault::BadValue)),
    }
}

/// The place in an area of one row or column, by a type of search.
fn matched<V: Values>(sought: &Wanted<'_>, area: Area, number: i64, values: &V) -> Value
    ensures { result ≡ matched (wanted_value sought.now) (valued (V.values values.now) area)
        number }
{
    if area.first_row != area.last_row && area.first_col != area.last_col {
        return Value::Bad(Fault::BadValue);
    }
    match place_in(area, number, sought, values) {
        None => Value::Bad(Fault::NA),
        Some(place) => counted(place as u64 + 1),
    }
}

/// VLOOKUP: searches the first column of an area, and gives the value in the row that is found and the
/// column of a number. One walk over the first column.
pub fn fn_vlookup<V: Values>(
    alloc: Global,
    args: &[Arg],
    home: Cell,
    values: &V,
) -> Result<Value, NoMemory>
    ensures { IfOk result (λ v. v
        ≡ look_up looked_up_down (meanings_of home (V.values values.now) args.now)) }
{
    look_up(alloc, Way::Down, args, home, values)
}

/// HLOOKUP: searches the first row of an area, and gives the value in the column that is found and the row of
/// a number. One walk over the first row.
pub fn fn_hlookup<V: Values>(
    alloc: Global,
    args: &[Arg],
    home: Cell,
    values: &V,
) -> Result<Value, NoMemory>
    ensures { IfOk result (λ v. v
        ≡ look_up looked_up_along (meanings_of home (V.values values.now) args.now)) }
{
    look_up(alloc, Way::Along, args, home, values)
}

/// Looks up a table one way or the other.
fn look_up<V: Values>(
    alloc: Global,
    way: Way,
    args: &[Arg],
    home: Cell,
    values: &V,
) -> Result<Value, NoMemory>
    ensures { IfOk result (λ v. v
        ≡ look_up (looked_up way) (meanings_of home (V.values values.now) args.now)) }
{
    match args {
        [x, y, number] => match wanted_by(x, home, values) {
            Err(fault) => Ok(Value::Bad(fault)),
            Ok(sought) => match area(y) {
                Err(fault) => Ok(Value::Bad(fault)),
                Ok(area) => match whole(number, home, values) {
                    Err(fault) => Ok(Value::Bad(fault)),
                    Ok(number) => looked_up(alloc, way, &sought, area, number, true, values),
                },
            },
        },
        [x, y, number, ascending] => match wanted_by(x, home, values) {
            Err(fault) => Ok(Value::Bad(fault)),
            Ok(sought) => match area(y) {
                Err(fault) => Ok(Value::Bad(fault)),
                Ok(area) => match whole(number, home, values) {
                    Err(fault) => Ok(Value::Bad(fault)),
                    Ok(number) => match truth_value(ascending, home, values) {
                        Err(fault) => Ok(Value::Bad(fault)),
                        Ok(ascending) => {
                            looked_up(alloc, way, &sought, area, number, ascending, values)
                        }
                    },
                },
            },
        },
        _ => Ok(Value::Bad(Fault::BadValue)),
    }
}

/// The value that a table has for a sought one.
fn looked_up<V: Values>(
    alloc: Global,
    way: Way,
    sought: &Wanted<'_>,
    area: Area,
    number: i64,
    ascending: bool,
    values: &V,
) -> Result<Value, NoMemory>
    ensures { IfOk result (λ v. v ≡ looked_up way (wanted_value sought.now)
        (valued (V.values values.now) area) number ascending) }
{
    match way {
        Way::Down => looked_up_down(alloc, sought, area, number, ascending, values),
        Way::Along => looked_up_along(alloc, sought, area, number, ascending, values),
    }
}

fn looked_up_down<V: Values>(
    alloc: Global,
    sought: &Wanted<'_>,
    area: Area,
    number: i64,
    ascending: bool,
    values: &V,
) -> Result<Value, NoMemory>
    ensures { IfOk result (λ v. v ≡ looked_up_down (wanted_value sought.now)
        (valued (V.values values.now) area) number ascending) }
{
    match within(col_count(area), number) {
        Err(fault) => Ok(Value::Bad(fault)),
        Ok(col) => match place_in(first_column(area), type_of(ascending), sought, values) {
            None => Ok(Value::Bad(Fault::NA)),
            Some(row) => value_in(alloc, area, row as u32, col, values),
        },
    }
}

fn looked_up_along<V: Values>(
    alloc: Global,
    sought: &Wanted<'_>,
    area: Area,
    number: i64,
    ascending: bool,
    values: &V,
) -> Result<Value, NoMemory>
    ensures { IfOk result (λ v. v ≡ looked_up_along (wanted_value sought.now)
        (valued (V.values values.now) area) number ascending) }
{
    match within(row_count(area), number) {
        Err(fault) => Ok(Value::Bad(fault)),
        Ok(row) => match place_in(first_row(area), type_of(ascending), sought, values) {
            None => Ok(Value::Bad(Fault::NA)),
            Some(col) => value_in(alloc, area, row, col as u32, values),
        },
    }
}

/// The type of a search in ascending order, or of an exact one.
fn type_of(ascending: bool) -> i64
    ensures { result ≡ type_of ascending }
{
    if ascending { 1 } else { 0 }
}

/// A number from 1 to a size, counted from 0 instead. Below 1 it is no value, and above the size no
/// reference.
fn within(size: u32, number: i64) -> Result<u32, Fault>
    ensures same { (next : ℕ → CellValue) → if_within size number next ≡ from_ok result next }
    ensures below { IfOk result (λ place. place < size) }
{
    if number < 1 {
        Err(Fault::BadValue)
    } else if number > i64::from(size) {
        Err(Fault::BadRef)
    } else {
        Ok((number - 1) as u32)
    }
}

/// The first column of an area.
fn first_column(area: Area) -> Area
    ensures { (v : CellValues) → values_in v result ≡ first_column (valued v area) }
{
    Area {
        last_col: area.first_col,
        ..area
    }
}

/// The first row of an area.
fn first_row(area: Area) -> Area
    ensures { (v : CellValues) → values_in v result ≡ first_row (valued v area) }
{
    Area {
        last_row: area.first_row,
        ..area
    }
}
