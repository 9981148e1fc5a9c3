//! Values by their number (OpenFormula, 6.14.3 and 6.14.6).
ghost use Rattle.std.specs.Prelude.{◌≡◌, ◌<◌, pos, suc, IfOk};
ghost use Rattle.calc_model.specs.Arguments.{meaning_of, meanings_of};
ghost use Rattle.calc_model.specs.Lookup.{cell_along, cell_in, choose, chosen, col_count, index, row_count, value_in};
ghost use Rattle.calc_model.specs.Meanings.{values_in};

use crate::places::{col_count, row_count};
use calc_addr::{Area, Cell, NoMemory};
use calc_model::{Arg, Fault, Value, Values};
use fn_args::{area, copied, value, whole};
use std::alloc::Global;

/// CHOOSE: the value of that number among the others, counted from 1. The others aren't looked at.
pub fn fn_choose<V: Values>(
    alloc: Global,
    args: &[Arg],
    home: Cell,
    values: &V,
) -> Result<Value, NoMemory>
    ensures { IfOk result (λ v. v ≡ choose (meanings_of home (V.values values.now) args.now)) }
{
    match args {
        [place, others @ ..] => match whole(place, home, values) {
            Err(fault) => Ok(Value::Bad(fault)),
            Ok(number) => chosen(alloc, others, number, home, values),
        },
        _ => Ok(Value::Bad(Fault::BadValue)),
    }
}

/// The value of that number, counted from 1.
fn chosen<V: Values>(
    alloc: Global,
    others: &[Arg],
    number: i64,
    home: Cell,
    values: &V,
) -> Result<Value, NoMemory>
    ensures { IfOk result (λ v. v
        ≡ chosen (meanings_of home (V.values values.now) others.now) number) }
{
    if number < 1 {
        return Ok(Value::Bad(Fault::BadValue));
    }
    chosen_at(alloc, others, number as u64 - 1, home, values)
}

/// The value of that number, counted from 0.
fn chosen_at<V: Values>(
    alloc: Global,
    others: &[Arg],
    place: u64,
    home: Cell,
    values: &V,
) -> Result<Value, NoMemory>
    ensures { IfOk result (λ v. v
        ≡ chosen (meanings_of home (V.values values.now) others.now) (pos (suc place))) }
{
    if others.len() as u64 <= place {
        return Ok(Value::Bad(Fault::BadValue));
    }
    value(alloc, &others[place as usize], home, values)
}

/// INDEX: the value in a row and a column of an area.
pub fn fn_index<V: Values>(
    alloc: Global,
    args: &[Arg],
    home: Cell,
    values: &V,
) -> Result<Value, NoMemory>
    ensures { IfOk result (λ v. v ≡ index (meanings_of home (V.values values.now) args.now)) }
{
    match args {
        [x, place] => match area(x) {
            Err(fault) => Ok(Value::Bad(fault)),
            Ok(area) => match whole(place, home, values) {
                Err(fault) => Ok(Value::Bad(fault)),
                Ok(place) => cell_along(alloc, area, place, values),
            },
        },
        [x, row, col] => match area(x) {
            Err(fault) => Ok(Value::Bad(fault)),
            Ok(area) => match whole(row, home, values) {
                Err(fault) => Ok(Value::Bad(fault)),
                Ok(row) => match whole(col, home, values) {
                    Err(fault) => Ok(Value::Bad(fault)),
                    Ok(col) => cell_in(alloc, area, row, col, values),
                },
            },
        },
        _ => Ok(Value::Bad(Fault::BadValue)),
    }
}

/// A single number is the row, but in an area of one row and several columns the column.
fn cell_along<V: Values>(
    alloc: Global,
    area: Area,
    place: i64,
    values: &V,
) -> Result<Value, NoMemory>
    ensures { IfOk result (λ v. v ≡ cell_along (record {
      area = area;
      values = values_in (V.values values.now) area;
    }) place) }
{
    if area.first_row == area.last_row && area.first_col != area.last_col {
        cell_in(alloc, area, 1, place, values)
    } else {
        cell_in(alloc, area, place, 1, values)
    }
}

/// The value in a row and a column, counted from 1, where the area has them.
fn cell_in<V: Values>(
    alloc: Global,
    area: Area,
    row: i64,
    col: i64,
    values: &V,
) -> Result<Value, NoMemory>
    ensures { IfOk result (λ v. v ≡ cell_in (record {
      area = area;
      values = values_in (V.values values.now) area;
    }) row col) }
{
    if row < 1 || col < 1 || i64::from(row_count(area)) < row || i64::from(col_count(area)) < col {
        return Ok(Value::Bad(Fault::BadRef));
    }
    value_in(alloc, area, (row - 1) as u32, (col - 1) as u32, values)
}

/// The value in a row and a column, counted from 0.
pub(crate) fn value_in<V: Values>(
    alloc: Global,
    area: Area,
    row: u32,
    col: u32,
    values: &V,
) -> Result<Value, NoMemory>
    requires row { row < row_count area }
    requires col { col < col_count area }
    ensures { IfOk result (λ v. v ≡ value_in (record {
      area = area;
      values = values_in (V.values values.now) area;
    }) row col) }
{
    let cell = Cell {
        sheet: area.sheet,
        col: area.first_col + col as u16,
        row: area.first_row + row,
    };
    copied(alloc, &values.look(cell))
}
