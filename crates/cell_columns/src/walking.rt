//! Rows that aren't empty, one after the other.
ghost use Rattle.std.specs.Prelude.{ℕ, ◌≡◌, ◌-◌, ◌+◌, ◌≤◌, ◌<◌, ◌++◌, IfNone, IfSome, OnOk, length};
ghost use Rattle.calc_addr.specs.declared.cell.TheConstants.{LAST_ROW};
ghost use Rattle.calc_addr.specs.Places.{IsPlace};
ghost use Rattle.run_tables.specs.Rows.{AreRows};
ghost use Rattle.formula_code.specs.Codes.{Codes};
ghost use Rattle.kept_codes.specs.Columns.{cell_in};
ghost use Rattle.cell_columns.specs.Cells.{cells_of, column_at, column_number};
ghost use Rattle.cell_columns.specs.Lent.{slots_of};
ghost use Rattle.cell_columns.specs.Walks.{AreEmpty, IsNext, places_below, places_of, rows_in, within_rows};

use crate::cells::column_number;
use crate::counting::holds_something;
use block_column::BlockColumn;
use calc_addr::{Cell, LAST_ROW, NoMemory};
use kept_codes::{COLUMNS, cell_in};
use run_tables::piece_at;

/// The first row that isn't empty, from one row on down to another. It takes the logarithm of the blocks.
pub(crate) fn next_filled(column: &BlockColumn, first: u32, last: u32) -> Option<u32>
    requires rows { length column.now.slots ≡ LAST_ROW }
    requires from { 1 ≤ first }
    requires to { last ≤ LAST_ROW }
    ensures found { IfSome result (IsNext column.now.slots first last) }
    ensures none { IfNone result (AreEmpty column.now.slots first (last + 1)) }
{
    let mut row = first;
    while row <= last {
        let Some(block) = piece_at(column.blocks(), row) else {
            unreachable!()
        };
        if holds_something(block.kind) {
            return Some(row);
        }
        if last <= block.last {
            return None;
        }
        row = block.last + 1;
    }
    None
}

/// Appends the cells of neighbouring rows of a column that aren't empty, downwards. It takes the logarithm
/// of the blocks for each.
fn push_rows(
    column: &BlockColumn,
    number: usize,
    first: u32,
    last: u32,
    out: &mut Vec<Cell>,
) -> Result<(), NoMemory>
    requires number { number < COLUMNS }
    requires rows { length column.now.slots ≡ LAST_ROW }
    requires from { 1 ≤ first }
    requires order { first ≤ last + 1 }
    requires to { last ≤ LAST_ROW }
    ensures { OnOk result (out.new.items ≡ out.old.items
        ++ places_below number first (rows_in first last column.now.slots)) }
{
    let mut row = first;
    while let Some(filled) = next_filled(column, row, last) {
        out.push(cell_in(number, filled))?;
        row = filled + 1;
    }
    Ok(())
}

/// Appends the cells of neighbouring rows of neighbouring columns that aren't empty, in the order of cells.
pub(crate) fn push_cells(
    columns: &[BlockColumn],
    from: usize,
    behind: usize,
    first: u32,
    last: u32,
    out: &mut Vec<Cell>,
) -> Result<(), NoMemory>
    requires all { length columns.now ≡ COLUMNS }
    requires long { (number : ℕ) → number < COLUMNS
        → length (column_at (slots_of columns.now) number) ≡ LAST_ROW }
    requires order { from ≤ behind }
    requires among { behind ≤ COLUMNS }
    requires rows { AreRows first last }
    ensures { OnOk result ((codes : Codes) → out.new.items ≡ out.old.items ++ places_of
        (within_rows from behind first last (cells_of codes (slots_of columns.now)))) }
{
    for number in from..behind {
        push_rows(&columns[number], number, first, last, out)?;
    }
    Ok(())
}

/// How many rows from a cell on, down to that row, are empty before the first that isn't.
pub(crate) fn empty_below(columns: &[BlockColumn], start: Cell, last_row: u32) -> u32
    requires among { column_number start < length columns.now }
    requires rows { length (column_at (slots_of columns.now) (column_number start)) ≡ LAST_ROW }
    requires from { start.row ≤ last_row }
    requires to { last_row ≤ LAST_ROW }
    ensures most { result ≤ last_row + 1 - start.row }
    ensures empty { AreEmpty (column_at (slots_of columns.now) (column_number start))
        start.row (start.row + result) }
    ensures place { IsPlace start }
{
    match next_filled(&columns[column_number(start)], start.row, last_row) {
        Some(row) => row - start.row,
        None => last_row + 1 - start.row,
    }
}
