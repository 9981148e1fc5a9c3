//! Neighbouring cells of a column whose contents become the same wherever they go.
ghost use Rattle.std.specs.Prelude.{◌≡◌, ◌≤◌, ◌<◌, IsTrue};
ghost use Rattle.calc_addr.specs.Places.{IsPlace};
ghost use Rattle.calc_model.specs.Books.{content_at};
ghost use Rattle.calc_model.specs.declared.content.Content.{Content};
ghost use Rattle.calc_model.specs.declared.value.Value.{Value};
ghost use Rattle.formula_code.specs.Coded.{number_of};
ghost use Rattle.cell_columns.specs.Cells.{cells_only};
ghost use Rattle.moved_forms.specs.Alike.{in_row};
ghost use Rattle.book_parts.specs.Pieces.{GoAlike, GoesAlike};

use block_column::SlotRef;
use calc_addr::{Cell, LAST_COL, LAST_ROW, Run};
use calc_model::{Content, Fault, Text};
use calc_num::Num;
use cell_columns::CellColumns;

/// A content, and the neighbouring rows of a column into which it goes, moved from its cell.
#[derive(Drop)]
pub(crate) struct Piece {
    pub(crate) from: Cell,
    pub(crate) content: Content,
    pub(crate) rows: Run,
}

/// A row, from that of a cell down to the last one, to which the cells hold what becomes the same wherever it
/// goes: formulas of one group, equal constants, or nothing. It takes the logarithm of the blocks and groups of
/// the column, and for constants as much for each row.
pub(crate) fn last_alike(cells: &CellColumns, cell: Cell, last: u32) -> u32
    requires order { cell.row ≤ last }
    requires to { last ≤ LAST_ROW }
    ensures from { cell.row ≤ result }
    ensures to { result ≤ last }
    ensures alike { GoAlike (cells_only cells.now) cell result }
{
    match cells.look(cell) {
        SlotRef::Empty => last_empty(cells, cell, last),
        SlotRef::Formula(_) => last_of_group(cells, cell, last),
        _ => last_equal(cells, cell, last),
    }
}

/// The same, where the cell holds nothing.
fn last_empty(cells: &CellColumns, cell: Cell, last: u32) -> u32
    requires order { cell.row ≤ last }
    requires to { last ≤ LAST_ROW }
    ensures from { cell.row ≤ result }
    ensures to { result ≤ last }
    ensures alike { GoAlike (cells_only cells.now) cell result }
{
    let rows = cells.empty_rows(cell, last);
    if rows == 0 {
        return cell.row;
    }
    cell.row + (rows - 1)
}

/// The same, where the cell holds a formula.
fn last_of_group(cells: &CellColumns, cell: Cell, last: u32) -> u32
    requires order { cell.row ≤ last }
    requires to { last ≤ LAST_ROW }
    ensures from { cell.row ≤ result }
    ensures to { result ≤ last }
    ensures alike { GoAlike (cells_only cells.now) cell result }
{
    match cells.coded().groups[column_number(cell)].group_at(cell.row) {
        Some(group) => group.last.min(last),
        None => cell.row,
    }
}

/// The same, where the cell holds a constant.
fn last_equal(cells: &CellColumns, cell: Cell, last: u32) -> u32
    requires order { cell.row ≤ last }
    requires to { last ≤ LAST_ROW }
    ensures from { cell.row ≤ result }
    ensures to { result ≤ last }
    ensures alike { GoAlike (cells_only cells.now) cell result }
{
    let mut row = cell.row;
    while row < last && is_repeated(cells, cell, row + 1) {
        row += 1;
    }
    row
}

/// Whether a cell and that of another row hold one constant, or one field that spells no formula.
fn is_repeated(cells: &CellColumns, cell: Cell, row: u32) -> bool
    requires from { 1 ≤ row }
    requires to { row ≤ LAST_ROW }
    ensures { IsTrue result → GoesAlike (cells_only cells.now) cell row }
{
    let other = in_row(cell, row);
    match cells.look(cell) {
        SlotRef::Number(number) => is_number(cells, other, number),
        SlotRef::Words(text) => is_words(cells, other, text),
        SlotRef::Bad(fault) => is_bad(cells, other, fault),
        SlotRef::Raw(text) => is_raw(cells, other, text),
        _ => false,
    }
}

fn is_number(cells: &CellColumns, cell: Cell, number: Num) -> bool
    ensures { IsTrue result → content_at (cells_only cells.now) cell
        ≡ Content.Constant (Value.Number number) }
{
    match cells.look(cell) {
        SlotRef::Number(other) => other == number,
        _ => false,
    }
}

fn is_words(cells: &CellColumns, cell: Cell, text: &Text) -> bool
    ensures { IsTrue result → content_at (cells_only cells.now) cell
        ≡ Content.Constant (Value.Words text.now) }
{
    match cells.look(cell) {
        SlotRef::Words(other) => other.bytes() == text.bytes(),
        _ => false,
    }
}

fn is_bad(cells: &CellColumns, cell: Cell, fault: Fault) -> bool
    ensures { IsTrue result → content_at (cells_only cells.now) cell
        ≡ Content.Constant (Value.Bad fault) }
{
    match cells.look(cell) {
        SlotRef::Bad(other) => other == fault,
        _ => false,
    }
}

fn is_raw(cells: &CellColumns, cell: Cell, text: &Text) -> bool
    ensures { IsTrue result → content_at (cells_only cells.now) cell ≡ Content.Raw text.now }
{
    match cells.look(cell) {
        SlotRef::Raw(other) => other.bytes() == text.bytes(),
        _ => false,
    }
}

/// The number of a cell's column among those of all sheets.
fn column_number(cell: Cell) -> usize
    ensures number { result ≡ number_of cell.sheet cell.col }
    ensures place { IsPlace cell }
{
    usize::from(LAST_COL) * usize::from(cell.sheet) + (usize::from(cell.col) - 1)
}

/// The cell of the same column in another row.
fn in_row(cell: Cell, row: u32) -> Cell
    requires from { 1 ≤ row }
    requires to { row ≤ LAST_ROW }
    ensures { result ≡ in_row cell row }
{
    Cell {
        sheet: cell.sheet,
        col: cell.col,
        row,
    }
}
