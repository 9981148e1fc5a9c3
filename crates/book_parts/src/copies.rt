//! The contents of an area as they are elsewhere.
ghost use Rattle.std.specs.Prelude.{◌≡◌, ◌≤◌, ◌++◌, true, map, IfOk, OnOk};
ghost use Rattle.calc_addr.specs.Places.{column_places, covers};
ghost use Rattle.calc_addr.specs.ValidReferences.{is_rectangle};
ghost use Rattle.calc_model.specs.CellEdits.{area_at, copied_entry, equal_place, within_area};
ghost use Rattle.cell_columns.specs.Cells.{cells_only};
ghost use Rattle.book_parts.specs.Pieces.{GoAlike, all_entries, copied_cells, entries_of};

use crate::pieces::{Piece, last_alike};
use calc_addr::{Area, Cell, LAST_COL, LAST_ROW, NoMemory, Run};
use cell_columns::CellColumns;
use std::alloc::Global;

/// What the cells of an area hold that aren't empty, moved to the equal places of the area that begins
/// at `to`, as pieces: each for the neighbouring rows of a column with formulas of one group, with equal
/// constants, or with nothing. For each it takes the logarithm of the blocks and groups of its column, and
/// is linear in its content; each further row of equal constants takes the logarithm of the blocks.
pub(crate) fn copied_pieces(
    alloc: Global,
    cells: &CellColumns,
    area: Area,
    to: Cell,
) -> Result<Vec<Piece>, NoMemory>
    requires place { is_rectangle (area_at area to) ≡ true }
    ensures { IfOk result (λ pieces. all_entries pieces.items
        ≡ map (copied_entry area to) (within_area cells.now area)) }
{
    cells.are_book();
    let mut pieces = Vec::new(alloc);
    for col in area.first_col..area.last_col + 1 {
        push_column(alloc, cells, area, to, col, &mut pieces)?;
    }
    Ok(pieces)
}

/// Appends the pieces of a column of the area.
fn push_column(
    alloc: Global,
    cells: &CellColumns,
    area: Area,
    to: Cell,
    col: u16,
    pieces: &mut Vec<Piece>,
) -> Result<(), NoMemory>
    requires place { is_rectangle (area_at area to) ≡ true }
    requires from { area.first_col ≤ col }
    requires behind { col ≤ area.last_col }
    ensures { OnOk result (all_entries pieces.new.items ≡ all_entries pieces.old.items
        ++ copied_cells (cells_only cells.now) area to
        (column_places area.sheet col area.first_row area.last_row)) }
{
    let (sheet, last_row) = (area.sheet, area.last_row);
    let mut row = area.first_row;
    while row <= last_row {
        let cell = Cell { sheet, col, row };
        let last = last_alike(cells, cell, last_row);
        let piece = copied_piece(alloc, cells, area, to, cell, last)?;
        pieces.push(piece)?;
        row = last + 1;
    }
    Ok(())
}

/// The piece of a cell of the area and of those below it down to the last, whose contents become the same
/// wherever they go.
fn copied_piece(
    alloc: Global,
    cells: &CellColumns,
    area: Area,
    to: Cell,
    from: Cell,
    last: u32,
) -> Result<Piece, NoMemory>
    requires place { is_rectangle (area_at area to) ≡ true }
    requires inside { covers area from ≡ true }
    requires order { from.row ≤ last }
    requires behind { last ≤ area.last_row }
    requires alike { GoAlike (cells_only cells.now) from last }
    ensures { IfOk result (λ piece. entries_of piece ≡ copied_cells (cells_only cells.now) area to
        (column_places from.sheet from.col from.row last)) }
{
    let at = equal_place(area, to, from);
    let rows = Run {
        sheet: at.sheet,
        col: at.col,
        first: at.row,
        last: at.row + (last - from.row),
    };
    let content = cells.content(alloc, from)?;
    Ok(Piece {
        from,
        content,
        rows,
    })
}

/// The place of a cell of the area in the area of the same size that begins at `to`.
fn equal_place(area: Area, to: Cell, cell: Cell) -> Cell
    requires place { is_rectangle (area_at area to) ≡ true }
    requires inside { covers area cell ≡ true }
    ensures { result ≡ equal_place area to cell }
{
    Cell {
        sheet: to.sheet,
        col: to.col + (cell.col - area.first_col),
        row: to.row + (cell.row - area.first_row),
    }
}

/// The area of the same size that begins at `to`, which lies inside the sheet.
pub fn area_at(area: Area, to: Cell) -> Area
    requires { is_rectangle (area_at area to) ≡ true }
    ensures { result ≡ area_at area to }
{
    Area {
        sheet: to.sheet,
        first_col: to.col,
        last_col: to.col + (area.last_col - area.first_col),
        first_row: to.row,
        last_row: to.row + (area.last_row - area.first_row),
    }
}

/// Whether the area of the same size that begins at `to` lies inside the sheet.
pub fn lies_inside(area: Area, to: Cell) -> bool
    ensures { result ≡ is_rectangle (area_at area to) }
{
    to.col + (area.last_col - area.first_col) <= LAST_COL
        && to.row + (area.last_row - area.first_row) <= LAST_ROW
}
