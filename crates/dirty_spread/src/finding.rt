//! Places of cells in lists of cells.
ghost use Rattle.std.specs.Prelude.{◌≡◌, ◌≤◌, ◌↔◌, false, length, IsTrue};
ghost use Rattle.std.specs.List.{AllPairs};
ghost use Rattle.calc_addr.specs.Places.{IsBefore, covers};
ghost use Rattle.dirty_spread.specs.Finding.{IsFirstFrom, IsNextIn, IsSkip};

use calc_addr::{Area, Cell};
use cell_runs::CellRuns;

/// Whether the first cell comes before the second in the order of cells.
fn is_before(first: &Cell, second: &Cell) -> bool
    ensures { IsTrue result ↔ IsBefore first.now second.now }
{
    if first.sheet != second.sheet {
        return first.sheet < second.sheet;
    }
    if first.col != second.col {
        return first.col < second.col;
    }
    first.row < second.row
}

/// The place of the first cell of a list that isn't before a cell, or how many there are. It takes
/// the logarithm of the cells, times that of the runs.
fn first_from(cells: &CellRuns, cell: &Cell) -> usize
    requires { AllPairs IsBefore cells.now }
    ensures { IsFirstFrom cells.now cell.now result }
{
    let mut low = 0;
    let mut high = cells.len();
    while low < high {
        let middle = low + (high - low) / 2;
        match cells.cell(middle) {
            Some(found) if is_before(&found, cell) => low = middle + 1,
            _ => high = middle,
        }
    }
    low
}

/// The cell of an area from which on cells behind one that isn't in it may be, if there are any.
fn skip(area: &Area, cell: &Cell) -> Option<Cell>
    requires { covers area.now cell.now ≡ false }
    ensures { IsSkip area.now cell.now result }
{
    let before = cell.sheet < area.sheet || cell.sheet == area.sheet && cell.col < area.first_col;
    let above = cell.sheet == area.sheet && cell.col <= area.last_col && cell.row < area.first_row;
    if before {
        return Some(Cell {
            sheet: area.sheet,
            col: area.first_col,
            row: area.first_row,
        });
    }
    if above {
        return Some(Cell {
            sheet: area.sheet,
            col: cell.col,
            row: area.first_row,
        });
    }
    if cell.sheet == area.sheet && cell.col < area.last_col {
        return Some(Cell {
            sheet: area.sheet,
            col: cell.col + 1,
            row: area.first_row,
        });
    }
    None
}

/// The place of the first cell of an area from a place of the list on, or how many cells there are.
/// It skips what lies between two columns of the area by a search.
pub(crate) fn next_of(cells: &CellRuns, area: &Area, from: usize) -> usize
    requires in_order { AllPairs IsBefore cells.now }
    requires within { from ≤ length cells.now }
    ensures from { from ≤ result }
    ensures next { IsNextIn cells.now area.now from result }
{
    let mut at = from;
    while let Some(cell) = cells.cell(at) {
        if area.covers(cell) {
            return at;
        }
        match skip(area, &cell) {
            Some(next) => at = first_from(cells, &next),
            None => return cells.len(),
        }
    }
    at
}

/// The same, found at once where the area's first cell stands in the list from that place on.
pub(crate) fn next_in(cells: &CellRuns, area: &Area, from: usize) -> usize
    requires in_order { AllPairs IsBefore cells.now }
    requires within { from ≤ length cells.now }
    ensures from { from ≤ result }
    ensures next { IsNextIn cells.now area.now from result }
{
    let first = Cell {
        sheet: area.sheet,
        col: area.first_col,
        row: area.first_row,
    };
    match cells.place(first) {
        Some(place) if place >= from => place,
        _ => next_of(cells, area, from),
    }
}
