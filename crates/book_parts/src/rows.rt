//! Rows that come between others.
ghost use Rattle.std.specs.Prelude.{◌≡◌, ◌≤◌};
ghost use Rattle.calc_model.specs.Changes.{IsShift};
ghost use Rattle.calc_model.specs.RowEdits.{is_pushed_out};

use calc_addr::{Area, LAST_COL, LAST_ROW, LAST_SHEET};
use cell_columns::CellColumns;

/// Rows of a sheet.
#[derive(Clone, Copy)]
pub(crate) struct Rows {
    pub(crate) sheet: u8,
    /// The first one.
    pub(crate) place: u32,
    pub(crate) count: u32,
}

/// Whether a cell that isn't empty would be pushed past the last row: whether one stands in the last rows.
pub(crate) fn is_pushed_out(cells: &CellColumns, rows: Rows) -> bool
    requires sheet { rows.sheet ≤ LAST_SHEET }
    requires rows { IsShift rows.place rows.count }
    ensures { result ≡ is_pushed_out rows.sheet rows.place rows.count cells.now }
{
    let last = Area {
        sheet: rows.sheet,
        first_col: 1,
        last_col: LAST_COL,
        first_row: rows.place.max(LAST_ROW + 1 - rows.count),
        last_row: LAST_ROW,
    };
    cells.are_book();
    cells.count_within(last) > 0
}
