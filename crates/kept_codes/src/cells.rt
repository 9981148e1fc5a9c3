//! The cells of numbered columns.
ghost use Rattle.std.specs.Prelude.{◌≡◌, ◌≤◌, ◌<◌};
ghost use Rattle.kept_codes.specs.Columns.{cell_in};

use calc_addr::{Cell, LAST_COL, LAST_ROW};

/// How many columns there are: sixteen sheets of 1,024.
pub const COLUMNS: usize = 16_384;

/// The cell of a column in a row, where column c of sheet s has the number 1024 * s + c - 1.
pub fn cell_in(number: usize, row: u32) -> Cell
    requires number { number < COLUMNS }
    requires from { 1 ≤ row }
    requires to { row ≤ LAST_ROW }
    ensures { result ≡ cell_in number row }
{
    let columns = usize::from(LAST_COL);
    Cell {
        sheet: (number / columns) as u8,
        col: (number % columns) as u16 + 1,
        row,
    }
}
