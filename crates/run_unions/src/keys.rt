ghost use Rattle.std.specs.Prelude.{◌≡◌, ◌≤◌, ◌<◌};
ghost use Rattle.calc_addr.specs.Places.{IsRows};
ghost use Rattle.run_unions.specs.Keys.{MOST, first_key, key_of, last_key, place_at};

use calc_addr::{Cell, LAST_COL, LAST_ROW, Run};

/// The number of a cell in the order of cells, counted from 0.
fn key_of(cell: &Cell) -> u64
    ensures key { result ≡ key_of cell.now }
    ensures within { result < MOST }
{
    let column = u64::from(cell.sheet) * u64::from(LAST_COL) + u64::from(cell.col - 1);
    column * u64::from(LAST_ROW) + u64::from(cell.row - 1)
}

/// The number of a run's first cell.
pub(crate) fn first_key(run: &Run) -> u64
    ensures key { result ≡ first_key run.now }
    ensures rows { IsRows run.now }
{
    key_of(&Cell {
        sheet: run.sheet,
        col: run.col,
        row: run.first,
    })
}

/// The number of a run's last cell.
pub(crate) fn last_key(run: &Run) -> u64
    ensures key { result ≡ last_key run.now }
    ensures order { first_key run.now ≤ result }
    ensures within { result < MOST }
{
    key_of(&Cell {
        sheet: run.sheet,
        col: run.col,
        row: run.last,
    })
}

/// The cell of a number.
pub(crate) fn cell_at(key: u64) -> Cell
    requires { key < MOST }
    ensures { result ≡ place_at key }
{
    let column = key / u64::from(LAST_ROW);
    Cell {
        sheet: (column / u64::from(LAST_COL)) as u8,
        col: (column % u64::from(LAST_COL)) as u16 + 1,
        row: (key % u64::from(LAST_ROW)) as u32 + 1,
    }
}
