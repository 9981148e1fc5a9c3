ghost use Rattle.std.specs.Prelude.{◌≡◌};
ghost use Rattle.calc_model.specs.Changes.{IsShift};
ghost use Rattle.calc_model.specs.Homes.{StaysDeleted, StaysInserted, home_after_deletion, home_after_insertion};

use calc_addr::Cell;

/// Where a cell goes when rows of a sheet are inserted.
pub fn home_after_insertion(sheet: u8, place: u32, count: u32, home: Cell) -> Cell
    requires shift { IsShift place count }
    requires stays { StaysInserted sheet place count home }
    ensures { result ≡ home_after_insertion sheet place count home }
{
    if home.sheet == sheet && place <= home.row {
        Cell {
            row: home.row + count,
            ..home
        }
    } else {
        home
    }
}

/// Where a cell goes when rows of a sheet are deleted.
pub fn home_after_deletion(sheet: u8, place: u32, count: u32, home: Cell) -> Cell
    requires shift { IsShift place count }
    requires stays { StaysDeleted sheet place count home }
    ensures { result ≡ home_after_deletion sheet place count home }
{
    if home.sheet == sheet && place <= home.row {
        Cell {
            row: home.row - count,
            ..home
        }
    } else {
        home
    }
}
