//! Circular cells of an area.
ghost use Rattle.std.specs.Prelude.{◌≡◌, ◌<◌, false, length, not, true};
ghost use Rattle.std.specs.List.{AllPairs};
ghost use Rattle.calc_addr.specs.Places.{IsBefore, Place};
ghost use Rattle.dirty_spread.specs.Finding.{IsCircleIn, at};
ghost use Rattle.dirty_spread.specs.Waves.{has};

use crate::finding::{next_in, next_of};
use calc_addr::{Area, Cell};
use cell_runs::CellRuns;

/// Whether the list hasn't the cell.
fn lacks(cells: &CellRuns, cell: Cell) -> bool
    ensures { result ≡ not (has cells.now cell) }
{
    match cells.place(cell) {
        Some(_) => false,
        None => true,
    }
}

/// Whether the list hasn't the circular cell at a place.
fn lacks_at(cells: &CellRuns, circles: &CellRuns, place: usize) -> bool
    requires { place < length circles.now }
    ensures { result ≡ not (has cells.now (at circles.now place)) }
{
    match circles.cell(place) {
        Some(cell) => lacks(cells, cell),
        None => false,
    }
}

/// Whether the area has one of the circular cells that isn't one of the list's. It goes over those
/// of the area.
fn has_one(cells: &CellRuns, circles: &CellRuns, area: &Area) -> bool
    requires in_order { AllPairs IsBefore circles.now }
    ensures yes { result ≡ true → (q : Place) × IsCircleIn cells.now circles.now area.now q }
    ensures no { result ≡ false → (q : Place) → IsCircleIn cells.now circles.now area.now q → ⊥ }
{
    let count = circles.len();
    let mut place = next_in(circles, area, 0);
    while place < count {
        if lacks_at(cells, circles, place) {
            return true;
        }
        place = next_of(circles, area, place + 1);
    }
    false
}

/// The same, at once where there are no circular cells.
pub(crate) fn has_circle(cells: &CellRuns, circles: &CellRuns, area: &Area) -> bool
    requires in_order { AllPairs IsBefore circles.now }
    ensures yes { result ≡ true → (q : Place) × IsCircleIn cells.now circles.now area.now q }
    ensures no { result ≡ false → (q : Place) → IsCircleIn cells.now circles.now area.now q → ⊥ }
{
    if circles.is_empty() {
        return false;
    }
    has_one(cells, circles, area)
}
