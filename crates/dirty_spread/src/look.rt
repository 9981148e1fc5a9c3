//! What a stale cell reads, looked at until a cell is met that has no wave yet.
ghost use Rattle.std.specs.Prelude.{◌≡◌, ◌≤◌, ◌<◌, false, length, true};
ghost use Rattle.std.specs.List.{AllPairs};
ghost use Rattle.calc_addr.specs.Places.{IsBefore, Place, covers};
ghost use Rattle.dirty_spread.specs.Finding.{IsLastAt, IsNextIn};
ghost use Rattle.dirty_spread.specs.Levels.{IsLooked, IsScan, IsSeen, level};
ghost use Rattle.dirty_spread.specs.Waves.{has};

use crate::circles::has_circle;
use crate::finding::{next_in, next_of};
use calc_addr::{Area, Cell};
use cell_runs::CellRuns;

/// The level of a cell that wasn't looked at.
pub(crate) const NEW: usize = 0;

/// The level of a cell in no wave.
pub(crate) const CIRCULAR: usize = 2;

/// The least level of a cell that has a wave.
pub(crate) const FIRST: usize = 3;

/// How far was looked: at the stale cells of the areas before one, and at those of that one before
/// a place. The greatest of their levels is kept, or 2.
#[derive(Clone, Copy)]
pub(crate) struct Cursor {
    pub area: usize,
    pub next: usize,
    pub greatest: usize,
}

/// A cell that is being looked at, by its place among the stale ones.
#[derive(Clone, Copy)]
pub(crate) struct Frame {
    pub place: usize,
    pub cursor: Cursor,
}

/// What was seen.
#[derive(Clone, Copy)]
pub(crate) enum Seen {
    /// All stale cells have waves, and the others show no circle.
    Settled(Cursor),
    /// The next one has no wave.
    Open(Cursor),
    /// A cell that isn't stale shows a circle.
    Circle,
}

/// Goes over the cells of an area from a place on while they have waves, and gives the place of the
/// first that hasn't, or how many cells there are, and the greatest level.
fn scan_all(
    cells: &CellRuns,
    levels: &[usize],
    area: &Area,
    from: usize,
    least: usize,
) -> (usize, usize)
    requires in_order { AllPairs IsBefore cells.now }
    requires size { length levels.now ≡ length cells.now }
    requires within { from ≤ length cells.now }
    ensures scan { IsScan cells.now levels.now area.now from least result.0 result.1 }
    ensures stopped { result.0 < length cells.now → level levels.now result.0 ≤ 2 }
{
    let mut place = next_in(cells, area, from);
    let mut greatest = least;
    while place < levels.len() && levels[place] >= FIRST {
        greatest = greatest.max(levels[place]);
        place = next_of(cells, area, place + 1);
    }
    (place, greatest)
}

/// The same for an area of one column, by the places of its first cell from there on, or one behind
/// all its cells, and of its last cell.
fn scan_column(
    cells: &CellRuns,
    levels: &[usize],
    area: &Area,
    first: usize,
    last: usize,
    least: usize,
) -> (usize, usize)
    requires in_order { AllPairs IsBefore cells.now }
    requires size { length levels.now ≡ length cells.now }
    requires column { area.now.first_col ≡ area.now.last_col }
    requires first { IsNextIn cells.now area.now first first }
    requires last { IsLastAt cells.now area.now last }
    ensures scan { IsScan cells.now levels.now area.now first least result.0 result.1 }
    ensures stopped { result.0 < length cells.now → level levels.now result.0 ≤ 2 }
{
    let mut place = first;
    let mut greatest = least;
    while place <= last && levels[place] >= FIRST {
        greatest = greatest.max(levels[place]);
        place += 1;
    }
    if place <= last {
        return (place, greatest);
    }
    (levels.len(), greatest)
}

/// The same for any area.
fn scan(
    cells: &CellRuns,
    levels: &[usize],
    area: &Area,
    from: usize,
    least: usize,
) -> (usize, usize)
    requires in_order { AllPairs IsBefore cells.now }
    requires size { length levels.now ≡ length cells.now }
    requires within { from ≤ length cells.now }
    ensures scan { IsScan cells.now levels.now area.now from least result.0 result.1 }
    ensures stopped { result.0 < length cells.now → level levels.now result.0 ≤ 2 }
{
    let is_row = area.first_row == area.last_row;
    if area.first_col != area.last_col {
        return scan_all(cells, levels, area, from, least);
    }
    let end = Cell {
        sheet: area.sheet,
        col: area.last_col,
        row: area.last_row,
    };
    match cells.place(end) {
        Some(last) => {
            let first = if is_row && from <= last {
                last
            } else {
                next_in(cells, area, from)
            };
            scan_column(cells, levels, area, first, last, least)
        }
        None if is_row => (levels.len(), least),
        None => scan_all(cells, levels, area, from, least),
    }
}

/// Looks at what a cell reads from a cursor on, until a cell is met that has no wave.
pub(crate) fn look(
    cells: &CellRuns,
    circles: &CellRuns,
    levels: &[usize],
    areas: &[Area],
    start: &Cursor,
) -> Seen
    requires in_order { AllPairs IsBefore cells.now }
    requires circles { AllPairs IsBefore circles.now }
    requires size { length levels.now ≡ length cells.now }
    requires looked { IsLooked cells.now (has circles.now)
        areas.now levels.now start.now }
    ensures { IsSeen cells.now (has circles.now)
        areas.now levels.now result }
{
    let mut cursor = *start;
    while cursor.area < areas.len() {
        let area = &areas[cursor.area];
        let (next, greatest) = scan(cells, levels, area, cursor.next, cursor.greatest);
        if next < levels.len() {
            return Seen::Open(Cursor {
                area: cursor.area,
                next,
                greatest,
            });
        }
        if has_circle(cells, circles, area) {
            return Seen::Circle;
        }
        cursor = Cursor {
            area: cursor.area + 1,
            next: 0,
            greatest,
        };
    }
    Seen::Settled(cursor)
}
