ghost use Rattle.std.specs.Prelude.{◌≡◌, ◌≤◌, ℕ};
ghost use Rattle.calc_addr.specs.Places.{IsRectangle};
ghost use Rattle.calc_addr.specs.declared.cell.TheConstants.{LAST_ROW};
ghost use Rattle.calc_model.specs.Ears.{area_at, end_at};
ghost use Rattle.ears.specs.RunAreas.{LieInSheet, ear_below, has_step, hull, is_below, is_same_area, meets};

use calc_addr::Area;
use calc_model::Ear;

/// Neighbouring rows of a run, each by how many rows it lies below the run's first one.
#[derive(Clone, Copy, Debug, PartialEq, Eq)]
pub struct Steps {
    pub first: u32,
    pub last: u32,
}

/// Whether two areas have a cell in common.
pub fn meets(a: &Area, b: &Area) -> bool
    ensures { result ≡ meets a.now b.now }
{
    a.sheet == b.sheet
        && (a.first_col <= b.last_col && b.first_col <= a.last_col)
        && (a.first_row <= b.last_row && b.first_row <= a.last_row)
}

/// Whether two areas are one.
pub fn is_same_area(a: &Area, b: &Area) -> bool
    ensures { result ≡ is_same_area a.now b.now }
{
    a.sheet == b.sheet
        && (a.first_col == b.first_col && a.last_col == b.last_col)
        && (a.first_row == b.first_row && a.last_row == b.last_row)
}

/// The row of an end, so many rows below the first one of the run.
fn end_at(moves: bool, row: u32, step: u32) -> u32
    requires { end_at moves row step ≤ LAST_ROW }
    ensures { result ≡ end_at moves row step }
{
    if moves { row + step } else { row }
}

/// The area that the row reads which lies so many rows below the first one of the run.
pub fn area_at(ear: &Ear, step: u32) -> Area
    requires { IsRectangle (area_at ear.now step) }
    ensures { result ≡ area_at ear.now step }
{
    let area = &ear.area;
    Area {
        sheet: area.sheet,
        first_col: area.first_col,
        last_col: area.last_col,
        first_row: end_at(ear.first_moves, area.first_row, step),
        last_row: end_at(ear.last_moves, area.last_row, step),
    }
}

/// The smallest area that has those of the first row, of the row `steps` rows below it, and of the rows
/// between.
pub fn hull(ear: &Ear, steps: u32) -> Area
    requires { LieInSheet steps ear.now }
    ensures { result ≡ hull ear.now steps }
{
    let area = &ear.area;
    Area {
        sheet: area.sheet,
        first_col: area.first_col,
        last_col: area.last_col,
        first_row: area.first_row,
        last_row: end_at(ear.last_moves, area.last_row, steps),
    }
}

/// The ear of the rows from the one on that lies so many rows below the first one of the run.
pub fn ear_below(ear: &Ear, step: u32) -> Ear
    requires { IsRectangle (area_at ear.now step) }
    ensures { result ≡ ear_below ear.now step }
{
    Ear {
        area: area_at(ear, step),
        first_moves: ear.first_moves,
        last_moves: ear.last_moves,
    }
}

/// The rows, from the first one to that `steps` rows below it, whose areas have a cell of the area.
pub fn steps_meeting(ear: &Ear, steps: u32, area: &Area) -> Option<Steps>
    requires { LieInSheet steps ear.now }
    ensures { (step : ℕ) → step ≤ steps
        → has_step result step ≡ meets (area_at ear.now step) area.now }
{
    let read = &ear.area;
    if read.sheet != area.sheet
        || read.first_col > area.last_col
        || area.first_col > read.last_col
        || read.first_row > area.last_row
    {
        return None;
    }
    let first = if read.last_row >= area.first_row {
        0
    } else if ear.last_moves {
        area.first_row - read.last_row
    } else {
        return None;
    };
    let last = if ear.first_moves {
        steps.min(area.last_row - read.first_row)
    } else {
        steps
    };
    Some(Steps { first, last })
}

/// The row of an end, so many rows below the first one of the run, which may lie below the sheet.
fn end_below(moves: bool, row: u32, step: u32) -> u32
    requires row { row ≤ LAST_ROW }
    requires step { step ≤ LAST_ROW }
    ensures { result ≡ end_at moves row step }
{
    if moves { row + step } else { row }
}

/// Whether an ear is that of the rows from the one on that lies so many rows below the first one of the
/// run of another ear.
pub fn is_below(next: &Ear, ear: &Ear, step: u32) -> bool
    requires { step ≤ LAST_ROW }
    ensures { result ≡ is_below next.now ear.now step }
{
    let (read, area) = (&next.area, &ear.area);
    next.first_moves == ear.first_moves
        && next.last_moves == ear.last_moves
        && (read.sheet == area.sheet)
        && (read.first_col == area.first_col && read.last_col == area.last_col)
        && read.first_row == end_below(ear.first_moves, area.first_row, step)
        && read.last_row == end_below(ear.last_moves, area.last_row, step)
}
