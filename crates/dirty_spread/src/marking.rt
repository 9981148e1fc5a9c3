ghost use Rattle.std.specs.Prelude.{◌≡◌, ◌≤◌, ◌<◌, ◌+◌, ◌-◌, ◌&&◌, false, true, length, OnOk, IfSome, IfNone};
ghost use Rattle.std.specs.List.{AllPairs, Contains};
ghost use Rattle.calc_addr.specs.Places.{IsBefore, Place, covers};
ghost use Rattle.run_unions.specs.Unions.{is_in};
ghost use Rattle.dirty_spread.specs.Marking.{IsFormulaIn, IsFormulaInAny, IsFront, Marks, MarksFront, has_mark};

use calc_addr::{Area, Cell, NoMemory, Run};
use cell_runs::CellRuns;

/// Marks places from one on, up to the first that is marked already, or up to an end, and gives the
/// place behind those that it marked.
fn mark_front(marks: &mut [bool], from: usize, end: usize) -> usize
    requires order { from ≤ end }
    requires within { end ≤ length marks.old }
    ensures from { from ≤ result }
    ensures end { result ≤ end }
    ensures front { IsFront marks.old marks.new from result }
    ensures stopped { result < end → has_mark marks.old result ≡ true }
{
    let mut at = from;
    while at < end && !marks[at] {
        marks[at] = true;
        at += 1;
    }
    at
}

/// Some of a run's rows, by how far they lie below the first one.
fn part_of(run: &Run, first: usize, last: usize) -> Run
    requires order { first ≤ last }
    requires within { run.now.first + last ≤ run.now.last }
    ensures { result ≡ record run.now {
      first = run.now.first + first;
      last = run.now.first + last;
    } }
{
    Run {
        sheet: run.sheet,
        col: run.col,
        first: run.first + first as u32,
        last: run.first + last as u32,
    }
}

/// Marks the places of a run's rows from a place on, and appends runs of the rows that weren't
/// marked.
fn mark_rows(
    run: &Run,
    from: usize,
    marks: &mut [bool],
    found: &mut Vec<Run>,
) -> Result<(), NoMemory>
    requires { from + (run.now.last + 1 - run.now.first) ≤ length marks.old }
    ensures { OnOk result (MarksFront run.now from (run.now.last + 1 - run.now.first)
        marks.old marks.new found.old.items found.new.items) }
{
    let end = from + (run.last - run.first) as usize + 1;
    let mut next = from;
    while next < end {
        let stop = mark_front(marks, next, end);
        if next < stop {
            found.push(part_of(run, next - from, stop - 1 - from))?;
            next = stop;
        } else {
            next += 1;
        }
    }
    Ok(())
}

/// Marks the cells of a run of formula cells, and appends runs of those that weren't marked.
pub(crate) fn mark_run(
    formulas: &CellRuns,
    run: &Run,
    marks: &mut [bool],
    found: &mut Vec<Run>,
) -> Result<(), NoMemory>
    requires in_order { AllPairs IsBefore formulas.now }
    requires formulas { (q : Place) → is_in q run.now ≡ true → Contains formulas.now q }
    requires size { length marks.old ≡ length formulas.now }
    ensures { OnOk result (Marks formulas.now (λ q. is_in q run.now ≡ true)
        (λ q. is_in q run.now ≡ true) marks.old marks.new found.old.items found.new.items) }
{
    let first = Cell {
        sheet: run.sheet,
        col: run.col,
        row: run.first,
    };
    match formulas.place(first) {
        Some(from) => mark_rows(run, from, marks, found),
        None => Ok(()),
    }
}

/// The rows of a run that lie in an area, if there are any.
fn part_in(run: &Run, area: &Area) -> Option<Run>
    ensures some { IfSome result (λ part. (q : Place) →
        is_in q part ≡ (is_in q run.now && covers area.now q)) }
    ensures none { IfNone result ((q : Place) → (is_in q run.now && covers area.now q) ≡ false) }
{
    let first = run.first.max(area.first_row);
    let last = run.last.min(area.last_row);
    let is_column_in = area.first_col <= run.col && run.col <= area.last_col;
    if run.sheet == area.sheet && is_column_in && first <= last {
        Some(Run {
            sheet: run.sheet,
            col: run.col,
            first,
            last,
        })
    } else {
        None
    }
}

/// Marks a cell, if it is a formula cell, and appends it if it wasn't marked.
fn mark_cell(
    formulas: &CellRuns,
    area: &Area,
    marks: &mut [bool],
    found: &mut Vec<Run>,
) -> Result<(), NoMemory>
    requires in_order { AllPairs IsBefore formulas.now }
    requires size { length marks.old ≡ length formulas.now }
    requires column { area.now.first_col ≡ area.now.last_col }
    requires row { area.now.first_row ≡ area.now.last_row }
    ensures { OnOk result (Marks formulas.now (IsFormulaIn formulas.now area.now)
        (IsFormulaIn formulas.now area.now) marks.old marks.new found.old.items found.new.items) }
{
    let cell = Cell {
        sheet: area.sheet,
        col: area.first_col,
        row: area.first_row,
    };
    let run = Run {
        sheet: area.sheet,
        col: area.first_col,
        first: area.first_row,
        last: area.first_row,
    };
    match formulas.place(cell) {
        Some(from) => mark_rows(&run, from, marks, found),
        None => Ok(()),
    }
}

/// Marks the formula cells of an area, and appends runs of those that weren't marked. Linear in the
/// runs of formula cells, or logarithmic for an area of one cell.
fn mark_area(
    formulas: &CellRuns,
    area: &Area,
    marks: &mut [bool],
    found: &mut Vec<Run>,
) -> Result<(), NoMemory>
    requires in_order { AllPairs IsBefore formulas.now }
    requires size { length marks.old ≡ length formulas.now }
    ensures { OnOk result (Marks formulas.now (IsFormulaIn formulas.now area.now)
        (IsFormulaIn formulas.now area.now) marks.old marks.new found.old.items found.new.items) }
{
    if area.first_col == area.last_col && area.first_row == area.last_row {
        return mark_cell(formulas, area, marks, found);
    }
    for run in formulas.runs() {
        if let Some(part) = part_in(run, area) {
            mark_run(formulas, &part, marks, found)?;
        }
    }
    Ok(())
}

/// The same for several areas.
pub(crate) fn mark_areas(
    formulas: &CellRuns,
    areas: &[Area],
    marks: &mut [bool],
    found: &mut Vec<Run>,
) -> Result<(), NoMemory>
    requires in_order { AllPairs IsBefore formulas.now }
    requires size { length marks.old ≡ length formulas.now }
    ensures { OnOk result (Marks formulas.now (IsFormulaInAny formulas.now areas.now)
        (IsFormulaInAny formulas.now areas.now) marks.old marks.new
        found.old.items found.new.items) }
{
    for area in areas {
        mark_area(formulas, area, marks, found)?;
    }
    Ok(())
}
