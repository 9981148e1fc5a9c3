ghost use Rattle.std.specs.Prelude.{◌≡◌, ◌≤◌, ◌<◌, ◌↔◌, ℕ, false, length, true, IfOk, OnOk};
ghost use Rattle.calc_addr.specs.Places.{Place};
ghost use Rattle.calc_model.specs.Listeners.{ReachesArea, reads_one_of};
ghost use Rattle.dirty_spread.specs.Marking.{Marks, area_of, has_mark, is_in_any, reads_any_of};
ghost use Rattle.dirty_spread.specs.Spreading.{AreFormulas, AreStale, IsStale};

use crate::marking::{mark_areas, mark_run};
use crate::union::union_of_runs;
use calc_addr::{Area, NoMemory, Run};
use calc_model::{Dependents, MOST_CELLS};
use cell_runs::CellRuns;
use std::alloc::Global;

/// The area of a run's cells.
fn area_of(run: Run) -> Area
    ensures { result ≡ area_of run }
{
    Area {
        sheet: run.sheet,
        first_col: run.col,
        last_col: run.col,
        first_row: run.first,
        last_row: run.last,
    }
}

/// Marks the formula cells that read a cell of an area, and maybe others that reach one, and
/// appends runs of those that weren't marked.
fn follow<H: Dependents>(
    area: Area,
    formulas: &CellRuns,
    hub: &H,
    reached: &mut Vec<Run>,
    marks: &mut [bool],
    found: &mut Vec<Run>,
) -> Result<(), NoMemory>
    requires formulas { AreFormulas (H.areas hub.now) formulas.now }
    requires ready { H.ready hub.now ≡ true }
    requires size { length marks.old ≡ length formulas.now }
    ensures { OnOk result (Marks formulas.now
        (λ q. reads_one_of (H.areas hub.now) area q ≡ true) (ReachesArea (H.areas hub.now) area)
        marks.old marks.new found.old.items found.new.items) }
{
    reached.clear();
    hub.reached(area, reached)?;
    for run in reached.as_slice() {
        mark_run(formulas, run, marks, found)?;
    }
    Ok(())
}

/// The same for several areas.
fn follow_areas<H: Dependents>(
    areas: &[Area],
    formulas: &CellRuns,
    hub: &H,
    reached: &mut Vec<Run>,
    marks: &mut [bool],
    found: &mut Vec<Run>,
) -> Result<(), NoMemory>
    requires formulas { AreFormulas (H.areas hub.now) formulas.now }
    requires ready { H.ready hub.now ≡ true }
    requires size { length marks.old ≡ length formulas.now }
    ensures { OnOk result (Marks formulas.now
        (λ q. reads_any_of (H.areas hub.now) areas.now q ≡ true)
        (IsStale (H.areas hub.now) areas.now)
        marks.old marks.new found.old.items found.new.items) }
{
    for area in areas {
        follow(*area, formulas, hub, reached, marks, found)?;
    }
    Ok(())
}

/// Runs of the stale cells, each cell in one, found in the order in which they reach one another.
/// Nothing is marked before.
fn search<H: Dependents>(
    alloc: Global,
    touched: &[Area],
    formulas: &CellRuns,
    hub: &H,
    marks: &mut [bool],
) -> Result<Vec<Run>, NoMemory>
    requires formulas { AreFormulas (H.areas hub.now) formulas.now }
    requires ready { H.ready hub.now ≡ true }
    requires size { length marks.old ≡ length formulas.now }
    requires fresh { (i : ℕ) → has_mark marks.old i ≡ false }
    ensures { IfOk result (λ found. (q : Place) → (is_in_any q found.items ≡ true)
        ↔ IsStale (H.areas hub.now) touched.now q) }
{
    let mut found = Vec::new(alloc);
    mark_areas(formulas, touched, marks, &mut found)?;
    let mut head = found.len();
    let mut reached = Vec::new(alloc);
    follow_areas(touched, formulas, hub, &mut reached, marks, &mut found)?;
    while head < found.len() {
        let area = area_of(found[head]);
        head += 1;
        follow(area, formulas, hub, &mut reached, marks, &mut found)?;
    }
    Ok(found)
}

/// The formula cells that lie in a touched area or reach one by reading, each once, in the order of
/// cells. `workers` is how many threads may search; so far the calling one searches alone.
///
/// Each stale cell is asked for its readers once, in whole runs where they were found so. Beside
/// that it is linear in the runs of stale cells, with a sort of them, and takes a byte a formula
/// cell.
pub fn spread<H: Dependents>(
    alloc: Global,
    workers: u32,
    touched: &[Area],
    formulas: &CellRuns,
    hub: &H,
) -> Result<CellRuns, NoMemory>
    requires formulas { AreFormulas (H.areas hub.now) formulas.now }
    requires most { length formulas.now ≤ MOST_CELLS }
    requires ready { H.ready hub.now ≡ true }
    requires some { 1 ≤ workers }
    requires few { workers ≤ 64 }
    ensures { IfOk result (AreStale (H.areas hub.now) touched.now) }
{
    let _ = workers;
    let mut marks = vec![in alloc; false; formulas.len()]?;
    let found = search(alloc, touched, formulas, hub, &mut marks)?;
    union_of_runs(alloc, found)
}
