//! Waves of whole parts of runs, row by row, as far as all that their rows read has waves.
ghost use Rattle.std.specs.Prelude.{◌≡◌, ◌≤◌, ◌<◌, ◌+◌, ◌-◌, ℕ, length, true, IfOk, IfSome, OnOk};
ghost use Rattle.std.specs.List.{AllPairs};
ghost use Rattle.calc_addr.specs.declared.cell.TheConstants.{LAST_ROW};
ghost use Rattle.calc_addr.specs.Places.{IsBefore};
ghost use Rattle.calc_model.specs.Ears.{area_at, end_at};
ghost use Rattle.calc_model.specs.Listeners.{IsHeard};
ghost use Rattle.cell_runs.specs.CellLists.{all_cells};
ghost use Rattle.dirty_spread.specs.ByParts.{AreRowsAt, AreRowsOf, areas_below};
ghost use Rattle.dirty_spread.specs.Levels.{AreUnderWay, IsLooked};
ghost use Rattle.dirty_spread.specs.Waves.{has};

use crate::leveling::read_areas;
use crate::look::{CIRCULAR, Cursor, NEW, Seen, look};
use calc_addr::{Area, LAST_ROW, NoMemory, Run};
use calc_model::{Dependents, Ear, Part};
use cell_runs::CellRuns;
use std::alloc::Global;

/// Runs of no more cells than this are asked cell by cell what they read.
const FEW: usize = 7;

/// The row of an end, so many rows below the first one.
fn end_at(moves: bool, row: u32, step: u32) -> u32
    requires row { row ≤ LAST_ROW }
    requires step { step ≤ LAST_ROW }
    ensures { result ≡ end_at moves row step }
{
    if moves { row + step } else { row }
}

/// The area that an ear has so many rows below the first one, where it is one of the sheet.
fn area_at(ear: &Ear, step: u32) -> Option<Area>
    requires { step ≤ LAST_ROW }
    ensures { IfSome result (λ area. area ≡ area_at ear.now step) }
{
    let area = &ear.area;
    let first_row = end_at(ear.first_moves, area.first_row, step);
    let last_row = end_at(ear.last_moves, area.last_row, step);
    if first_row > last_row || last_row > LAST_ROW {
        return None;
    }
    Some(Area {
        sheet: area.sheet,
        first_col: area.first_col,
        last_col: area.last_col,
        first_row,
        last_row,
    })
}

/// The areas that a row reads so many rows below the first one, or false where one isn't of the
/// sheet.
fn row_areas(ears: &[Ear], step: u32, areas: &mut Vec<Area>) -> Result<bool, NoMemory>
    requires { step ≤ LAST_ROW }
    ensures { IfOk result (λ known. known ≡ true →
        areas.new.items ≡ areas_below ears.now step) }
{
    areas.clear();
    for ear in ears {
        match area_at(ear, step) {
            Some(area) => areas.push(area)?,
            None => return Ok(false),
        }
    }
    Ok(true)
}

/// Looks at areas, and answers only where all of them have waves and no circle.
fn look_whole(
    stale: &CellRuns,
    circles: &CellRuns,
    levels: &[usize],
    areas: &[Area],
) -> Option<Cursor>
    requires in_order { AllPairs IsBefore stale.now }
    requires circles { AllPairs IsBefore circles.now }
    requires size { length levels.now ≡ length stale.now }
    ensures { IfSome result (λ cursor. (length areas.now ≤ cursor.area)
        × IsLooked stale.now (has circles.now) areas.now levels.now cursor) }
{
    let start = Cursor {
        area: 0,
        next: 0,
        greatest: CIRCULAR,
    };
    match look(stale, circles, levels, areas, &start) {
        Seen::Settled(cursor) => Some(cursor),
        _ => None,
    }
}

/// Looks at what a row reads, and answers only where all of it has waves.
fn look_at_row(
    ears: &[Ear],
    step: u32,
    stale: &CellRuns,
    circles: &CellRuns,
    levels: &[usize],
    areas: &mut Vec<Area>,
) -> Result<Option<Cursor>, NoMemory>
    requires step { step ≤ LAST_ROW }
    requires in_order { AllPairs IsBefore stale.now }
    requires circles { AllPairs IsBefore circles.now }
    requires size { length levels.now ≡ length stale.now }
    ensures { IfOk result (λ found. IfSome found (λ cursor.
        (length (areas_below ears.now step) ≤ cursor.area) × IsLooked stale.now (has circles.now)
        (areas_below ears.now step) levels.now cursor)) }
{
    if !row_areas(ears, step, areas)? {
        return Ok(None);
    }
    Ok(look_whole(stale, circles, levels, areas))
}

/// Gives rows their waves that stand one behind the other in the list, from the first one on, while
/// all that they read has waves.
fn level_rows<H: Dependents>(
    place: usize,
    count: u32,
    ears: &[Ear],
    stale: &CellRuns,
    circles: &CellRuns,
    hub: &H,
    levels: &mut [usize],
    areas: &mut Vec<Area>,
) -> Result<(), NoMemory>
    requires most { count ≤ LAST_ROW }
    requires rows { AreRowsOf (H.areas hub.now) stale.now place count ears.now }
    requires under_way { AreUnderWay (H.areas hub.now) stale.now circles.now levels.old }
    ensures { OnOk result (AreUnderWay (H.areas hub.now) stale.now circles.now levels.new) }
{
    let _ = hub;
    for step in 0..count {
        let at = place + step as usize;
        if levels[at] == NEW {
            match look_at_row(ears, step, stale, circles, levels, areas)? {
                Some(cursor) => levels[at] = cursor.greatest + 1,
                None => return Ok(()),
            }
        }
    }
    Ok(())
}

/// Gives rows of a part their waves, from the first one on. The cells of its run stand in the list
/// from a place on.
fn level_part<H: Dependents>(
    part: Part,
    run: Run,
    place: usize,
    ears: &[Ear],
    stale: &CellRuns,
    circles: &CellRuns,
    hub: &H,
    levels: &mut [usize],
    areas: &mut Vec<Area>,
) -> Result<(), NoMemory>
    requires heard { IsHeard (H.areas hub.now) run ears.now part }
    requires rows { AreRowsAt stale.now run place }
    requires under_way { AreUnderWay (H.areas hub.now) stale.now circles.now levels.old }
    ensures { OnOk result (AreUnderWay (H.areas hub.now) stale.now circles.now levels.new) }
{
    let above = (part.run.first - run.first) as usize;
    let count = part.run.last - part.run.first + 1;
    let heard = &ears[part.from..part.to];
    level_rows(
        place + above,
        count,
        heard,
        stale,
        circles,
        hub,
        levels,
        areas,
    )
}

/// Gives cells their waves that stand one behind the other in the list, from the first one on,
/// while all that they read has waves.
fn level_cells<H: Dependents>(
    place: usize,
    count: usize,
    stale: &CellRuns,
    circles: &CellRuns,
    hub: &H,
    levels: &mut [usize],
    areas: &mut Vec<Area>,
) -> Result<(), NoMemory>
    requires ready { H.ready hub.now ≡ true }
    requires within { place + count ≤ length stale.now }
    requires under_way { AreUnderWay (H.areas hub.now) stale.now circles.now levels.old }
    ensures { OnOk result (AreUnderWay (H.areas hub.now) stale.now circles.now levels.new) }
{
    for at in place..place + count {
        if levels[at] == NEW {
            read_areas(stale, hub, at, areas)?;
            match look_whole(stale, circles, levels, areas) {
                Some(cursor) => levels[at] = cursor.greatest + 1,
                None => return Ok(()),
            }
        }
    }
    Ok(())
}

/// Gives cells of a run their waves, from the first one on, where the last one has none yet. The
/// run stands in the list from a place on.
fn level_run<H: Dependents>(
    alloc: Global,
    run: Run,
    place: usize,
    stale: &CellRuns,
    circles: &CellRuns,
    hub: &H,
    levels: &mut [usize],
    areas: &mut Vec<Area>,
) -> Result<(), NoMemory>
    requires ready { H.ready hub.now ≡ true }
    requires rows { AreRowsAt stale.now run place }
    requires under_way { AreUnderWay (H.areas hub.now) stale.now circles.now levels.old }
    ensures { OnOk result (AreUnderWay (H.areas hub.now) stale.now circles.now levels.new) }
{
    let steps = (run.last - run.first) as usize;
    if levels[place + steps] != NEW {
        return Ok(());
    }
    if steps < FEW {
        return level_cells(place, steps + 1, stale, circles, hub, levels, areas);
    }
    let mut parts = Vec::new(alloc);
    let mut ears = Vec::new(alloc);
    hub.parts(run, &mut parts, &mut ears)?;
    for part in parts.as_slice() {
        level_part(*part, run, place, &ears, stale, circles, hub, levels, areas)?;
    }
    Ok(())
}

/// How many cells a run has.
fn count_of(run: Run) -> usize
    ensures { result ≡ run.last + 1 - run.first }
{
    (run.last - run.first) as usize + 1
}

/// Gives cells their waves run by run, forwards.
fn level_forwards<H: Dependents>(
    alloc: Global,
    runs: &[Run],
    stale: &CellRuns,
    circles: &CellRuns,
    hub: &H,
    levels: &mut [usize],
) -> Result<(), NoMemory>
    requires ready { H.ready hub.now ≡ true }
    requires runs { all_cells runs.now ≡ stale.now }
    requires under_way { AreUnderWay (H.areas hub.now) stale.now circles.now levels.old }
    ensures { OnOk result (AreUnderWay (H.areas hub.now) stale.now circles.now levels.new) }
{
    let mut areas = Vec::new(alloc);
    let mut place = 0;
    for turn in 0..runs.len() {
        let run = runs[turn];
        level_run(alloc, run, place, stale, circles, hub, levels, &mut areas)?;
        place += count_of(run);
    }
    Ok(())
}

/// Gives cells their waves run by run, backwards.
fn level_backwards<H: Dependents>(
    alloc: Global,
    runs: &[Run],
    stale: &CellRuns,
    circles: &CellRuns,
    hub: &H,
    levels: &mut [usize],
) -> Result<(), NoMemory>
    requires ready { H.ready hub.now ≡ true }
    requires runs { all_cells runs.now ≡ stale.now }
    requires under_way { AreUnderWay (H.areas hub.now) stale.now circles.now levels.old }
    ensures { OnOk result (AreUnderWay (H.areas hub.now) stale.now circles.now levels.new) }
{
    let mut areas = Vec::new(alloc);
    let mut place = stale.len();
    let mut left = runs.len();
    while left > 0 {
        left -= 1;
        let run = runs[left];
        place -= count_of(run);
        level_run(alloc, run, place, stale, circles, hub, levels, &mut areas)?;
    }
    Ok(())
}

/// Gives stale cells their waves that can be gone down row by row, run by run, forwards and then
/// backwards, while all that they read has waves. The rows of a part of a run are asked together
/// what they read. It is linear in the cells and the stale cells that they read.
pub(crate) fn level_runs<H: Dependents>(
    alloc: Global,
    stale: &CellRuns,
    circles: &CellRuns,
    hub: &H,
    levels: &mut [usize],
) -> Result<(), NoMemory>
    requires ready { H.ready hub.now ≡ true }
    requires under_way { AreUnderWay (H.areas hub.now) stale.now circles.now levels.old }
    ensures { OnOk result (AreUnderWay (H.areas hub.now) stale.now circles.now levels.new) }
{
    level_forwards(alloc, stale.runs(), stale, circles, hub, levels)?;
    level_backwards(alloc, stale.runs(), stale, circles, hub, levels)
}
