//! Waves of stale cells.
ghost use Rattle.std.specs.Prelude.{◌≡◌, ◌≤◌, ◌<◌, ◌+◌, ◌-◌, ◌/◌, ◌%◌, ◌^◌, ◌++◌, ◌∷◌, [], ℕ, length, true, IfOk, OnOk};
ghost use Rattle.std.specs.List.{All, AllPairs};
ghost use Rattle.calc_addr.specs.Places.{IsBefore};
ghost use Rattle.dirty_spread.specs.Finding.{at};
ghost use Rattle.dirty_spread.specs.Levels.{level};
ghost use Rattle.dirty_spread.specs.LevelLists.{IsOfLevel};
ghost use Rattle.dirty_spread.specs.Waves.{AreAll, AreWaves, IsInNone, problem_of};

use crate::level_lists::lists;
use crate::leveling::find_levels;
use crate::look::CIRCULAR;
use calc_addr::{NoMemory, Run};
use calc_model::Dependents;
use cell_runs::{CellRuns, WaveList};
use std::alloc::Global;

/// Appends the cell at a place.
fn push_place(stale: &CellRuns, place: usize, cells: &mut CellRuns) -> Result<(), NoMemory>
    requires within { place < length stale.now }
    requires before { All (λ q. IsBefore q (at stale.now place)) cells.old }
    ensures { OnOk result (cells.new ≡ cells.old ++ at stale.now place ∷ []) }
{
    match stale.cell(place) {
        Some(cell) => cells.push(Run {
            sheet: cell.sheet,
            col: cell.col,
            first: cell.row,
            last: cell.row,
        }),
        None => Ok(()),
    }
}

/// The cells that are in no wave.
fn left_over(alloc: Global, stale: &CellRuns, levels: &[usize]) -> Result<CellRuns, NoMemory>
    requires in_order { AllPairs IsBefore stale.now }
    requires size { length levels.now ≡ length stale.now }
    ensures { IfOk result (AreAll (IsOfLevel stale.now levels.now 2 (length stale.now))) }
{
    let mut cells = CellRuns::new(alloc);
    for place in 0..levels.len() {
        if levels[place] == CIRCULAR {
            push_place(stale, place, &mut cells)?;
        }
    }
    Ok(cells)
}

/// The waves in which stale formulas are calculated, and those of them that are in none.
#[derive(Debug, Drop)]
pub struct Waves {
    pub waves: WaveList,
    pub circular: CellRuns,
}

/// The waves of stale cells, none of which was looked at, by their levels.
fn order_with<H: Dependents>(
    alloc: Global,
    stale: &CellRuns,
    circles: &CellRuns,
    hub: &H,
    levels: &mut [usize],
) -> Result<Waves, NoMemory>
    requires in_order { AllPairs IsBefore stale.now }
    requires circles { AllPairs IsBefore circles.now }
    requires ready { H.ready hub.now ≡ true }
    requires size { length levels.old ≡ length stale.now }
    requires new { (i : ℕ) → level levels.old i ≡ 0 }
    ensures waves { IfOk result (λ w. AreWaves
        (problem_of (H.areas hub.now) stale.now circles.now) w.waves) }
    ensures circular { IfOk result (λ w. AreAll
        (IsInNone (problem_of (H.areas hub.now) stale.now circles.now)) w.circular) }
{
    find_levels(alloc, stale, circles, hub, levels)?;
    let waves = lists(alloc, stale, levels)?;
    let circular = left_over(alloc, stale, levels)?;
    Ok(Waves { waves, circular })
}

/// The waves of stale cells. Each one that reaches no circle stands in the first wave behind those
/// of all stale cells that it reads. `circles` has the circular cells beside the stale ones, and
/// may have stale ones too, of which it says nothing.
///
/// Where stale cells stand in long runs that can be gone down row by row, the hub is asked for the
/// parts of these runs alone. Each other stale cell is asked what it reads up to three times, and
/// once more for each cell that it is first to go on to. The stale cells of an area are gone over
/// once by each cell that reads it. Takes a few numbers a cell and a wave beside what it answers.
pub fn order<H: Dependents>(
    alloc: Global,
    stale: &CellRuns,
    circles: &CellRuns,
    hub: &H,
) -> Result<Waves, NoMemory>
    requires in_order { AllPairs IsBefore stale.now }
    requires circles { AllPairs IsBefore circles.now }
    requires ready { H.ready hub.now ≡ true }
    ensures waves { IfOk result (λ w. AreWaves
        (problem_of (H.areas hub.now) stale.now circles.now) w.waves) }
    ensures circular { IfOk result (λ w. AreAll
        (IsInNone (problem_of (H.areas hub.now) stale.now circles.now)) w.circular) }
{
    let mut levels = vec![in alloc; 0; stale.len()]?;
    order_with(alloc, stale, circles, hub, &mut levels)
}
