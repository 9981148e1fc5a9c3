//! A recalculation: the stale formulas lose their results and get them again, wave after wave.
ghost use Rattle.std.specs.Prelude.{◌≡◌, ◌&&◌, ◌||◌, length, not, true, false, OnOk, IfOk, if◌then◌else◌, None};
ghost use Rattle.std.specs.List.{AllPairs};
ghost use Rattle.calc_addr.specs.Places.{IsBefore, Place};
ghost use Rattle.calc_model.specs.Books.{IsBook};
ghost use Rattle.calc_model.specs.Grounded.{is_circular};
ghost use Rattle.calc_model.specs.Results.{ShowsAll, is_known};
ghost use Rattle.calc_model.specs.Stale.{is_formula_cell};
ghost use Rattle.dirty_spread.specs.Marking.{is_in_any};
ghost use Rattle.dirty_spread.specs.Waves.{has, problem_of};
ghost use Rattle.formula_listeners.specs.Held.{HoldsReads};
ghost use Rattle.formula_results.specs.Results.{results_of};
ghost use Rattle.listener_hub.specs.Hubs.{areas_read};
ghost use Rattle.recalc.specs.Evaluating.{AreBefore, CanFork, HasRoomFor, KeepsOthers, Spends};
ghost use Rattle.recalc.specs.Recalculation.{AreRight, beside, kept};
ghost use Rattle.recalc.specs.Units.{HaveStaleUnits};

use crate::evaluating::evaluate_wave;
use book_parts::BookParts;
use calc_addr::{Cell, NoMemory, Run};
use calc_io::Gate;
use calc_model::Steps;
use cell_runs::CellRuns;
use dirty_spread::{Waves, order, union_of_runs};
use formula_results::FormulaResults;
use listener_hub::Hub;
use std::alloc::Global;
use std::sync::ledger::Ledger;

/// Takes the results of the cells of runs away.
fn clear_runs(runs: &[Run], results: &mut FormulaResults) -> Result<(), NoMemory>
    ensures cleared { OnOk result ((q : Place) → results_of results.new q
        ≡ (if is_in_any q runs.now then None else results_of results.old q)) }
    ensures others { KeepsOthers (λ q. is_in_any q runs.now)
        (results_of results.old) (results_of results.new) }
{
    for run in runs {
        results.clear(*run)?;
    }
    Ok(())
}

/// The run of a cell.
fn run_of(cell: Cell) -> Run
    ensures { result ≡ record {
      sheet = cell.sheet;
      col = cell.col;
      first = cell.row;
      last = cell.row;
    } }
{
    Run {
        sheet: cell.sheet,
        col: cell.col,
        first: cell.row,
        last: cell.row,
    }
}

/// Whether the cell holds a formula and isn't stale.
fn is_kept(parts: &BookParts, stale: &CellRuns, cell: Cell) -> bool
    ensures { result ≡ (is_formula_cell parts.now cell && not (has stale.now cell)) }
{
    match parts.formula(cell) {
        Some(_) => stale.place(cell).is_none(),
        None => false,
    }
}

/// Runs of the cells of a list that hold formulas and aren't stale. Linear in the list, with the logarithm
/// of the runs for each cell.
fn kept_runs(
    alloc: Global,
    parts: &BookParts,
    stale: &CellRuns,
    cells: &CellRuns,
) -> Result<Vec<Run>, NoMemory>
    ensures { IfOk result (λ runs. (q : Place) → is_in_any q runs.items
        ≡ kept parts.now stale.now cells.now q) }
{
    let mut runs = Vec::new(alloc);
    for place in 0..cells.len() {
        if let Some(cell) = cells.cell(place) {
            if is_kept(parts, stale, cell) {
                runs.push(run_of(cell))?;
            }
        }
    }
    Ok(runs)
}

/// The cells of two lists.
fn joined(alloc: Global, one: &CellRuns, other: &CellRuns) -> Result<CellRuns, NoMemory>
    ensures in_order { IfOk result (λ cells. AllPairs IsBefore cells) }
    ensures cells { IfOk result (λ cells. (q : Place) → has cells q
        ≡ (has one.now q || has other.now q)) }
{
    let mut runs = Vec::new(alloc);
    runs.extend_from_slice(one.runs())?;
    runs.extend_from_slice(other.runs())?;
    union_of_runs(alloc, runs)
}

/// What an evaluation comes to: the formulas that reach a circle, and how many units there were.
pub(crate) struct Evaluated {
    pub(crate) circles: CellRuns,
    pub(crate) units: u64,
}

/// Evaluates the stale formulas, none of which has a result yet, wave after wave, and gives those that
/// reach a circle. The others that reach one are listed.
fn evaluate_waves<G: Gate, L: Ledger>(
    alloc: Global,
    parts: &BookParts,
    hub: &Hub,
    stale: &CellRuns,
    circles: &CellRuns,
    gate: &G,
    results: &mut FormulaResults,
    steps: &mut Steps<L>,
) -> Result<Evaluated, NoMemory>
    requires holds { HoldsReads (areas_read hub.now) parts.now }
    requires ready { hub.now.spent ≡ false }
    requires in_order { AllPairs IsBefore stale.now }
    requires circles { AllPairs IsBefore circles.now }
    requires formulas { (q : Place) → has stale.now q ≡ true → is_formula_cell parts.now q ≡ true }
    requires beside { (q : Place) → has stale.now q ≡ false
        → has circles.now q ≡ is_circular parts.now q }
    requires before { AreBefore parts.now (problem_of (areas_read hub.now) stale.now circles.now) 0
        (results_of results.old) }
    requires book { IsBook parts.now }
    requires room { HasRoomFor steps.old (length stale.now) }
    ensures values { OnOk result (ShowsAll parts.now (results_of results.new)) }
    ensures known { OnOk result ((q : Place) →
        is_known parts.now (results_of results.new) q ≡ not (is_circular parts.now q)) }
    ensures circles { IfOk result (λ done. (q : Place) → has done.circles q
        ≡ (has stale.now q && is_circular parts.now q)) }
    ensures others { KeepsOthers (has stale.now) (results_of results.old) (results_of results.new) }
    ensures units { IfOk result (λ done. HaveStaleUnits parts.now stale.now done.units) }
    ensures steps { OnOk result (Spends steps.old steps.new (length stale.now)) }
    ensures parts { steps.new.parts ≡ steps.old.parts }
{
    let Waves { waves, circular } = order(alloc, stale, circles, hub)?;
    let mut units = Vec::new(alloc);
    let mut count = 0;
    for k in 0..waves.len() {
        let wave = waves.wave(k);
        count += evaluate_wave(alloc, parts, wave, gate, &mut units, results, steps)?;
    }
    Ok(Evaluated {
        circles: circular,
        units: count,
    })
}

/// Calculates the stale formulas of a book again, over the results of the others and the list of those
/// among them that reach a circle, and gives the list of all formulas that reach one. Each stale formula is
/// evaluated once, after those that it reads. Where memory is refused, some stale formulas may have no
/// result.
pub(crate) fn recalculate<G: Gate, L: Ledger>(
    alloc: Global,
    parts: &BookParts,
    hub: &Hub,
    stale: &CellRuns,
    circles: &CellRuns,
    gate: &G,
    results: &mut FormulaResults,
    steps: &mut Steps<L>,
) -> Result<Evaluated, NoMemory>
    requires holds { HoldsReads (areas_read hub.now) parts.now }
    requires ready { hub.now.spent ≡ false }
    requires in_order { AllPairs IsBefore stale.now }
    requires formulas { (q : Place) → has stale.now q ≡ true → is_formula_cell parts.now q ≡ true }
    requires right { AreRight parts.now (record { results = results.old; circles = circles.now })
        (beside stale.now) }
    requires room { CanFork steps.old }
    ensures right { IfOk result (λ done. AreRight parts.now
        (record { results = results.new; circles = done.circles }) (λ q. true)) }
    ensures others { KeepsOthers (has stale.now) (results_of results.old) (results_of results.new) }
    ensures units { IfOk result (λ done. HaveStaleUnits parts.now stale.now done.units) }
    ensures steps { OnOk result (Spends steps.old steps.new (length stale.now)) }
    ensures parts { steps.new.parts ≡ steps.old.parts }
{
    parts.are_book();
    clear_runs(stale.runs(), results)?;
    let runs = kept_runs(alloc, parts, stale, circles)?;
    let outside = union_of_runs(alloc, runs)?;
    let Evaluated {
        circles: circular,
        units,
    } = evaluate_waves(alloc, parts, hub, stale, &outside, gate, results, steps)?;
    let circles = joined(alloc, &outside, &circular)?;
    Ok(Evaluated { circles, units })
}
