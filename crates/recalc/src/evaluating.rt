//! Formulas that are evaluated, all that they read being known.
ghost use Rattle.std.specs.Prelude.{◌≡◌, ◌≤◌, ◌<◌, ◌+◌, ◌-◌, length, true, false, IfOk, OnOk};
ghost use Rattle.std.specs.List.{All};
ghost use Rattle.calc_addr.specs.Places.{IsRows, Place};
ghost use Rattle.calc_model.specs.Results.{IsSound};
ghost use Rattle.cell_runs.specs.CellLists.{all_cells};
ghost use Rattle.formula_results.specs.Results.{results_of};
ghost use Rattle.run_unions.specs.Unions.{is_in};
ghost use Rattle.book_parts.specs.Runs.{IsCodedIn};
ghost use Rattle.dirty_spread.specs.Marking.{is_in_any};
ghost use Rattle.recalc.specs.CodedUnits.{all_rows_of, rows_of};
ghost use Rattle.recalc.specs.Units.{HasUnits};
ghost use Rattle.recalc.specs.Evaluating.{AreEvaluated, AreReady, HasRoomFor, KeepsOthers, Spends};

use crate::units::{Unit, find_units, rows_of};
use crate::value::value_of;
use book_parts::BookParts;
use calc_addr::{Cell, NoMemory, Run};
use calc_io::Gate;
use calc_model::{CodeId, Steps};
use cell_columns::{Coded, CodedGroups};
use formula_code::{CodeTable, forms_are_trees};
use formula_results::FormulaResults;
use std::alloc::Global;
use std::sync::ledger::Ledger;

/// Evaluates the formulas of a run, which have one code. Their results go to their column at once.
fn evaluate_run<L: Ledger>(
    alloc: Global,
    parts: &BookParts,
    codes: &CodeTable,
    code: CodeId,
    run: Run,
    results: &mut FormulaResults,
    steps: &mut Steps<L>,
) -> Result<(), NoMemory>
    requires coded { (q : Place) → is_in q run ≡ true → IsCodedIn parts.now q codes.now code }
    requires sound { IsSound parts.now (results_of results.old) }
    requires ready { AreReady parts.now (results_of results.old) (λ q. is_in q run) }
    requires room { HasRoomFor steps.old (run.last + 1 - run.first) }
    ensures done { OnOk result
        (AreEvaluated parts.now (results_of results.new) (λ q. is_in q run)) }
    ensures others { KeepsOthers (λ q. is_in q run)
        (results_of results.old) (results_of results.new) }
    ensures steps { OnOk result (Spends steps.old steps.new (run.last + 1 - run.first)) }
    ensures parts { steps.new.parts ≡ steps.old.parts }
{
    let Run {
        sheet,
        col,
        first,
        last,
    } = run;
    let mut values = Vec::new(alloc);
    for row in first..last + 1 {
        let home = Cell { sheet, col, row };
        let formula = Coded { codes, id: code };
        let value = value_of(alloc, parts, results, home, formula, steps)?;
        values.push(value)?;
    }
    results.set_run(run, values)
}

/// Evaluates the formulas of units, of which none reads one of another, and gives how many units they are.
fn evaluate_units<G: Gate, L: Ledger>(
    alloc: Global,
    parts: &BookParts,
    codes: &CodeTable,
    units: &[Unit],
    gate: &G,
    results: &mut FormulaResults,
    steps: &mut Steps<L>,
) -> Result<u64, NoMemory>
    requires rows { All (λ u. IsRows (rows_of u)) units.now }
    requires coded { All (λ u. (q : Place) → is_in q (rows_of u) ≡ true
        → IsCodedIn parts.now q codes.now u.code) units.now }
    requires sound { IsSound parts.now (results_of results.old) }
    requires ready { AreReady parts.now (results_of results.old)
        (λ q. is_in_any q (all_rows_of units.now)) }
    requires room { HasRoomFor steps.old (length (all_cells (all_rows_of units.now))) }
    ensures count { IfOk result (λ count. count ≡ length units.now) }
    ensures done { OnOk result (AreEvaluated parts.now (results_of results.new)
        (λ q. is_in_any q (all_rows_of units.now))) }
    ensures others { KeepsOthers (λ q. is_in_any q (all_rows_of units.now))
        (results_of results.old) (results_of results.new) }
    ensures steps { OnOk result (Spends steps.old steps.new
        (length (all_cells (all_rows_of units.now)))) }
    ensures parts { steps.new.parts ≡ steps.old.parts }
{
    for number in 0..units.len() {
        gate.enter(number as u64);
        let unit = units[number];
        let run = rows_of(&unit);
        evaluate_run(alloc, parts, codes, unit.code, run, results, steps)?;
    }
    Ok(units.len() as u64)
}

/// Evaluates the formulas of a wave, given by its runs, and gives how many units it has. `units` takes them
/// in the place of others, so that no wave asks for memory where one before it had more.
pub(crate) fn evaluate_wave<G: Gate, L: Ledger>(
    alloc: Global,
    parts: &BookParts,
    wave: &[Run],
    gate: &G,
    units: &mut Vec<Unit>,
    results: &mut FormulaResults,
    steps: &mut Steps<L>,
) -> Result<u64, NoMemory>
    requires sound { IsSound parts.now (results_of results.old) }
    requires ready { AreReady parts.now (results_of results.old) (λ q. is_in_any q wave.now) }
    requires room { HasRoomFor steps.old (length (all_cells wave.now)) }
    ensures done { OnOk result
        (AreEvaluated parts.now (results_of results.new) (λ q. is_in_any q wave.now)) }
    ensures others { KeepsOthers (λ q. is_in_any q wave.now)
        (results_of results.old) (results_of results.new) }
    ensures units { IfOk result (HasUnits parts.now (all_cells wave.now)) }
    ensures steps { OnOk result (Spends steps.old steps.new (length (all_cells wave.now))) }
    ensures parts { steps.new.parts ≡ steps.old.parts }
{
    let CodedGroups { codes, groups } = parts.coded();
    codes.are_apart();
    forms_are_trees();
    find_units(groups, wave, units)?;
    evaluate_units(alloc, parts, codes, units, gate, results, steps)
}
