ghost use Rattle.std.specs.Prelude.{◌≡◌, ◌≤◌, [], length, true, false, None, IfOk, OnOk};
ghost use Rattle.std.specs.List.{AllPairs};
ghost use Rattle.calc_addr.specs.Places.{IsBefore, Place};
ghost use Rattle.calc_model.specs.Stale.{is_formula_cell};
ghost use Rattle.dirty_spread.specs.Waves.{has};
ghost use Rattle.formula_listeners.specs.Held.{HoldsReads};
ghost use Rattle.formula_results.specs.Results.{results_of};
ghost use Rattle.listener_hub.specs.Hubs.{areas_read};
ghost use Rattle.recalc.specs.Evaluating.{CanFork, Spends};
ghost use Rattle.recalc.specs.Recalculation.{AreRight, beside};
ghost use Rattle.recalc.specs.Units.{HaveStaleUnits};

use crate::recalculating::{Evaluated, recalculate};
use book_parts::BookParts;
use calc_addr::NoMemory;
use calc_io::Gate;
use calc_model::Steps;
use cell_runs::CellRuns;
use formula_results::FormulaResults;
use listener_hub::Hub;
use std::alloc::Global;
use std::marker::Model;
use std::sync::ledger::Ledger;

/// What a recalculation did.
#[derive(Clone, Copy, Debug, PartialEq, Eq)]
pub struct Recalculated {
    /// How many formulas were stale.
    pub stale: u64,
    /// How many units they were: parts of a wave, of at most [`UNIT_ROWS`](crate::UNIT_ROWS) neighbouring
    /// rows of one relative form.
    pub units: u64,
}

/// The results of a book's formulas, and the list of those formulas that reach a circle, which have none.
/// Contracts see both.
#[derive(Drop)]
pub struct StoredResults {
    results: FormulaResults,
    circles: CellRuns,
}

impl Model for StoredResults {
    ghost use Rattle.recalc.specs.Recalculation.{Stored};

    ghost Value = { Stored };

    ghost view = { λ s. record { results = s.results; circles = s.circles } };
}

impl StoredResults {
    /// No result, and no circle.
    pub fn new(alloc: Global) -> StoredResults
        ensures results { (q : Place) → results_of result.results q ≡ None }
        ensures circles { result.circles ≡ [] }
    {
        StoredResults {
            results: FormulaResults::new(alloc),
            circles: CellRuns::new(alloc),
        }
    }

    /// The results, which say what the cells show.
    pub fn results(&self) -> &FormulaResults
        ensures { result.now ≡ self.now.results }
    {
        &self.results
    }

    /// Calculates the stale formulas of a book again, over the results of the others, unit after unit, each
    /// of which enters the gate. It counts a step for each formula that it evaluates, and those that reach a
    /// circle have no result afterwards. Where memory is refused, some stale formulas may have no result.
    /// Linear in the stale formulas and what they read, and in the list of circles. `workers` is how many
    /// threads may calculate; so far the calling one calculates alone.
    pub fn recalculate<G: Gate + Sync, L: Ledger>(
        &mut self,
        alloc: Global,
        workers: u32,
        parts: &BookParts,
        hub: &Hub,
        stale: &CellRuns,
        gate: &G,
        steps: &mut Steps<L>,
    ) -> Result<Recalculated, NoMemory>
        requires some { 1 ≤ workers }
        requires few { workers ≤ 64 }
        requires holds { HoldsReads (areas_read hub.now) parts.now }
        requires ready { hub.now.spent ≡ false }
        requires in_order { AllPairs IsBefore stale.now }
        requires formulas { (q : Place) → has stale.now q ≡ true
            → is_formula_cell parts.now q ≡ true }
        requires right { AreRight parts.now self.old (beside stale.now) }
        requires room { CanFork steps.old }
        ensures count { IfOk result (λ done. done.stale ≡ length stale.now) }
        ensures units { IfOk result (λ done. HaveStaleUnits parts.now stale.now done.units) }
        ensures right { OnOk result (AreRight parts.now self.new (λ q. true)) }
        ensures kept { AreRight parts.now self.new (beside stale.now) }
        ensures steps { OnOk result (Spends steps.old steps.new (length stale.now)) }
        ensures parts { steps.new.parts ≡ steps.old.parts }
    {
        let _ = workers;
        let results = &mut self.results;
        let Evaluated { circles, units } = recalculate(
            alloc,
            parts,
            hub,
            stale,
            &self.circles,
            gate,
            results,
            steps,
        )?;
        self.circles = circles;
        Ok(Recalculated {
            stale: stale.len() as u64,
            units,
        })
    }
}
