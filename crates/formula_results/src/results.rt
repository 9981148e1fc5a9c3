ghost use Rattle.std.specs.Prelude.{◌≡◌, ◌+◌, ◌-◌, None, true, IfSome, IfNone, OnOk, OnErr, vec_len};
ghost use Rattle.std.specs.List.{All};
ghost use Rattle.calc_addr.specs.Places.{Place};
ghost use Rattle.calc_model.specs.UsedCells.{is_used};
ghost use Rattle.calc_model.specs.ValueTexts.{lent};
ghost use Rattle.formula_results.specs.Results.{Clears, SameResults, SetsRun, results_of};

use calc_addr::{Cell, NoMemory, Run};
use calc_model::{Seen, Value, Values};
use std::alloc::Global;
use std::marker::Model;
use value_column::ValueSheets;

/// The results of formulas, as columns of values in which cells without a result are blank. Contracts see
/// what the columns are seen as; `results_of` says which result a cell has.
#[derive(Drop)]
pub struct FormulaResults {
    values: ValueSheets,
}

impl Model for FormulaResults {
    ghost use Rattle.std.specs.Prelude.{List, Option};
    ghost use Rattle.value_column.specs.ValueRows.{ValueRows};

    ghost Value = { List (Option ValueRows) };

    ghost view = { λ r. r.values };
}

impl FormulaResults {
    /// No result, which takes no memory.
    pub fn new(alloc: Global) -> FormulaResults
        ensures { (q : Place) → results_of result q ≡ None }
    {
        FormulaResults {
            values: ValueSheets::new(alloc),
        }
    }

    /// The cell's result, if there is one. It takes no time.
    pub fn get(&self, cell: Cell) -> Option<Seen<'_>>
        ensures some { IfSome result (λ seen. results_of self.now cell ≡ Some (lent seen)) }
        ensures none { IfNone result (results_of self.now cell ≡ None) }
    {
        let _ = &cell.row;
        match self.values.look(cell) {
            Seen::Blank => None,
            seen => Some(seen),
        }
    }

    /// Gives the cells of a run those results, the first row's first, of which none is blank. It is linear in
    /// these. Where memory is refused, the results are as before.
    pub fn set_run(&mut self, run: Run, values: Vec<Value>) -> Result<(), NoMemory>
        requires length { vec_len values ≡ run.last + 1 - run.first }
        requires used { All (λ v. is_used v ≡ true) values.items }
        ensures ok { OnOk result
            (SetsRun (results_of self.old) (results_of self.new) run values.items) }
        ensures err { OnErr result (SameResults (results_of self.old) (results_of self.new)) }
    {
        let _ = &run.first;
        self.values.set_run(run, values)
    }

    /// Takes the results of a run's cells away. Where memory is refused, the results are as before.
    pub fn clear(&mut self, run: Run) -> Result<(), NoMemory>
        ensures ok { OnOk result (Clears (results_of self.old) (results_of self.new) run) }
        ensures err { OnErr result (SameResults (results_of self.old) (results_of self.new)) }
    {
        let _ = &run.first;
        self.values.clear(run)
    }
}
