ghost use Rattle.std.specs.Prelude.{◌≡◌, ◌+◌, IfOk, OnOk, true};
ghost use Rattle.calc_model.specs.Counters.{HasRoom};
ghost use Rattle.calc_model.specs.Eval.{eval, top};
ghost use Rattle.calc_model.specs.Books.{area_named};
ghost use Rattle.calc_model.specs.Results.{shown_by};
ghost use Rattle.calc_model.specs.UsedCells.{is_used};
ghost use Rattle.formula_code.specs.Codes.{IsCodeAt, tree_at};
ghost use Rattle.formula_results.specs.Results.{results_of};

use book_parts::BookParts;
use calc_addr::{Cell, NoMemory};
use calc_model::{Steps, Value};
use cell_columns::Coded;
use cell_interpreter::interpret;
use formula_results::{FormulaResults, ShownCells};
use std::alloc::Global;
use std::sync::ledger::Ledger;

/// What the formula with that code shows at `home` over what the cells show by some results. It counts one
/// step.
pub(crate) fn value_of<L: Ledger>(
    alloc: Global,
    parts: &BookParts,
    results: &FormulaResults,
    home: Cell,
    formula: Coded<'_>,
    steps: &mut Steps<L>,
) -> Result<Value, NoMemory>
    requires coded { IsCodeAt formula.codes.now formula.id home }
    requires room { HasRoom steps.old }
    ensures value { IfOk result (λ v. v ≡ top (eval home (area_named parts.now)
        (shown_by parts.now (results_of results.now))
        (tree_at formula.entry.codes.now formula.entry.id home))) }
    ensures used { IfOk result (λ v. is_used v ≡ true) }
    ensures count { OnOk result (steps.new.count ≡ steps.old.count + 1) }
    ensures parts { steps.new.parts ≡ steps.old.parts }
{
    let shown = ShownCells::of(parts, results);
    interpret(alloc, formula.codes, formula.id, home, parts, &shown, steps)
}
