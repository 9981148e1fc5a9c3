ghost use Rattle.std.specs.Prelude.{◌≡◌, ◌+◌, ◌≤◌, length, IfOk, OnOk};
ghost use Rattle.calc_model.specs.Books.{entry_named};
ghost use Rattle.calc_model.specs.Counters.{HasRoom};
ghost use Rattle.calc_model.specs.Eval.{eval, top};
ghost use Rattle.cell_interpreter.specs.Operands.{value_of};
ghost use Rattle.cell_interpreter.specs.Runs.{AreOfTree, IsEvaluated};
ghost use Rattle.formula_code.specs.Codes.{IsCodeAt, tree_at};

use crate::scalar::Scalar;
use crate::stack::Stack;
use calc_addr::{Cell, NoMemory};
use calc_model::{CodeId, MOST_TOKENS, NameTable, Steps, Value, Values};
use formula_code::{CodeTable, Tokens};
use std::alloc::Global;
use std::sync::ledger::Ledger;

/// The most tokens of a formula that is run over the short stack. Most formulas have fewer, and a stack
/// takes time in proportion to its size.
const FEW_TOKENS: usize = 8;

/// The value that the formula of a code shows at its cell, over the names and what cells show (OpenFormula,
/// 3.4). A blank one is 0. It counts one step, and is linear in the formula's tokens; memory is taken only
/// for texts that are made.
pub fn interpret<V: Values, N: NameTable, L: Ledger>(
    alloc: Global,
    codes: &CodeTable,
    id: CodeId,
    home: Cell,
    names: &N,
    values: &V,
    steps: &mut Steps<L>,
) -> Result<Value, NoMemory>
    requires code { IsCodeAt codes.now id home }
    requires room { HasRoom steps.old }
    ensures value { IfOk result (λ v. v ≡ top (eval home (entry_named (N.entries names.now))
        (V.values values.now) (tree_at codes.now id home))) }
    ensures count { OnOk result (steps.new.count ≡ steps.old.count + 1) }
    ensures parts { steps.new.parts ≡ steps.old.parts }
{
    steps.tick();
    let tokens = codes.tokens_at(id, home);
    let scalar = if tokens.len() <= FEW_TOKENS {
        run_few(alloc, tokens, home, names, values)?
    } else {
        run(alloc, tokens, home, names, values)?
    };
    scalar.into_result(alloc)
}

/// The value of a formula of few tokens.
fn run_few<'a, V: Values, N: NameTable>(
    alloc: Global,
    tokens: Tokens<'a>,
    home: Cell,
    names: &N,
    values: &'a V,
) -> Result<Scalar<'a>, NoMemory>
    requires few { length tokens ≤ FEW_TOKENS }
    requires formula { AreOfTree tokens }
    ensures { IfOk result (λ scalar. IsEvaluated home (entry_named (N.entries names.now))
        (V.values values.entry.now) tokens.entry (value_of scalar)) }
{
    let mut stack: Stack<'a, FEW_TOKENS> = Stack::new();
    stack.evaluate(alloc, tokens, home, names, values)
}

/// The value of any formula.
fn run<'a, V: Values, N: NameTable>(
    alloc: Global,
    tokens: Tokens<'a>,
    home: Cell,
    names: &N,
    values: &'a V,
) -> Result<Scalar<'a>, NoMemory>
    requires few { length tokens ≤ MOST_TOKENS }
    requires formula { AreOfTree tokens }
    ensures { IfOk result (λ scalar. IsEvaluated home (entry_named (N.entries names.now))
        (V.values values.entry.now) tokens.entry (value_of scalar)) }
{
    let mut stack: Stack<'a, MOST_TOKENS> = Stack::new();
    stack.evaluate(alloc, tokens, home, names, values)
}
