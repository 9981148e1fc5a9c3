ghost use Rattle.std.specs.Prelude.{◌≡◌, ◌≤◌, ◌<◌, ◌^◌, true, IfOk, IsTrue};
ghost use Rattle.calc_addr.specs.declared.cell.TheConstants.{LAST_ROW};
ghost use Rattle.calc_model.specs.Formed.{is_formed};
ghost use Rattle.calc_model.specs.declared.content.Content.{Content};
ghost use Rattle.calc_model.specs.declared.tree.Tree.{Tree};
ghost use Rattle.calc_model.specs.Homes.{cols_between, rows_between};
ghost use Rattle.calc_model.specs.TreeShifts.{moved_tree};
ghost use Rattle.formula_code.specs.Codes.{IsInterned, total_uses};
ghost use Rattle.moved_forms.specs.Alike.{AreAlike, AreOneSide, in_row, moved_form};

use calc_addr::{Cell, NoMemory};
use calc_model::{Change, CodeId, Content, Formula};
use formula_code::{CodeTable, uses_add_up};
use std::alloc::Global;

/// The code of a formula that is moved from a cell to another.
fn intern_moved(
    alloc: Global,
    codes: &mut CodeTable,
    from: Cell,
    formula: &Formula,
    to: Cell,
) -> Result<CodeId, NoMemory>
    requires few { total_uses codes.old < 2 ^ 24 }
    ensures { IfOk result (IsInterned codes.old codes.new to
        (moved_tree (cols_between from to) (rows_between from to) formula.now)) }
{
    let cols = i32::from(to.col) - i32::from(from.col);
    let rows = to.row as i32 - from.row as i32;
    let moved = formula.changed(alloc, Change::Moves { cols, rows }, from)?;
    codes.are_apart();
    uses_add_up();
    codes.intern(moved.tree(), to)
}

/// Whether a formula that is moved from a cell has one relative form in two others. Linear in the formula.
fn is_alike(
    alloc: Global,
    from: Cell,
    formula: &Formula,
    first: Cell,
    other: Cell,
) -> Result<bool, NoMemory>
    ensures { IfOk result (λ alike. IsTrue alike
        → moved_form from formula.now other ≡ moved_form from formula.now first) }
{
    let mut codes = CodeTable::new(alloc);
    uses_add_up();
    let id = intern_moved(alloc, &mut codes, from, formula, first)?;
    let second = intern_moved(alloc, &mut codes, from, formula, other)?;
    Ok(id == second)
}

/// The cell of the same column in another row.
fn in_row(cell: Cell, row: u32) -> Cell
    requires from { 1 ≤ row }
    requires to { row ≤ LAST_ROW }
    ensures { result ≡ in_row cell row }
{
    Cell {
        sheet: cell.sheet,
        col: cell.col,
        row,
    }
}

/// A row, from that of a cell down to the last one, to which a formula that is moved from another cell keeps
/// the relative form that it has in the first cell.
fn last_formula(
    alloc: Global,
    from: Cell,
    formula: &Formula,
    first: Cell,
    last: u32,
) -> Result<u32, NoMemory>
    requires order { first.row ≤ last }
    requires to { last ≤ LAST_ROW }
    requires side { AreOneSide from.row first.row last }
    ensures from { IfOk result (λ row. first.row ≤ row) }
    ensures to { IfOk result (λ row. row ≤ last) }
    ensures formed { is_formed formula.now ≡ true }
    ensures alike { IfOk result (AreAlike from formula.now first) }
{
    let _ = &from.row;
    let _ = formula.tree();
    let mut low = first.row;
    let mut high = last + 1;
    while low + 1 < high {
        let row = if high > last {
            last
        } else {
            low + (high - low) / 2
        };
        if is_alike(alloc, from, formula, first, in_row(first, row))? {
            low = row;
        } else {
            high = row;
        }
    }
    Ok(low)
}

/// A row, from that of a cell down to the last one, to which a content that is moved from another cell keeps
/// the relative form that it has in the first cell, where it is a formula. It is the last such row where the
/// form changes but once. Logarithmic in the rows, and linear in the formula for each of these tries.
pub fn last_alike(
    alloc: Global,
    from: Cell,
    content: &Content,
    first: Cell,
    last: u32,
) -> Result<u32, NoMemory>
    requires order { first.row ≤ last }
    requires to { last ≤ LAST_ROW }
    requires side { AreOneSide from.row first.row last }
    ensures from { IfOk result (λ row. first.row ≤ row) }
    ensures to { IfOk result (λ row. row ≤ last) }
    ensures formed { (tree : Tree) → content.now ≡ Content.Formula tree → is_formed tree ≡ true }
    ensures alike { IfOk result (λ row. (tree : Tree) → content.now ≡ Content.Formula tree
        → AreAlike from tree first row) }
{
    match content {
        Content::Formula(formula) => last_formula(alloc, from, formula, first, last),
        _ => Ok(last),
    }
}
