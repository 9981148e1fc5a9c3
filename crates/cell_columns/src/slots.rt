ghost use Rattle.std.specs.Prelude.{◌≡◌, ◌-◌, ◌≤◌, ◌^◌, ◌<◌, ℕ, [], ◌∷◌, Some, IfOk, IsOk, OnErr, OnOk, length, slice_set};
ghost use Rattle.run_tables.specs.Rows.{AreRows};
ghost use Rattle.formula_code.specs.Codes.{IsSame, total_uses, uses_at};
ghost use Rattle.cell_columns.specs.Freed.{formulas_among, uses_among};
ghost use Rattle.cell_columns.specs.Taken.{AreFreed, AreReturned, IsConstantSlot, IsSlotOf};
ghost use Rattle.cell_columns.specs.Uses.{code_in};
ghost use Rattle.block_column.specs.declared.slot.Slot.{Slot};
ghost use Rattle.calc_model.specs.declared.content.Content.{Content};

use block_column::{BlockColumn, Slot};
use calc_addr::{Cell, NoMemory};
use calc_model::{CodeId, Constant, Content, Formula, Value};
use formula_code::{CodeTable, uses_add_up};
use formula_groups::{Group, GroupColumn};
use std::alloc::Global;

/// The slot of a content, whose code has one use more.
pub(crate) fn slot_of(
    alloc: Global,
    codes: &mut CodeTable,
    home: Cell,
    content: &Content,
) -> Result<Slot, NoMemory>
    requires room { total_uses codes.old < 2 ^ 24 }
    ensures slot { IfOk result (IsSlotOf codes.old codes.new home content.now) }
    ensures err { OnErr result (IsSame codes.old codes.new) }
{
    match content {
        Content::Empty => Ok(Slot::Empty),
        Content::Constant(constant) => constant_slot(alloc, constant),
        Content::Formula(formula) => Ok(Slot::Formula(intern(codes, home, formula)?)),
        Content::Raw(text) => Ok(Slot::Raw(text.copy(alloc)?)),
    }
}

fn constant_slot(alloc: Global, constant: &Constant) -> Result<Slot, NoMemory>
    ensures { IfOk result (IsConstantSlot constant.now) }
{
    match constant.value() {
        Value::Number(number) => Ok(Slot::Number(*number)),
        Value::Words(text) => Ok(Slot::Words(text.copy(alloc)?)),
        Value::Bad(fault) => Ok(Slot::Bad(*fault)),
        Value::Blank => unreachable!(),
    }
}

/// The code of a formula, which has one use more.
fn intern(codes: &mut CodeTable, home: Cell, formula: &Formula) -> Result<CodeId, NoMemory>
    requires room { total_uses codes.old < 2 ^ 24 }
    ensures slot { IfOk result (λ id.
        IsSlotOf codes.old codes.new home (Content.Formula formula.now) (Slot.Formula id)) }
    ensures err { OnErr result (IsSame codes.old codes.new) }
{
    codes.are_apart();
    uses_add_up();
    codes.intern(formula.tree(), home)
}

/// Takes away the use of a row's code.
pub(crate) fn give_back(codes: &mut CodeTable, code: Option<CodeId>)
    requires { (id : ℕ) → code ≡ Some id → 1 ≤ uses_at codes.old id }
    ensures { (x : Slot) → code_in x ≡ code → AreReturned codes.old codes.new (x ∷ []) }
{
    if let Some(id) = code {
        codes.give_back(id, 1);
    }
}

/// Takes away the uses that formulas in neighbouring rows of a column make of their codes. Linear in the
/// groups of the column.
pub(crate) fn release(codes: &mut CodeTable, groups: &[Group], first: u32, last: u32)
    requires rows { AreRows first last }
    requires uses { (id : ℕ) → uses_among id first last groups.now ≤ uses_at codes.old id }
    ensures { AreFreed codes.old codes.new (λ id. uses_among id first last groups.now)
        (formulas_among first last groups.now) }
{
    for group in groups {
        let from = group.first.max(first);
        let to = group.last.min(last);
        if from <= to {
            codes.give_back(group.code, to + 1 - from);
        }
    }
}

/// Puts a slot in a row of a column, and its code in the column's groups. Both have the room.
pub(crate) fn put_slot(column: &mut BlockColumn, groups: &mut GroupColumn, row: u32, slot: Slot)
    requires row { AreRows row row }
    requires rows { row - 1 < length groups.old.entries }
    requires slots { 1 ≤ column.old.spare }
    requires groups { 1 ≤ groups.old.spare }
    ensures slots { column.new.slots ≡ slice_set column.old.slots (row - 1) slot }
    ensures codes { groups.new.entries ≡ slice_set groups.old.entries (row - 1) (code_in slot) }
{
    let code = match &slot {
        Slot::Formula(id) => Some(*id),
        _ => None,
    };
    let put = column.set(row, slot);
    if put.is_err() {
        unreachable!()
    }
    if put_code(groups, row, code).is_err() {
        unreachable!()
    }
}

/// Gives a row a code, or none.
fn put_code(groups: &mut GroupColumn, row: u32, code: Option<CodeId>) -> Result<(), NoMemory>
    requires row { AreRows row row }
    requires rows { row - 1 < length groups.old.entries }
    ensures ok { OnOk result (groups.new.entries ≡ slice_set groups.old.entries (row - 1) code) }
    ensures reserved { 1 ≤ groups.old.spare → IsOk result }
{
    match code {
        Some(id) => groups.set_code(row, id),
        None => groups.remove(row, row),
    }
}
