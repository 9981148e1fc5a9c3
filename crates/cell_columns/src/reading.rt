ghost use Rattle.std.specs.Prelude.{◌≡◌, ◌<◌, ◌-◌, ℕ, true, length, IfOk};
ghost use Rattle.calc_addr.specs.Places.{IsPlace};
ghost use Rattle.block_column.specs.Kinds.{is_filled, lent_slot};
ghost use Rattle.calc_model.specs.Books.{is_content};
ghost use Rattle.calc_model.specs.Contents.{is_error_constant};
ghost use Rattle.calc_model.specs.declared.content.Content.{Content};
ghost use Rattle.calc_model.specs.declared.value.Value.{Value};
ghost use Rattle.formula_code.specs.Codes.{IsCodeAt};
ghost use Rattle.block_column.specs.declared.slot.Slot.{Slot};
ghost use Rattle.cell_columns.specs.Cells.{column_at, column_number, content_of, slot_at};
ghost use Rattle.cell_columns.specs.Lent.{slots_of};

use crate::cells::column_number;
use block_column::{BlockColumn, Slot, SlotRef};
use calc_addr::{Cell, NoMemory};
use calc_model::{Constant, Content, Fault, Formula, Text, Value};
use calc_num::Num;
use formula_code::CodeTable;
use std::alloc::Global;

/// The slot of a cell, lent.
pub(crate) fn slot_ref(columns: &[BlockColumn], cell: Cell) -> SlotRef<'_>
    requires among { column_number cell < length columns.now }
    requires rows { cell.row - 1 < length (column_at (slots_of columns.now) (column_number cell)) }
    ensures slot { lent_slot result ≡ slot_at (slots_of columns.now) cell }
    ensures place { IsPlace cell }
{
    columns[column_number(cell)].get(cell.row)
}

/// A copy of the slot of a cell.
pub(crate) fn slot_copy(
    alloc: Global,
    columns: &[BlockColumn],
    cell: Cell,
) -> Result<Slot, NoMemory>
    requires among { column_number cell < length columns.now }
    requires rows { cell.row - 1 < length (column_at (slots_of columns.now) (column_number cell)) }
    ensures slot { IfOk result (λ x. x ≡ slot_at (slots_of columns.now) cell) }
    ensures place { IsPlace cell }
{
    match slot_ref(columns, cell) {
        SlotRef::Empty => Ok(Slot::Empty),
        SlotRef::Number(number) => Ok(Slot::Number(number)),
        SlotRef::Words(text) => Ok(Slot::Words(text.copy(alloc)?)),
        SlotRef::Bad(fault) => Ok(Slot::Bad(fault)),
        SlotRef::Raw(text) => Ok(Slot::Raw(text.copy(alloc)?)),
        SlotRef::Formula(id) => Ok(Slot::Formula(id)),
    }
}

/// What a cell holds. Linear in it.
pub(crate) fn content_at(
    alloc: Global,
    columns: &[BlockColumn],
    codes: &CodeTable,
    cell: Cell,
) -> Result<Content, NoMemory>
    requires among { column_number cell < length columns.now }
    requires coded { (id : ℕ) → slot_at (slots_of columns.now) cell ≡ Slot.Formula id →
        IsCodeAt codes.now id cell }
    requires fit { is_filled (slot_at (slots_of columns.now) cell) ≡ true →
        is_content (content_of codes.now cell (slot_at (slots_of columns.now) cell)) ≡ true }
    ensures content { IfOk result (λ content. content
        ≡ content_of codes.now cell (slot_at (slots_of columns.now) cell)) }
    ensures place { IsPlace cell }
{
    match columns[column_number(cell)].get(cell.row) {
        SlotRef::Empty => Ok(Content::Empty),
        SlotRef::Number(number) => Ok(number_content(number)),
        SlotRef::Words(text) => words_content(alloc, text),
        SlotRef::Bad(fault) => Ok(fault_content(fault)),
        SlotRef::Raw(text) => Ok(Content::Raw(text.copy(alloc)?)),
        SlotRef::Formula(id) => Ok(Content::Formula(Formula::of(codes.tree_at(alloc, id, cell)?))),
    }
}

fn number_content(number: Num) -> Content
    ensures { result ≡ Content.Constant (Value.Number number) }
{
    Content::Constant(Constant::of(Value::Number(number)))
}

fn words_content(alloc: Global, text: &Text) -> Result<Content, NoMemory>
    ensures { IfOk result (λ c. c ≡ Content.Constant (Value.Words text.now)) }
{
    let copy = text.copy(alloc)?;
    Ok(Content::Constant(Constant::of(Value::Words(copy))))
}

fn fault_content(fault: Fault) -> Content
    requires { is_error_constant fault ≡ true }
    ensures { result ≡ Content.Constant (Value.Bad fault) }
{
    Content::Constant(Constant::of(Value::Bad(fault)))
}
