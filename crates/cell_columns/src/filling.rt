//! Slots and contents that are put into neighbouring rows of a column.
ghost use Rattle.std.specs.Prelude.{ℕ, ◌≡◌, ◌-◌, ◌+◌, ◌≤◌, ◌<◌, IfOk, OnErr, OnOk, drop, length, replicate, sum_by, take, true};
ghost use Rattle.run_tables.specs.Rows.{AreRows, rows_set};
ghost use Rattle.calc_addr.specs.declared.cell.TheConstants.{LAST_ROW};
ghost use Rattle.calc_addr.specs.Places.{column_places};
ghost use Rattle.calc_model.specs.Books.{is_held, with_content};
ghost use Rattle.calc_model.specs.CellEdits.{moved_content, with_entries};
ghost use Rattle.calc_model.specs.declared.limits.TheConstants.{MOST_CELLS};
ghost use Rattle.block_column.specs.declared.slot.Slot.{Slot};
ghost use Rattle.block_column.specs.Kinds.{is_filled};
ghost use Rattle.formula_code.specs.Codes.{IsLive, uses_at};
ghost use Rattle.cell_columns.specs.Cells.{cells_of};
ghost use Rattle.cell_columns.specs.Filled.{FitsRows, moved_entries, repeated};
ghost use Rattle.cell_columns.specs.Lent.{AreColumns, slots_of};
ghost use Rattle.cell_columns.specs.Taken.{AreReplaced, AreTaken};
ghost use Rattle.cell_columns.specs.Uses.{codes_in, use_of};
ghost use Rattle.moved_forms.specs.Alike.{AreOneSide};

use crate::cells::column_number;
use crate::columns::CellColumns;
use crate::reading::slot_copy;
use crate::slots::release;
use block_column::{BlockColumn, Slot};
use calc_addr::{Cell, NoMemory};
use calc_model::Content;
use formula_code::CodeTable;
use formula_groups::GroupColumn;
use moved_forms::last_alike;
use std::alloc::Global;

/// Adds uses of a slot's code.
fn take_uses(codes: &mut CodeTable, slot: &Slot, uses: u32)
    requires some { 1 ≤ uses }
    requires rows { uses ≤ LAST_ROW }
    requires live { (id : ℕ) → slot.now ≡ Slot.Formula id → IsLive codes.old id }
    requires few { (id : ℕ) → uses_at codes.old id ≤ MOST_CELLS }
    ensures { AreTaken codes.old codes.new (replicate uses slot.now) }
{
    if let Slot::Formula(id) = slot {
        codes.take(*id, uses);
    }
}

/// Puts copies of a slot in neighbouring rows of a column and of its groups, which all use its code. It costs
/// what the setting of the rows does, and is linear in the groups.
fn repeat_slot(
    column: &mut BlockColumn,
    groups: &mut GroupColumn,
    codes: &mut CodeTable,
    first: u32,
    last: u32,
    slot: &Slot,
) -> Result<(), NoMemory>
    requires rows { AreRows first last }
    requires grouped { groups.old.entries ≡ codes_in column.old.slots }
    requires uses { (id : ℕ) → sum_by (use_of id) column.old.slots ≤ uses_at codes.old id }
    requires live { (id : ℕ) → slot.now ≡ Slot.Formula id → IsLive codes.old id }
    requires few { (id : ℕ) → uses_at codes.old id ≤ MOST_CELLS }
    ensures slots { OnOk result (column.new.slots
        ≡ rows_set (first - 1) (last + 1 - first) slot.now column.old.slots) }
    ensures codes { OnOk result (AreReplaced codes.old codes.new
        (replicate (last + 1 - first) slot.now)
        (take (last + 1 - first) (drop (first - 1) column.old.slots))) }
    ensures grouped { groups.new.entries ≡ codes_in column.new.slots }
    ensures err { OnErr result (column.new.slots ≡ column.old.slots) }
    ensures kept { OnErr result (codes.new ≡ codes.old) }
{
    groups.reserve(1)?;
    column.set_range(first, last, slot)?;
    take_uses(codes, slot, last + 1 - first);
    release(codes, groups.groups(), first, last);
    let put = match slot {
        Slot::Formula(id) => groups.set_run(first, last, *id),
        _ => groups.remove(first, last),
    };
    if put.is_err() {
        unreachable!()
    }
    Ok(())
}

/// Puts copies of a slot in the rows below a cell down to the last. Gives the number of cells that there
/// are then.
pub(crate) fn repeat_below(
    columns: &mut Vec<BlockColumn>,
    groups: &mut Vec<GroupColumn>,
    codes: &mut CodeTable,
    len: usize,
    cell: Cell,
    last: u32,
    slot: &Slot,
) -> Result<usize, NoMemory>
    requires are { AreColumns codes.old columns.old.items groups.old.items len }
    requires rows { AreRows (cell.row + 1) last }
    requires held { is_filled slot.now ≡ true }
    requires fits { FitsRows codes.old cell (cell.row + 1) last slot.now }
    requires room { len + (last - cell.row) ≤ MOST_CELLS }
    ensures are { IfOk result (AreColumns codes.new columns.new.items groups.new.items) }
    ensures cells { OnOk result (cells_of codes.new (slots_of columns.new.items)
        ≡ with_entries (cells_of codes.old (slots_of columns.old.items))
        (repeated codes.old cell (cell.row + 1) last slot.now)) }
    ensures err { OnErr result (AreColumns codes.new columns.new.items groups.new.items len) }
    ensures kept { OnErr result (cells_of codes.new (slots_of columns.new.items)
        ≡ cells_of codes.old (slots_of columns.old.items)) }
{
    let number = column_number(cell);
    let used = columns[number].used() as usize;
    repeat_slot(
        &mut columns[number],
        &mut groups[number],
        codes,
        cell.row + 1,
        last,
        slot,
    )?;
    Ok(len + columns[number].used() as usize - used)
}

impl CellColumns {
    /// Puts a content, moved from a cell, into another.
    fn set_moved(
        &mut self,
        alloc: Global,
        from: Cell,
        content: &Content,
        cell: Cell,
    ) -> Result<(), NoMemory>
        requires { length self.old < MOST_CELLS }
        ensures { OnOk result (self.new
            ≡ with_content self.old cell (moved_content from cell content.now)) }
    {
        let moved = content.moved(alloc, from, cell)?;
        self.set(alloc, cell, &moved)
    }

    /// Puts a content that isn't empty, moved, into a cell and into those below it in which it has the same
    /// relative form, down to the last at most. Gives the row of the last of these. It costs what the setting
    /// of the cell and that of these rows does. Where memory is refused, some of the cells may be as before.
    pub fn fill_alike(
        &mut self,
        alloc: Global,
        from: Cell,
        content: &Content,
        cell: Cell,
        last: u32,
    ) -> Result<u32, NoMemory>
        requires held { is_held content.now ≡ true }
        requires order { cell.row ≤ last }
        requires to { last ≤ LAST_ROW }
        requires side { AreOneSide from.row cell.row last }
        requires room { length self.old + (last + 1 - cell.row) ≤ MOST_CELLS }
        ensures from { IfOk result (λ row. cell.row ≤ row) }
        ensures to { IfOk result (λ row. row ≤ last) }
        ensures cells { IfOk result (λ row. self.new ≡ with_entries self.old (moved_entries from
            content.now (column_places cell.sheet cell.col cell.row row))) }
    {
        self.set_moved(alloc, from, content, cell)?;
        let end = last_alike(alloc, from, content, cell, last)?;
        if end == cell.row {
            return Ok(end);
        }
        let slot = slot_copy(alloc, &self.columns, cell)?;
        self.len = repeat_below(
            &mut self.columns,
            &mut self.groups,
            &mut self.table,
            self.len,
            cell,
            end,
            &slot,
        )?;
        Ok(end)
    }
}
