ghost use Rattle.std.specs.Prelude.{◌≡◌, ◌≢◌, ◌+◌, ◌-◌, ◌*◌, ◌≤◌, ◌<◌, ℕ, List, Option, Some, OnOk, length, count_by, slice_get, slice_index_or};
ghost use Rattle.calc_addr.specs.Places.{IsPlace, IsRectangle};
ghost use Rattle.block_column.specs.SlotRows.{SlotRows};
ghost use Rattle.block_column.specs.Kinds.{is_filled};
ghost use Rattle.formula_groups.specs.GroupRows.{GroupRows};
ghost use Rattle.cell_columns.specs.Cells.{Column, column_number, with_code, with_slot};
ghost use Rattle.cell_columns.specs.Lent.{codes_of, slots_of};
ghost use Rattle.cell_columns.specs.Uses.{code_in};

use crate::slots::put_slot;
use block_column::{BlockColumn, Slot};
use calc_addr::{Area, Cell, LAST_COL, NoMemory};
use calc_model::CodeId;
use formula_groups::GroupColumn;
use kept_codes::COLUMNS;

/// The number of a cell's column among all.
pub(crate) fn column_number(cell: Cell) -> usize
    ensures number { result ≡ column_number cell }
    ensures among { result < COLUMNS }
    ensures place { IsPlace cell }
{
    usize::from(LAST_COL) * usize::from(cell.sheet) + usize::from(cell.col) - 1
}

/// The number of an area's first column among all, and that behind its last.
pub(crate) fn numbers_of(area: Area) -> (usize, usize)
    ensures from { result.0 ≡ area.sheet * LAST_COL + (area.first_col - 1) }
    ensures behind { result.1 ≡ result.0 + (area.last_col + 1 - area.first_col) }
    ensures area { IsRectangle area }
{
    let from = usize::from(LAST_COL) * usize::from(area.sheet) + usize::from(area.first_col) - 1;
    (from, from + usize::from(area.last_col - area.first_col) + 1)
}

/// Makes room for a slot in a column and for a code in its groups.
pub(crate) fn make_room(
    columns: &mut Vec<BlockColumn>,
    groups: &mut Vec<GroupColumn>,
    number: usize,
) -> Result<(), NoMemory>
    requires columns { number < length columns.old.items }
    requires groups { number < length groups.old.items }
    ensures slots { slots_of columns.new.items ≡ slots_of columns.old.items }
    ensures codes { codes_of groups.new.items ≡ codes_of groups.old.items }
    ensures other_columns { (n : ℕ) → n ≢ number → (d : SlotRows) →
        slice_index_or columns.new.items n d ≡ slice_index_or columns.old.items n d }
    ensures other_groups { (n : ℕ) → n ≢ number → (d : GroupRows) →
        slice_index_or groups.new.items n d ≡ slice_index_or groups.old.items n d }
    ensures columns_room { OnOk result ((d : SlotRows) →
        1 ≤ (slice_index_or columns.new.items number d).spare) }
    ensures groups_room { OnOk result ((d : GroupRows) →
        1 ≤ (slice_index_or groups.new.items number d).spare) }
{
    columns[number].reserve(1)?;
    groups[number].reserve(1)
}

/// Puts a slot in a cell, and its code in the groups of its column. Both have the room.
pub(crate) fn put(
    columns: &mut Vec<BlockColumn>,
    groups: &mut Vec<GroupColumn>,
    cell: Cell,
    slot: Slot,
)
    requires columns { column_number cell < length columns.old.items }
    requires groups { column_number cell < length groups.old.items }
    requires columns_room { (d : SlotRows) →
        1 ≤ (slice_index_or columns.old.items (column_number cell) d).spare }
    requires groups_room { (d : GroupRows) →
        1 ≤ (slice_index_or groups.old.items (column_number cell) d).spare }
    requires rows { (d : GroupRows) → cell.row - 1
        < length (slice_index_or groups.old.items (column_number cell) d).entries }
    ensures slots { slots_of columns.new.items ≡ with_slot (slots_of columns.old.items) cell slot }
    ensures codes { codes_of groups.new.items
        ≡ with_code (codes_of groups.old.items) cell (code_in slot) }
{
    let number = column_number(cell);
    put_slot(&mut columns[number], &mut groups[number], cell.row, slot);
}

/// The code of a cell with a formula.
pub(crate) fn code_at(groups: &[GroupColumn], cell: Cell) -> Option<CodeId>
    requires { column_number cell < length groups.now }
    ensures { (d : List (Option ℕ)) → Some result
        ≡ slice_get (slice_index_or (codes_of groups.now) (column_number cell) d) (cell.row - 1) }
{
    Some(groups[column_number(cell)].group_at(cell.row)?.code)
}

/// How many cells of a cell's column aren't empty.
pub(crate) fn used_at(columns: &[BlockColumn], cell: Cell) -> usize
    requires { column_number cell < length columns.now }
    ensures { (d : Column) → result
        ≡ count_by is_filled (slice_index_or (slots_of columns.now) (column_number cell) d) }
{
    columns[column_number(cell)].used() as usize
}
