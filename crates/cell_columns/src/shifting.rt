//! The columns of a sheet go with a change of its rows.
ghost use Rattle.std.specs.Prelude.{◌≡◌, ◌≤◌, ◌<◌, ℕ, None, OnErr, OnOk, length, map};
ghost use Rattle.calc_addr.specs.declared.cell.TheConstants.{LAST_ROW, LAST_SHEET};
ghost use Rattle.calc_model.specs.Changes.{IsChange};
ghost use Rattle.block_column.specs.declared.slot.Slot.{Slot};
ghost use Rattle.cell_columns.specs.Cells.{column_at};
ghost use Rattle.cell_columns.specs.Lent.{codes_of, slots_of};
ghost use Rattle.kept_codes.specs.RowChanges.{sheet_of};
ghost use Rattle.cell_columns.specs.Shifted.{AllKeepForms, AllStayIn, PartlyMoved, rows_moved, shifted};
ghost use Rattle.cell_columns.specs.Uses.{codes_in};

use crate::columns::CellColumns;
use block_column::BlockColumn;
use calc_addr::{LAST_COL, NoMemory};
use calc_model::Change;
use formula_groups::GroupColumn;
use kept_codes::COLUMNS;

/// The sheet whose rows change.
fn sheet_of(change: Change) -> u8
    ensures { result ≡ sheet_of change }
{
    match change {
        Change::Inserted { sheet, .. } => sheet,
        Change::Deleted { sheet, .. } => sheet,
        _ => 0,
    }
}

/// Moves the slots of a column.
fn move_slots(column: &mut BlockColumn, change: Change) -> Result<(), NoMemory>
    requires { IsChange change }
    ensures ok { OnOk result (column.new.slots ≡ rows_moved change Slot.Empty column.old.slots) }
    ensures err { OnErr result (column.new.slots ≡ column.old.slots) }
{
    match change {
        Change::Inserted { place, count, .. } => column.insert_empty(place, count),
        Change::Deleted { place, count, .. } => column.erase(place, count),
        _ => Ok(()),
    }
}

/// Moves the codes of a column, which has the room.
fn move_codes(groups: &mut GroupColumn, change: Change)
    requires change { IsChange change }
    requires room { 2 ≤ groups.old.spare }
    ensures { groups.new.entries ≡ rows_moved change None groups.old.entries }
{
    let moved = match change {
        Change::Inserted { place, count, .. } => groups.insert_rows(place, count),
        Change::Deleted { place, count, .. } => groups.erase_rows(place, count),
        _ => Ok(()),
    };
    if moved.is_err() {
        unreachable!()
    }
}

/// Moves the rows of a column and of its groups, or neither. It is linear in the blocks of the column and
/// in the groups, and where the column is empty it costs nothing.
fn move_column(
    column: &mut BlockColumn,
    groups: &mut GroupColumn,
    change: Change,
) -> Result<(), NoMemory>
    requires change { IsChange change }
    requires long { length column.old.slots ≡ LAST_ROW }
    requires grouped { groups.old.entries ≡ codes_in column.old.slots }
    ensures grouped { groups.new.entries ≡ codes_in column.new.slots }
    ensures ok { OnOk result (column.new.slots ≡ rows_moved change Slot.Empty column.old.slots) }
    ensures err { OnErr result (column.new.slots ≡ column.old.slots) }
{
    if column.used() == 0 {
        return Ok(());
    }
    groups.reserve(2)?;
    move_slots(column, change)?;
    move_codes(groups, change);
    Ok(())
}

/// Moves the rows of neighbouring columns, one column after the other.
fn move_columns(
    columns: &mut Vec<BlockColumn>,
    groups: &mut Vec<GroupColumn>,
    change: Change,
    from: usize,
    behind: usize,
) -> Result<(), NoMemory>
    requires change { IsChange change }
    requires all { length columns.old.items ≡ COLUMNS }
    requires long { (number : ℕ) → number < COLUMNS
        → length (column_at (slots_of columns.old.items) number) ≡ LAST_ROW }
    requires grouped { codes_of groups.old.items ≡ map codes_in (slots_of columns.old.items) }
    requires order { from ≤ behind }
    requires among { behind ≤ COLUMNS }
    ensures grouped { codes_of groups.new.items ≡ map codes_in (slots_of columns.new.items) }
    ensures partly { (reached : ℕ) × (reached ≤ behind) × PartlyMoved change
        (slots_of columns.old.items) (slots_of columns.new.items) from reached }
    ensures all { OnOk result (PartlyMoved change
        (slots_of columns.old.items) (slots_of columns.new.items) from behind) }
{
    for number in from..behind {
        move_column(&mut columns[number], &mut groups[number], change)?;
    }
    Ok(())
}

impl CellColumns {
    /// Moves the cells of a sheet with its rows, where each formula of the book keeps its code. It is linear
    /// in the blocks and groups of the sheet's columns.
    pub(crate) fn shift(&mut self, change: Change) -> Result<(), NoMemory>
        requires change { IsChange change }
        requires sheet { sheet_of change ≤ LAST_SHEET }
        requires stay { AllStayIn change self.old }
        requires keep { AllKeepForms change self.old }
        ensures { OnOk result (self.new ≡ shifted change self.old) }
    {
        let from = usize::from(LAST_COL) * usize::from(sheet_of(change));
        let behind = from + usize::from(LAST_COL);
        move_columns(&mut self.columns, &mut self.groups, change, from, behind)
    }
}
