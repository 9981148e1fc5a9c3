ghost use Rattle.std.specs.Prelude.{◌≡◌, ◌≢◌, ◌+◌, ◌-◌, ◌≤◌, ◌<◌, ℕ, None, OnOk, length, slice_index_or};
ghost use Rattle.run_tables.specs.Rows.{AreRows, rows_set};
ghost use Rattle.block_column.specs.SlotRows.{SlotRows};
ghost use Rattle.block_column.specs.declared.slot.Slot.{Slot};
ghost use Rattle.formula_groups.specs.GroupRows.{GroupRows};
ghost use Rattle.cell_columns.specs.Cells.{cells_of};
ghost use Rattle.cell_columns.specs.Emptied.{without_rows};
ghost use Rattle.cell_columns.specs.Lent.{AreColumns, HaveRoom, codes_of, slots_of};

use crate::cells::make_room;
use crate::slots::release;
use block_column::BlockColumn;
use calc_addr::NoMemory;
use formula_code::CodeTable;
use formula_groups::GroupColumn;
use kept_codes::COLUMNS;

/// Empties neighbouring rows of a column and of its groups, which both have the room.
fn empty_rows(column: &mut BlockColumn, groups: &mut GroupColumn, first: u32, last: u32)
    requires rows { AreRows first last }
    requires slots { 1 ≤ column.old.spare }
    requires groups { 1 ≤ groups.old.spare }
    ensures slots { column.new.slots
        ≡ rows_set (first - 1) (last + 1 - first) Slot.Empty column.old.slots }
    ensures codes { groups.new.entries
        ≡ rows_set (first - 1) (last + 1 - first) None groups.old.entries }
{
    if column.clear(first, last).is_err() {
        unreachable!()
    }
    if groups.remove(first, last).is_err() {
        unreachable!()
    }
}

/// Makes room in neighbouring columns and their groups for one edit of each.
pub(crate) fn make_rooms(
    columns: &mut Vec<BlockColumn>,
    groups: &mut Vec<GroupColumn>,
    from: usize,
    behind: usize,
) -> Result<(), NoMemory>
    requires columns { behind ≤ length columns.old.items }
    requires groups { behind ≤ length groups.old.items }
    requires order { from ≤ behind }
    ensures slots { slots_of columns.new.items ≡ slots_of columns.old.items }
    ensures codes { codes_of groups.new.items ≡ codes_of groups.old.items }
    ensures room { OnOk result (HaveRoom columns.new.items groups.new.items from behind) }
{
    for number in from..behind {
        make_room(columns, groups, number)?;
    }
    Ok(())
}

/// Empties neighbouring rows of a column, of which there is room for an edit. Gives the number of cells
/// that are left.
fn clear_column(
    columns: &mut Vec<BlockColumn>,
    groups: &mut Vec<GroupColumn>,
    codes: &mut CodeTable,
    len: usize,
    number: usize,
    first: u32,
    last: u32,
) -> usize
    requires are { AreColumns codes.old columns.old.items groups.old.items len }
    requires among { number < COLUMNS }
    requires rows { AreRows first last }
    requires room { HaveRoom columns.old.items groups.old.items number (number + 1) }
    ensures are { AreColumns codes.new columns.new.items groups.new.items result }
    ensures cells { cells_of codes.new (slots_of columns.new.items)
        ≡ without_rows number (number + 1) first last
        (cells_of codes.old (slots_of columns.old.items)) }
    ensures other_columns { (n : ℕ) → n ≢ number → (d : SlotRows) →
        slice_index_or columns.new.items n d ≡ slice_index_or columns.old.items n d }
    ensures other_groups { (n : ℕ) → n ≢ number → (d : GroupRows) →
        slice_index_or groups.new.items n d ≡ slice_index_or groups.old.items n d }
{
    let used = columns[number].used() as usize;
    release(codes, groups[number].groups(), first, last);
    empty_rows(&mut columns[number], &mut groups[number], first, last);
    len + columns[number].used() as usize - used
}

/// Empties neighbouring rows of neighbouring columns, of which there is room for an edit each. Gives the
/// number of cells that are left.
pub(crate) fn clear_columns(
    columns: &mut Vec<BlockColumn>,
    groups: &mut Vec<GroupColumn>,
    codes: &mut CodeTable,
    len: usize,
    from: usize,
    behind: usize,
    first: u32,
    last: u32,
) -> usize
    requires are { AreColumns codes.old columns.old.items groups.old.items len }
    requires order { from ≤ behind }
    requires among { behind ≤ COLUMNS }
    requires rows { AreRows first last }
    requires room { HaveRoom columns.old.items groups.old.items from behind }
    ensures are { AreColumns codes.new columns.new.items groups.new.items result }
    ensures cells { cells_of codes.new (slots_of columns.new.items)
        ≡ without_rows from behind first last (cells_of codes.old (slots_of columns.old.items)) }
{
    let mut left = len;
    for number in from..behind {
        left = clear_column(columns, groups, codes, left, number, first, last);
    }
    left
}
