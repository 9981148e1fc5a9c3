//! The formulas that don't keep their codes with a change of rows.
ghost use Rattle.std.specs.Prelude.{◌≡◌, ◌≤◌, ◌<◌, IfOk, IsTrue, OnOk, length};
ghost use Rattle.calc_model.specs.Changes.{IsChange};
ghost use Rattle.formula_groups.specs.GroupRows.{columns_of};
ghost use Rattle.kept_codes.specs.Gathered.{AreFormulas, Formulas, Gathers, InColumns, InGroups, InRows, IsBack, IsFront, KeepsCode, behind_of};
ghost use Rattle.kept_codes.specs.RowChanges.{AreOneSide, IsRowChange, StaysIn, goes, place_of};

use crate::cells::{COLUMNS, cell_in};
use calc_addr::{Cell, LAST_ROW, NoMemory};
use calc_model::{Change, CodeId, home_after_deletion, home_after_insertion};
use formula_code::CodeTable;
use formula_groups::{Group, GroupColumn};

/// The cell to which a cell goes with a change of rows.
pub fn home_after(change: Change, home: Cell) -> Cell
    requires change { IsChange change }
    requires stays { StaysIn change home }
    ensures { result ≡ goes change home }
{
    match change {
        Change::Inserted {
            sheet,
            place,
            count,
        } => home_after_insertion(sheet, place, count, home),
        Change::Deleted {
            sheet,
            place,
            count,
        } => home_after_deletion(sheet, place, count, home),
        _ => home,
    }
}

/// The first row of those that are inserted or deleted.
fn place_of(change: Change) -> u32
    ensures { result ≡ place_of change }
{
    match change {
        Change::Inserted { place, .. } => place,
        Change::Deleted { place, .. } => place,
        _ => 0,
    }
}

/// Whether a formula keeps its code. False says nothing.
fn keeps(codes: &CodeTable, id: CodeId, home: Cell, change: Change) -> bool
    requires change { IsRowChange change }
    requires formula { Formulas codes.now change home id }
    ensures { IsTrue result → KeepsCode codes.now change id home }
{
    codes.stays(id, home, change, home_after(change, home))
}

/// Appends the cells of rows of a column that have one code, downwards as far as their formulas don't keep
/// it. Gives the row behind those.
fn push_down(
    codes: &CodeTable,
    number: usize,
    code: CodeId,
    first: u32,
    behind: u32,
    change: Change,
    out: &mut Vec<Cell>,
) -> Result<u32, NoMemory>
    requires change { IsRowChange change }
    requires number { number < COLUMNS }
    requires order { first ≤ behind }
    requires formulas { AreFormulas codes.now change (InRows number first behind code) }
    ensures { IfOk result
        (IsFront codes.now change number code first behind out.old.items out.new.items) }
{
    let mut row = first;
    while row < behind {
        let home = cell_in(number, row);
        if keeps(codes, code, home, change) {
            return Ok(row);
        }
        out.push(home)?;
        row += 1;
    }
    Ok(row)
}

/// The same upwards. Gives the first row of those.
fn push_up(
    codes: &CodeTable,
    number: usize,
    code: CodeId,
    first: u32,
    behind: u32,
    change: Change,
    out: &mut Vec<Cell>,
) -> Result<u32, NoMemory>
    requires change { IsRowChange change }
    requires number { number < COLUMNS }
    requires order { first ≤ behind }
    requires formulas { AreFormulas codes.now change (InRows number first behind code) }
    ensures { IfOk result
        (IsBack codes.now change number code first behind out.old.items out.new.items) }
{
    let mut row = behind;
    while first < row {
        let home = cell_in(number, row - 1);
        if keeps(codes, code, home, change) {
            return Ok(row);
        }
        out.push(home)?;
        row -= 1;
    }
    Ok(row)
}

/// Appends the cells of rows on one side of the change, with one code, whose formulas don't keep it. Formulas
/// between two that keep it do so too, but for the last row, whose area may end at the last row of the sheet.
fn push_side(
    codes: &CodeTable,
    number: usize,
    code: CodeId,
    first: u32,
    behind: u32,
    change: Change,
    out: &mut Vec<Cell>,
) -> Result<(), NoMemory>
    requires change { IsRowChange change }
    requires number { number < COLUMNS }
    requires order { first ≤ behind }
    requires side { AreOneSide change first behind }
    requires formulas { AreFormulas codes.now change (InRows number first behind code) }
    ensures { OnOk result
        (Gathers codes.now change (InRows number first behind code) out.old.items out.new.items) }
{
    let kept = push_down(codes, number, code, first, behind, change, out)?;
    if behind - kept <= 1 {
        return Ok(());
    }
    push_down(codes, number, code, behind - 1, behind, change, out)?;
    push_up(codes, number, code, kept + 1, behind - 1, change, out)?;
    Ok(())
}

/// Appends the cells of a group whose formulas don't keep their code. Linear in those, and in the nodes of
/// the group's formula.
fn push_group(
    codes: &CodeTable,
    number: usize,
    group: Group,
    change: Change,
    out: &mut Vec<Cell>,
) -> Result<(), NoMemory>
    requires change { IsRowChange change }
    requires number { number < COLUMNS }
    requires formulas { AreFormulas codes.now change
        (InRows number group.first (behind_of group) group.code) }
    ensures { OnOk result (Gathers codes.now change
        (InRows number group.first (behind_of group) group.code) out.old.items out.new.items) }
{
    let behind = group.last.min(LAST_ROW) + 1;
    if behind < group.first {
        return Ok(());
    }
    let middle = place_of(change).max(group.first).min(behind);
    push_side(codes, number, group.code, group.first, middle, change, out)?;
    push_side(codes, number, group.code, middle, behind, change, out)
}

/// Appends those of some groups of a column.
fn push_groups(
    codes: &CodeTable,
    number: usize,
    groups: &[Group],
    change: Change,
    out: &mut Vec<Cell>,
) -> Result<(), NoMemory>
    requires change { IsRowChange change }
    requires number { number < COLUMNS }
    requires formulas { AreFormulas codes.now change (InGroups number groups.now) }
    ensures { OnOk result
        (Gathers codes.now change (InGroups number groups.now) out.old.items out.new.items) }
{
    for group in groups {
        push_group(codes, number, *group, change, out)?;
    }
    Ok(())
}

/// Appends the cells of the formulas of all columns that don't keep their codes with a change of rows. Linear
/// in those cells, and in the nodes of each group's formula.
pub fn push_changing(
    codes: &CodeTable,
    groups: &[GroupColumn],
    change: Change,
    out: &mut Vec<Cell>,
) -> Result<(), NoMemory>
    requires change { IsRowChange change }
    requires all { length groups.now ≡ COLUMNS }
    requires formulas { AreFormulas codes.now change (InColumns (columns_of groups.now) COLUMNS) }
    ensures { OnOk result (Gathers codes.now change (InColumns (columns_of groups.now) COLUMNS)
        out.old.items out.new.items) }
{
    for number in 0..COLUMNS {
        push_groups(codes, number, groups[number].groups(), change, out)?;
    }
    Ok(())
}
