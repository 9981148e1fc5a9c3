//! The cells that hold formulas, by the groups of their columns.
ghost use Rattle.std.specs.Prelude.{ℕ, ◌≡◌, ◌<◌, ◌++◌, [], IfOk, OnOk, length, slice_index_or};
ghost use Rattle.std.specs.List.{All, AllPairs};
ghost use Rattle.calc_addr.specs.declared.cell.TheConstants.{LAST_ROW};
ghost use Rattle.calc_addr.specs.Places.{IsBefore};
ghost use Rattle.run_tables.specs.Rows.{AreRows};
ghost use Rattle.formula_groups.specs.declared.group.Group.{Group};
ghost use Rattle.kept_codes.specs.FormulaCells.{all_coded, cells_of_groups, rows_in};
ghost use Rattle.formula_groups.specs.GroupRows.{columns_of};

use crate::cells::{COLUMNS, cell_in};
use calc_addr::{NoMemory, Run};
use cell_runs::CellRuns;
use formula_groups::{Group, GroupColumn};
use std::alloc::Global;

/// The rows of a group in its column.
fn rows_in(number: usize, group: Group) -> Run
    requires number { number < COLUMNS }
    requires rows { AreRows group.first group.last }
    ensures { result ≡ rows_in number group }
{
    let first = cell_in(number, group.first);
    Run {
        sheet: first.sheet,
        col: first.col,
        first: group.first,
        last: group.last,
    }
}

/// Appends the cells of some groups of a column.
fn push_groups(number: usize, groups: &[Group], out: &mut CellRuns) -> Result<(), NoMemory>
    requires number { number < COLUMNS }
    requires rows { All (λ (g : Group). AreRows g.first g.last) groups.now }
    requires in_order { AllPairs IsBefore (out.old ++ cells_of_groups number groups.now) }
    ensures { OnOk result (out.new ≡ out.old ++ cells_of_groups number groups.now) }
{
    for group in groups {
        out.push(rows_in(number, *group))?;
    }
    Ok(())
}

/// The cells of the groups of all columns, in the order of cells. Linear in the groups and in the columns.
pub fn grouped_cells(alloc: Global, groups: &[GroupColumn]) -> Result<CellRuns, NoMemory>
    requires all { length groups.now ≡ COLUMNS }
    requires long { (number : ℕ) → number < COLUMNS
        → length (slice_index_or (columns_of groups.now) number []) ≡ LAST_ROW }
    ensures { IfOk result (λ cells. cells ≡ all_coded 0 (columns_of groups.now)) }
{
    let mut cells = CellRuns::new(alloc);
    for number in 0..COLUMNS {
        push_groups(number, groups[number].groups(), &mut cells)?;
    }
    Ok(cells)
}
