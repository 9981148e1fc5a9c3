//! A column's groups and blocks, lent, and the codes of all columns.
ghost use Rattle.std.specs.Prelude.{◌≡◌, ◌<◌, ◌+◌, ◌-◌, ◌*◌, map};
ghost use Rattle.calc_addr.specs.declared.cell.TheConstants.{LAST_COL};
ghost use Rattle.formula_code.specs.Coded.{AreCoded, AreFormulasOf};
ghost use Rattle.formula_groups.specs.GroupRows.{columns_of};
ghost use Rattle.cell_columns.specs.Cells.{cells_only};
ghost use Rattle.cell_columns.specs.Looks.{AreSlotsOf};
ghost use Rattle.cell_columns.specs.ColumnRuns.{AllLie, IsSheetColumn, blocks_in, groups_in, rows_of_block, rows_of_group, rows_of_run};

use crate::cells::column_number;
use crate::columns::CellColumns;
use block_column::{Block, BlockColumn};
use calc_addr::Cell;
use formula_code::{CodeTable, forms_are_trees};
use formula_groups::{Group, GroupColumn};
use kept_codes::COLUMNS;

/// The groups of all columns, where column c of sheet s stands at 1024 * s + c - 1, and the table that has the
/// codes of their formulas.
#[derive(Clone, Copy)]
pub struct CodedGroups<'a> {
    pub codes: &'a CodeTable,
    pub groups: &'a [GroupColumn],
}

/// The number of a column among all.
fn number_of(sheet: u8, col: u16) -> usize
    requires { IsSheetColumn sheet col }
    ensures number { result ≡ sheet * LAST_COL + (col - 1) }
    ensures among { result < COLUMNS }
{
    column_number(Cell { sheet, col, row: 1 })
}

impl CellColumns {
    /// The formula groups of a column, downwards: its maximal runs of formulas with one relative form. It
    /// takes no time.
    pub fn groups(&self, sheet: u8, col: u16) -> &[Group]
        requires { IsSheetColumn sheet col }
        ensures groups { map (rows_of_group sheet col) result.now
            ≡ map (rows_of_run sheet col) (groups_in (cells_only self.now) sheet col) }
        ensures rows { AllLie (map (rows_of_group sheet col) result.now) }
    {
        forms_are_trees();
        self.table.are_apart();
        self.groups[number_of(sheet, col)].groups()
    }

    /// The blocks of a column, downwards: its maximal runs of cells of one kind. It takes no time.
    pub fn blocks(&self, sheet: u8, col: u16) -> &[Block]
        requires { IsSheetColumn sheet col }
        ensures blocks { result.now ≡ blocks_in (cells_only self.now) sheet col }
        ensures rows { AllLie (map (rows_of_block sheet col) result.now) }
    {
        self.columns[number_of(sheet, col)].blocks()
    }

    /// What the rows of a column hold. It takes no time.
    pub fn column(&self, sheet: u8, col: u16) -> &BlockColumn
        requires { IsSheetColumn sheet col }
        ensures { AreSlotsOf (cells_only self.now) sheet col result.now.slots }
    {
        &self.columns[number_of(sheet, col)]
    }

    /// The codes of all formulas. It takes no time.
    pub fn coded(&self) -> CodedGroups<'_>
        ensures coded { AreCoded result.codes.now (columns_of result.groups.now) }
        ensures formulas { AreFormulasOf result.codes.now (columns_of result.groups.now)
            (cells_only self.now) }
    {
        CodedGroups {
            codes: &self.table,
            groups: &self.groups,
        }
    }
}
