//! Rows of a sheet that are inserted or deleted.
ghost use Rattle.std.specs.Prelude.{◌≡◌, ◌≤◌, ℕ, false, true, IfOk, OnOk, length, take};
ghost use Rattle.std.specs.List.{list_all};
ghost use Rattle.calc_addr.specs.declared.cell.TheConstants.{LAST_SHEET};
ghost use Rattle.calc_model.specs.Books.{content_at, is_formula, with_content};
ghost use Rattle.calc_model.specs.Changes.{IsChange, IsShift};
ghost use Rattle.calc_model.specs.RowEdits.{cells_after_deletion, cells_after_insertion, is_pushed_out};
ghost use Rattle.calc_model.specs.declared.content.Content.{Content};
ghost use Rattle.calc_model.specs.declared.limits.TheConstants.{MOST_CELLS};
ghost use Rattle.cell_columns.specs.Cells.{cells_only};
ghost use Rattle.cell_columns.specs.Looks.{with_contents};
ghost use Rattle.cell_columns.specs.Reset.{emptied, with_all};
ghost use Rattle.kept_codes.specs.RowChanges.{IsRowChange, sheet_of};
ghost use Rattle.cell_columns.specs.Shifted.{AllKeepOrAre, AllStayIn, shifted};

use crate::columns::CellColumns;
use calc_addr::{Area, Cell, LAST_COL, NoMemory};
use calc_model::{Change, Content};
use kept_codes::{home_after, push_changing};
use std::alloc::Global;

impl CellColumns {
    /// Inserts rows of a sheet at a place. It is linear in the blocks of the sheet's columns and in the groups
    /// of all columns, and sets each formula anew whose relative form changes. Where memory is refused, nothing
    /// is said of the cells that are left.
    pub fn insert_rows(
        &mut self,
        alloc: Global,
        sheet: u8,
        place: u32,
        count: u32,
    ) -> Result<(), NoMemory>
        requires sheet { sheet ≤ LAST_SHEET }
        requires rows { IsShift place count }
        requires inside { is_pushed_out sheet place count self.old ≡ false }
        ensures { OnOk result (self.new ≡ cells_after_insertion sheet place count self.old) }
    {
        let change = Change::Inserted {
            sheet,
            place,
            count,
        };
        self.change_rows(alloc, change)
    }

    /// Deletes rows of a sheet from a place on, at the same cost and with that of emptying them. Where memory
    /// is refused, nothing is said of the cells that are left.
    pub fn delete_rows(
        &mut self,
        alloc: Global,
        sheet: u8,
        place: u32,
        count: u32,
    ) -> Result<(), NoMemory>
        requires sheet { sheet ≤ LAST_SHEET }
        requires rows { IsShift place count }
        ensures { OnOk result (self.new ≡ cells_after_deletion sheet place count self.old) }
    {
        let change = Change::Deleted {
            sheet,
            place,
            count,
        };
        self.are_book();
        self.clear(Area {
            sheet,
            first_col: 1,
            last_col: LAST_COL,
            first_row: place,
            last_row: place + count - 1,
        })?;
        self.change_rows(alloc, change)
    }

    /// Changes the rows of a sheet, where each cell that isn't empty stays. The formulas that don't keep
    /// their codes are taken out before the columns go, and are put back as they become.
    fn change_rows(&mut self, alloc: Global, change: Change) -> Result<(), NoMemory>
        requires change { IsRowChange change }
        requires sheet { sheet_of change ≤ LAST_SHEET }
        requires stay { AllStayIn change self.old }
        ensures { OnOk result (self.new ≡ shifted change self.old) }
    {
        self.are_book();
        let cells = self.changing(alloc, change)?;
        let entries = self.changed(alloc, change, &cells)?;
        self.empty_cells(alloc, &cells)?;
        self.shift(change)?;
        self.set_all(alloc, &entries)
    }

    /// The cells of the formulas that don't keep their codes with a change of rows. Linear in those
    /// cells, and in the nodes of each group's formula.
    fn changing(&self, alloc: Global, change: Change) -> Result<Vec<Cell>, NoMemory>
        requires change { IsRowChange change }
        requires stay { AllStayIn change self.now }
        ensures formulas { IfOk result (λ cells.
            list_all (λ q. is_formula (content_at (cells_only self.now) q)) cells.items ≡ true) }
        ensures others { IfOk result (λ cells. AllKeepOrAre change self.now cells.items) }
    {
        let mut cells = Vec::new(alloc);
        push_changing(&self.table, &self.groups, change, &mut cells)?;
        Ok(cells)
    }

    /// Formulas as a change of rows leaves them, at the cells to which they go.
    #[tactic(auto, unfolding(crate::specs::Shifted::shifted))]
    fn changed(
        &self,
        alloc: Global,
        change: Change,
        cells: &[Cell],
    ) -> Result<Vec<(Cell, Content)>, NoMemory>
        requires change { IsChange change }
        requires stay { AllStayIn change self.now }
        requires formulas { list_all (λ q. is_formula (content_at (cells_only self.now) q))
            cells.now ≡ true }
        ensures { IfOk result (λ entries.
            entries.items ≡ shifted change (with_contents self.now cells.now)) }
    {
        self.are_book();
        let mut entries = Vec::new(alloc);
        for cell in cells {
            let content = self.content(alloc, *cell)?;
            let changed = content.changed(alloc, change, *cell)?;
            entries.push((home_after(change, *cell), changed))?;
        }
        Ok(entries)
    }

    fn empty_cell(&mut self, alloc: Global, cell: Cell) -> Result<(), NoMemory>
        ensures { OnOk result (self.new ≡ with_content self.old cell Content.Empty) }
    {
        self.are_book();
        self.set(alloc, cell, &Content::Empty)
    }

    /// Empties cells, one after the other.
    fn empty_cells(&mut self, alloc: Global, cells: &[Cell]) -> Result<(), NoMemory>
        ensures { OnOk result (self.new ≡ emptied self.old cells.now) }
    {
        for cell in cells {
            self.empty_cell(alloc, *cell)?;
        }
        Ok(())
    }

    /// Puts contents into cells, one after the other.
    fn set_all(&mut self, alloc: Global, entries: &[(Cell, Content)]) -> Result<(), NoMemory>
        requires room { (k : ℕ) → k ≤ length entries.now
            → length (with_all self.old (take k entries.now)) ≤ MOST_CELLS }
        ensures { OnOk result (self.new ≡ with_all self.old entries.now) }
    {
        for (cell, content) in entries {
            self.set(alloc, *cell, content)?;
        }
        Ok(())
    }
}
