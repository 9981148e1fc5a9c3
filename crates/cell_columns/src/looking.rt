//! What cells hold, lent, and the cells that aren't empty.
ghost use Rattle.std.specs.Prelude.{◌≡◌, ◌≤◌, ◌+◌, ◌-◌, ◌↔◌, Contains, false, true, length, IfNone, IfOk, IfSome};
ghost use Rattle.std.specs.List.{AllPairs};
ghost use Rattle.calc_addr.specs.declared.cell.TheConstants.{LAST_ROW};
ghost use Rattle.calc_addr.specs.Places.{IsBefore, Place};
ghost use Rattle.calc_model.specs.Books.{IsBook, content_at, is_formula};
ghost use Rattle.calc_model.specs.CellEdits.{within_area};
ghost use Rattle.cell_columns.specs.Cells.{cells_only};
ghost use Rattle.cell_columns.specs.Looks.{AreEmptyBelow, IsCoded, IsLent, with_contents};
ghost use Rattle.cell_columns.specs.Walks.{formulas_of, places_of};

use crate::cells::numbers_of;
use crate::columns::CellColumns;
use crate::counting::{all_formulas, count_cells};
use crate::reading::slot_ref;
use crate::walking::{empty_below, push_cells};
use block_column::SlotRef;
use calc_addr::{Area, Cell, LAST_ROW, NoMemory};
use calc_model::{CodeId, Content};
use cell_runs::CellRuns;
use formula_code::CodeTable;
use kept_codes::{COLUMNS, grouped_cells};
use std::alloc::Global;

/// A formula's code, with the table that has it.
#[derive(Clone, Copy)]
pub struct Coded<'a> {
    pub codes: &'a CodeTable,
    pub id: CodeId,
}

impl CellColumns {
    /// The cells are those of a book.
    pub fn are_book(&self)
        ensures { IsBook (cells_only self.now) }
    {
        let _ = self.columns.len();
    }

    /// What a cell holds, lent. It takes the logarithm of the blocks of its column.
    pub fn look(&self, cell: Cell) -> SlotRef<'_>
        ensures { IsLent (content_at (cells_only self.now) cell) result }
    {
        slot_ref(&self.columns, cell)
    }

    /// The code of the formula that a cell holds, if it holds one. It takes the logarithm of the blocks of
    /// its column.
    pub fn formula(&self, cell: Cell) -> Option<Coded<'_>>
        ensures coded { IfSome result (λ f. IsCoded self.now cell f.codes.now f.id) }
        ensures none { IfNone result (is_formula (content_at (cells_only self.now) cell) ≡ false) }
    {
        match slot_ref(&self.columns, cell) {
            SlotRef::Formula(id) => Some(Coded {
                codes: &self.table,
                id,
            }),
            _ => None,
        }
    }

    /// How many rows from a cell on, down to that row, are empty before the first that isn't. It takes the
    /// logarithm of the blocks of the column.
    pub fn empty_rows(&self, start: Cell, last_row: u32) -> u32
        requires from { start.row ≤ last_row }
        requires to { last_row ≤ LAST_ROW }
        ensures most { result ≤ last_row + 1 - start.row }
        ensures empty { AreEmptyBelow self.now start result }
    {
        empty_below(&self.columns, start, last_row)
    }

    /// The cells that hold a formula, in the order of cells, a run for each group. Linear in the groups and in
    /// the columns.
    pub fn formula_cells(&self, alloc: Global) -> Result<CellRuns, NoMemory>
        ensures in_order { IfOk result (λ cells. AllPairs IsBefore cells) }
        ensures exact { IfOk result (λ cells. (q : Place) → Contains cells q
            ↔ (is_formula (content_at (cells_only self.now) q) ≡ true)) }
    {
        grouped_cells(alloc, &self.groups)
    }

    /// How many cells of an area aren't empty. Linear in the blocks of its columns.
    pub fn count_within(&self, area: Area) -> usize
        ensures { result ≡ length (within_area self.now area) }
    {
        let (from, behind) = numbers_of(area);
        count_cells(&self.columns, from, behind, area.first_row, area.last_row)
    }

    /// How many cells hold a formula. Linear in the blocks.
    pub fn formula_count(&self) -> usize
        ensures { result ≡ length (formulas_of self.now) }
    {
        all_formulas(&self.columns)
    }

    /// The cells of an area that aren't empty, in the order of cells. It takes the logarithm of the blocks of
    /// its column for each.
    pub fn cells_in(&self, alloc: Global, area: Area) -> Result<Vec<Cell>, NoMemory>
        ensures { IfOk result (λ cells. cells.items ≡ places_of (within_area self.now area)) }
    {
        let (from, behind) = numbers_of(area);
        let mut cells = Vec::new(alloc);
        let (first, last) = (area.first_row, area.last_row);
        push_cells(&self.columns, from, behind, first, last, &mut cells)?;
        Ok(cells)
    }

    /// All cells that aren't empty, in the order of cells, at the same cost.
    pub fn cells(&self, alloc: Global) -> Result<Vec<Cell>, NoMemory>
        ensures { IfOk result (λ cells. cells.items ≡ places_of self.now) }
    {
        let mut cells = Vec::new(alloc);
        push_cells(&self.columns, 0, COLUMNS, 1, LAST_ROW, &mut cells)?;
        Ok(cells)
    }

    /// The cells of an area that aren't empty with copies of what they hold, in the order of cells. It takes
    /// the logarithm of the blocks of its column for each, and is linear in the contents.
    pub fn entries_in(&self, alloc: Global, area: Area) -> Result<Vec<(Cell, Content)>, NoMemory>
        ensures { IfOk result (λ entries. entries.items ≡ within_area self.now area) }
    {
        let cells = self.cells_in(alloc, area)?;
        self.are_book();
        self.with_contents(alloc, &cells)
    }

    /// All cells that aren't empty with copies of what they hold, at the same cost.
    pub fn entries(&self, alloc: Global) -> Result<Vec<(Cell, Content)>, NoMemory>
        ensures { IfOk result (λ entries. entries.items ≡ self.now) }
    {
        let cells = self.cells(alloc)?;
        self.are_book();
        self.with_contents(alloc, &cells)
    }

    /// Cells with copies of what they hold.
    fn with_contents(&self, alloc: Global, cells: &[Cell]) -> Result<Vec<(Cell, Content)>, NoMemory>
        ensures { IfOk result (λ entries. entries.items ≡ with_contents self.now cells.now) }
    {
        let mut entries = Vec::new(alloc);
        for cell in cells {
            let content = self.content(alloc, *cell)?;
            entries.push((*cell, content))?;
        }
        Ok(entries)
    }
}
