//! Inserted and deleted rows.
ghost use Rattle.std.specs.Prelude.{◌≡◌, ◌≤◌, false, OnOk};
ghost use Rattle.calc_model.specs.Books.{IsBook};
ghost use Rattle.calc_model.specs.Changes.{IsShift};
ghost use Rattle.calc_model.specs.NamedAreas.{names_after_deletion, names_after_insertion};
ghost use Rattle.calc_model.specs.RowEdits.{cells_after_deletion, cells_after_insertion, is_pushed_out};

use crate::linked::LinkedBook;
use crate::listening::settle;
use calc_addr::{LAST_SHEET, NoMemory};
use formula_listeners::reads_go_with_rows;
use std::alloc::Global;

impl LinkedBook {
    /// Inserts rows into a sheet. It costs what the same edits of the parts and of the hub do.
    pub fn insert_rows(
        &mut self,
        alloc: Global,
        sheet: u8,
        place: u32,
        count: u32,
    ) -> Result<(), NoMemory>
        requires ready { self.old.spent ≡ false }
        requires sheet { sheet ≤ LAST_SHEET }
        requires rows { IsShift place count }
        requires inside { is_pushed_out sheet place count self.old.book.cells ≡ false }
        ensures cells { OnOk result (self.new.book.cells
            ≡ cells_after_insertion sheet place count self.old.book.cells) }
        ensures names { OnOk result (self.new.book.names
            ≡ names_after_insertion sheet place count self.old.book.names) }
        ensures was_book { IsBook self.old.book }
        ensures book { IsBook self.new.book }
        ensures ready { OnOk result (self.new.spent ≡ false) }
    {
        reads_go_with_rows();
        let inserted = self.parts.insert_rows(alloc, sheet, place, count);
        settle(&mut self.hub, inserted)?;
        self.hub.insert_rows(sheet, place, count)
    }

    /// Deletes rows of a sheet, at the same cost.
    pub fn delete_rows(
        &mut self,
        alloc: Global,
        sheet: u8,
        place: u32,
        count: u32,
    ) -> Result<(), NoMemory>
        requires ready { self.old.spent ≡ false }
        requires sheet { sheet ≤ LAST_SHEET }
        requires rows { IsShift place count }
        ensures cells { OnOk result (self.new.book.cells
            ≡ cells_after_deletion sheet place count self.old.book.cells) }
        ensures names { OnOk result (self.new.book.names
            ≡ names_after_deletion sheet place count self.old.book.names) }
        ensures was_book { IsBook self.old.book }
        ensures book { IsBook self.new.book }
        ensures ready { OnOk result (self.new.spent ≡ false) }
    {
        reads_go_with_rows();
        let deleted = self.parts.delete_rows(alloc, sheet, place, count);
        settle(&mut self.hub, deleted)?;
        self.hub.delete_rows(sheet, place, count)
    }
}
