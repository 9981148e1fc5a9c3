//! Copies and fills.
ghost use Rattle.std.specs.Prelude.{◌≡◌, ◌≤◌, length, false, true, IsErrOf, OnOk};
ghost use Rattle.calc_addr.specs.ValidReferences.{is_rectangle};
ghost use Rattle.calc_model.specs.Books.{content_at};
ghost use Rattle.calc_model.specs.CellEdits.{after_copy, after_fill, area_at};
ghost use Rattle.calc_model.specs.declared.edit.EditCause.{EditCause};
ghost use Rattle.workbook.specs.Workbook.{IsDead, IsRefused, Made};

use crate::fault::EditFault;
use crate::workbook::Workbook;
use book_parts::{area_at, lies_inside};
use calc_addr::{Area, Cell, NoMemory};
use calc_model::{Edit, EditCause, MOST_CELLS};
use std::alloc::Global;

impl Workbook {
    pub(crate) fn copy(&mut self, alloc: Global, area: Area, to: Cell) -> Result<(), EditFault>
        requires { self.old.spent ≡ false }
        ensures done { OnOk result (Made self.old (Edit.Copy area to) self.new) }
        ensures refused { (cause : EditCause) → IsErrOf result (EditFault.Refused cause) →
            IsRefused self.old (Edit.Copy area to) cause self.new }
        ensures no_memory { IsErrOf result EditFault.NoMemory → IsDead self.new }
        ensures not_dead { IsErrOf result EditFault.Dead → ⊥ }
    {
        if to.sheet != area.sheet {
            return Err(EditFault::Refused(EditCause::OffSheet));
        }
        if !lies_inside(area, to) {
            return Err(EditFault::Refused(EditCause::OffSheet));
        }
        if !self.book.parts().has_room_to_copy(area, to) {
            return Err(EditFault::Refused(EditCause::CellsFull));
        }
        match self.make_copy(alloc, area, to) {
            Ok(()) => Ok(()),
            Err(_) => Err(self.die()),
        }
    }

    fn make_copy(&mut self, alloc: Global, area: Area, to: Cell) -> Result<(), NoMemory>
        requires ready { self.old.spent ≡ false }
        requires sheet { to.sheet ≡ area.sheet }
        requires place { is_rectangle (area_at area to) ≡ true }
        requires room { length (after_copy self.old.book.cells area to) ≤ MOST_CELLS }
        ensures { OnOk result (Made self.old (Edit.Copy area to) self.new) }
    {
        self.touched.add_area(area_at(area, to))?;
        self.book.copy(alloc, area, to)
    }

    pub(crate) fn fill(&mut self, alloc: Global, from: Cell, area: Area) -> Result<(), EditFault>
        requires { self.old.spent ≡ false }
        ensures done { OnOk result (Made self.old (Edit.Fill from area) self.new) }
        ensures refused { (cause : EditCause) → IsErrOf result (EditFault.Refused cause) →
            IsRefused self.old (Edit.Fill from area) cause self.new }
        ensures no_memory { IsErrOf result EditFault.NoMemory → IsDead self.new }
        ensures not_dead { IsErrOf result EditFault.Dead → ⊥ }
    {
        if from.sheet != area.sheet {
            return Err(EditFault::Refused(EditCause::OffSheet));
        }
        if !self.book.parts().has_room_to_fill(from, area) {
            return Err(EditFault::Refused(EditCause::CellsFull));
        }
        match self.make_fill(alloc, from, area) {
            Ok(()) => Ok(()),
            Err(_) => Err(self.die()),
        }
    }

    fn make_fill(&mut self, alloc: Global, from: Cell, area: Area) -> Result<(), NoMemory>
        requires ready { self.old.spent ≡ false }
        requires sheet { from.sheet ≡ area.sheet }
        requires room { length (after_fill self.old.book.cells from
            (content_at self.old.book from) area) ≤ MOST_CELLS }
        ensures { OnOk result (Made self.old (Edit.Fill from area) self.new) }
    {
        self.touched.add_area(area)?;
        self.book.fill(alloc, from, area)
    }
}
