//! Edits of names, and the generated book.
ghost use Rattle.std.specs.Prelude.{◌≡◌, ◌≤◌, false, true, IsErrOf, OnOk};
ghost use Rattle.calc_model.specs.declared.edit.EditCause.{EditCause};
ghost use Rattle.workbook.specs.Workbook.{IsDead, IsRefused, Made};

use crate::fault::EditFault;
use crate::touched::Touched;
use crate::workbook::Workbook;
use calc_addr::{Area, NoMemory};
use calc_model::{Edit, EditCause, MOST_GENERATED_ROWS, Text};
use calc_names::NameFault;
use linked_book::LinkedBook;
use std::alloc::Global;

impl Workbook {
    pub(crate) fn define_name(
        &mut self,
        alloc: Global,
        name: &Text,
        area: Area,
    ) -> Result<(), EditFault>
        requires { self.old.spent ≡ false }
        ensures done { OnOk result (Made self.old (Edit.Name name.now area) self.new) }
        ensures refused { (cause : EditCause) → IsErrOf result (EditFault.Refused cause) →
            IsRefused self.old (Edit.Name name.now area) cause self.new }
        ensures no_memory { IsErrOf result EditFault.NoMemory → IsDead self.new }
        ensures not_dead { IsErrOf result EditFault.Dead → ⊥ }
    {
        match self.book.define_name(alloc, name, area) {
            Ok(()) => match self.touched.add_name(alloc, name) {
                Ok(()) => Ok(()),
                Err(_) => Err(self.die()),
            },
            Err(NameFault::BadName) => Err(EditFault::Refused(EditCause::BadName)),
            Err(NameFault::Full) => Err(EditFault::Refused(EditCause::NamesFull)),
            Err(_) => Err(self.die()),
        }
    }

    pub(crate) fn remove_name(&mut self, alloc: Global, name: &Text) -> Result<(), EditFault>
        requires { self.old.spent ≡ false }
        ensures done { OnOk result (Made self.old (Edit.Unname name.now) self.new) }
        ensures refused { (cause : EditCause) → IsErrOf result (EditFault.Refused cause) →
            IsRefused self.old (Edit.Unname name.now) cause self.new }
        ensures no_memory { IsErrOf result EditFault.NoMemory → IsDead self.new }
        ensures not_dead { IsErrOf result EditFault.Dead → ⊥ }
    {
        match self.book.remove_name(alloc, name) {
            Ok(()) => match self.touched.add_name(alloc, name) {
                Ok(()) => Ok(()),
                Err(_) => Err(self.die()),
            },
            Err(NameFault::NoName) => Err(EditFault::Refused(EditCause::NoName)),
            Err(_) => Err(self.die()),
        }
    }

    pub(crate) fn generate(&mut self, alloc: Global, start: u32, rows: u32) -> Result<(), EditFault>
        requires { rows ≤ MOST_GENERATED_ROWS }
        ensures done { OnOk result (Made self.old (Edit.Make start rows) self.new) }
        ensures refused { (cause : EditCause) → IsErrOf result (EditFault.Refused cause) → ⊥ }
        ensures no_memory { IsErrOf result EditFault.NoMemory → IsDead self.new }
        ensures not_dead { IsErrOf result EditFault.Dead → ⊥ }
    {
        match LinkedBook::generated(alloc, start, rows) {
            Ok(book) => {
                self.book = book;
                self.touched = Touched::all(alloc);
                Ok(())
            }
            Err(_) => Err(self.die()),
        }
    }
}
