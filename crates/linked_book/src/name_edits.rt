//! Edits of names.
ghost use Rattle.std.specs.Prelude.{◌≡◌, ◌↔◌, false, true, IsErrOf, OnOk};
ghost use Rattle.calc_model.specs.Books.{IsBook};
ghost use Rattle.calc_model.specs.NamedAreas.{is_defined, with_name, without_name};
ghost use Rattle.calc_model.specs.Tokens.{is_name};
ghost use Rattle.calc_names.specs.NameFaults.{IsOneTooMany};

use crate::linked::LinkedBook;
use crate::listening::listen_again;
use calc_addr::Area;
use calc_model::Text;
use calc_names::NameFault;
use formula_listeners::names_agree_elsewhere;
use std::alloc::Global;

impl LinkedBook {
    /// Gives the name that area. A new name moves those behind it in the order of names, and the columns with
    /// a formula that uses the name are registered anew.
    pub fn define_name(&mut self, alloc: Global, name: &Text, area: Area) -> Result<(), NameFault>
        requires { self.old.spent ≡ false }
        ensures cells { self.new.book.cells ≡ self.old.book.cells }
        ensures names { OnOk result
            (self.new.book.names ≡ with_name self.old.book.names name.now area) }
        ensures bad_name { IsErrOf result NameFault.BadName ↔ (is_name name.now ≡ false) }
        ensures bad_keeps { IsErrOf result NameFault.BadName → self.new ≡ self.old }
        ensures full { IsErrOf result NameFault.Full ↔ IsOneTooMany self.old.book.names name.now }
        ensures full_keeps { IsErrOf result NameFault.Full → self.new ≡ self.old }
        ensures no_name { ¬ (IsErrOf result NameFault.NoName) }
        ensures was_book { IsBook self.old.book }
        ensures book { IsBook self.new.book }
        ensures ready { OnOk result (self.new.spent ≡ false) }
    {
        self.parts.are_book();
        names_agree_elsewhere();
        self.parts.define_name(name, area)?;
        match listen_again(alloc, &mut self.hub, &self.parts, name) {
            Ok(()) => Ok(()),
            Err(refused) => Err(NameFault::NoMemory(refused)),
        }
    }

    /// Takes a name away, and registers the columns with a formula that uses it anew.
    pub fn remove_name(&mut self, alloc: Global, name: &Text) -> Result<(), NameFault>
        requires { self.old.spent ≡ false }
        ensures cells { self.new.book.cells ≡ self.old.book.cells }
        ensures names { OnOk result
            (self.new.book.names ≡ without_name self.old.book.names name.now) }
        ensures no_name { IsErrOf result NameFault.NoName
            ↔ (is_defined self.old.book.names name.now ≡ false) }
        ensures no_name_keeps { IsErrOf result NameFault.NoName → self.new ≡ self.old }
        ensures book { IsBook self.new.book }
        ensures ready { OnOk result (self.new.spent ≡ false) }
    {
        self.parts.are_book();
        names_agree_elsewhere();
        self.parts.remove_name(name)?;
        match listen_again(alloc, &mut self.hub, &self.parts, name) {
            Ok(()) => Ok(()),
            Err(refused) => Err(NameFault::NoMemory(refused)),
        }
    }
}
