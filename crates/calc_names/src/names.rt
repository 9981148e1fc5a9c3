ghost use Rattle.calc_addr.specs.ValidReferences.{is_rectangle};
ghost use Rattle.calc_model.specs.Books.{entry_named};
ghost use Rattle.calc_model.specs.NamedAreas.{AreNames, is_defined, names_after_deletion, names_after_insertion, with_name, without_name};
ghost use Rattle.calc_model.specs.Tokens.{is_name};
ghost use Rattle.calc_names.specs.LookUps.{with_answers};
ghost use Rattle.calc_names.specs.NameFaults.{IsOneTooMany};
ghost use Rattle.std.specs.List.{insert};
ghost use Rattle.std.specs.Prelude.{IsErrOf, OnErr, OnOk, [], false, true, vec_len, ◌+◌, ◌↔◌, ◌≡◌, ◌≤◌};
ghost use Rattle.std.specs.Str.{str_to_ascii_uppercase};

use crate::capitals::in_capitals;
use crate::fault::NameFault;
use crate::places::place_of;
use crate::shift::{delete_rows, insert_rows};
use calc_addr::{Area, LAST_ROW, LAST_SHEET, NoMemory};
use calc_model::{Looked, MOST_NAMES, NameTable, Text, is_name};
use std::alloc::Global;
use std::marker::Model;

/// The names of a book in ASCII capitals, each with the area that it stands for. Names that differ
/// in the case of ASCII letters alone are one. Contracts see the entries in the order of the names'
/// bytes.
#[derive(Drop)]
pub struct Names {
    alloc: Global,
    entries: Vec<(Text, Looked)>,
}

impl Model for Names {
    ghost use Rattle.calc_model.specs.Books.{NameEntries};
    ghost use Rattle.calc_names.specs.Kept.{AreKept, seen_entries};

    ghost Value = { NameEntries };

    ghost view = { λ names. seen_entries names.entries.items };

    ghost invariant = { λ names. AreKept names.entries.items };
}

impl Names {
    /// No name.
    pub fn new(alloc: Global) -> Names
        ensures { result ≡ [] }
    {
        Names {
            alloc,
            entries: Vec::new(alloc),
        }
    }

    /// The names in capitals and in order, each with what a look-up of it gives, which is never
    /// `Absent`.
    pub fn entries(&self) -> &[(Text, Looked)]
        ensures entries { result.now ≡ with_answers self.now }
        ensures names { AreNames self.now }
    {
        &self.entries
    }

    /// Gives the name that area, whether or not it stood for another. A new name moves those behind
    /// it.
    pub fn define(&mut self, name: &Text, area: Area) -> Result<(), NameFault>
        ensures ok { OnOk result (self.new ≡ with_name self.old name.now area) }
        ensures err { OnErr result (self.new ≡ self.old) }
        ensures bad_name { IsErrOf result NameFault.BadName ↔ (is_name name.now ≡ false) }
        ensures full { IsErrOf result NameFault.Full ↔ IsOneTooMany self.old name.now }
        ensures no_name { ¬ (IsErrOf result NameFault.NoName) }
    {
        if !is_name(name.bytes()) {
            return Err(NameFault::BadName);
        }
        let area = in_sheets(area);
        match place_of(&self.entries, name.bytes()) {
            Ok(at) => self.entries[at].1 = Looked::At(area),
            Err(at) => {
                if self.entries.len() == MOST_NAMES {
                    return Err(NameFault::Full);
                }
                add(self.alloc, &mut self.entries, at, name, area).map_err(NameFault::NoMemory)?;
            }
        }
        Ok(())
    }

    /// Takes the name away, and moves those behind it. It takes no memory.
    pub fn remove(&mut self, name: &Text) -> Result<(), NameFault>
        ensures ok { OnOk result (self.new ≡ without_name self.old name.now) }
        ensures err { OnErr result (self.new ≡ self.old) }
        ensures no_name { IsErrOf result NameFault.NoName ↔ (is_defined self.old name.now ≡ false) }
        ensures only { OnErr result (IsErrOf result NameFault.NoName) }
    {
        match place_of(&self.entries, name.bytes()) {
            Ok(at) => {
                self.entries.remove(at);
                Ok(())
            }
            Err(_) => Err(NameFault::NoName),
        }
    }

    /// Moves the areas of a sheet with its rows where `count` rows are inserted at the row `place`.
    /// Linear in the names.
    pub fn insert_rows(&mut self, sheet: u8, place: u32, count: u32)
        requires sheet { sheet ≤ LAST_SHEET }
        requires from { 1 ≤ place }
        requires some { 1 ≤ count }
        requires to { place + count ≤ LAST_ROW + 1 }
        ensures { self.new ≡ names_after_insertion sheet place count self.old }
    {
        insert_rows(&mut self.entries, sheet, place, count);
    }

    /// The same where `count` rows from the row `place` on are deleted: a name whose area has no
    /// row left stays, without an area.
    pub fn delete_rows(&mut self, sheet: u8, place: u32, count: u32)
        requires sheet { sheet ≤ LAST_SHEET }
        requires from { 1 ≤ place }
        requires some { 1 ≤ count }
        requires to { place + count ≤ LAST_ROW + 1 }
        ensures { self.new ≡ names_after_deletion sheet place count self.old }
    {
        delete_rows(&mut self.entries, sheet, place, count);
    }
}

/// Puts the name in capitals at that place, with its area.
fn add(
    alloc: Global,
    entries: &mut Vec<(Text, Looked)>,
    at: usize,
    name: &Text,
    area: Area,
) -> Result<(), NoMemory>
    requires { at ≤ vec_len entries.old }
    ensures ok { OnOk result (entries.new.items
        ≡ insert entries.old.items at (str_to_ascii_uppercase name.now, Looked.At area)) }
    ensures err { OnErr result (entries.new.items ≡ entries.old.items) }
{
    let key = in_capitals(alloc, name)?;
    entries.insert(at, (key, Looked::At(area)))?;
    Ok(())
}

/// The area, which lies in a sheet as every area does.
fn in_sheets(area: Area) -> Area
    ensures same { result ≡ area }
    ensures lies { is_rectangle area ≡ true }
{
    let _ = area.sheet;
    area
}

impl NameTable for Names {
    ghost entries = { λ names. names };

    #[tactic(auto, unfolding(calc_model::specs::Books::entry_named))]
    fn lookup(&self, name: &[u8]) -> Looked {
        match place_of(&self.entries, name) {
            Ok(at) => self.entries[at].1,
            Err(_) => Looked::Absent,
        }
    }
}
