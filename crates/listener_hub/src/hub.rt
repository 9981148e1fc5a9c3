ghost use Rattle.std.specs.Prelude.{◌≡◌, ◌≤◌, false, length, true, None, Some, OnErr, OnOk, if◌then◌else◌};
ghost use Rattle.std.specs.List.{All};
ghost use Rattle.calc_addr.specs.Places.{Place, single};
ghost use Rattle.calc_model.specs.Listeners.{AreReaders, Gets};
ghost use Rattle.ears.specs.RowEdits.{IsRowEdit};
ghost use Rattle.ears.specs.RunAreas.{LieInSheet};
ghost use Rattle.registration_slab.specs.Changes.{IsPut, IsSlabOf};
ghost use Rattle.listener_hub.specs.Hubs.{areas_read};
ghost use Rattle.listener_hub.specs.Moves.{IsMoved, KeepsAll, deletion, insertion};
ghost use Rattle.registration_slab.specs.Slab.{areas_at, areas_of, is_in, steps_of};

use crate::parting::push_parts;
use crate::reaching::push_reached;
use crate::readers::{push_readers, push_reads};
use crate::row_edits::move_rows;
use calc_addr::{Area, Cell, NoMemory, Run};
use calc_model::{Dependents, Ear, Part};
use ears::{Change, RowEdit};
use registration_slab::{Slab, empty, put_joined, registration_of, remove_run, split_at};
use std::alloc::Global;
use std::marker::Model;

/// Which formula cells there are, and which of them read a cell. Contracts see the areas that each
/// formula cell reads, and whether the hub is spent.
///
/// Whole runs of formulas are registered. A hub is spent when memory was refused in the midst of a
/// change, and forgets all then.
#[derive(Drop)]
pub struct Hub {
    slab: Slab,
    spent: bool,
}

impl Model for Hub {
    ghost use Rattle.listener_hub.specs.Known.{Known};

    ghost Value = { Known };

    ghost use Rattle.registration_slab.specs.Changes.{IsSlabOf};

    ghost view = { λ h. record { registrations = h.slab.registrations.items; listeners = h.slab.ears; spent = h.spent } };

    ghost invariant = { λ h. IsSlabOf h.slab };
}

impl Hub {
    /// No formula cell, which takes no memory.
    pub fn new(alloc: Global) -> Hub
        ensures areas { (q : Place) → areas_read result q ≡ None }
        ensures ready { result.spent ≡ false }
    {
        Hub {
            slab: empty(alloc),
            spent: false,
        }
    }

    /// Whether nothing may be asked of it any more.
    pub fn is_spent(&self) -> bool
        ensures { result ≡ self.now.spent }
    {
        self.spent
    }

    /// Makes it spent.
    pub fn spend(&mut self)
        ensures { self.new.spent ≡ true }
    {
        self.slab = empty(self.slab.alloc);
        self.spent = true;
    }

    /// How many pairs of an area and a run of formulas that reads it its listeners hold. It serves tests
    /// alone.
    pub fn registrations(&self) -> u64
        ensures { result ≡ length self.now.listeners }
    {
        self.slab.ears.len() as u64
    }

    /// Adds the cells of a run, none of which is there, with the areas that they read: the ears are
    /// those of the run's first row. It is registered as one with the runs in front of it and behind it
    /// that it goes on with. Linear in the ears, each of which takes the logarithm of the registrations,
    /// however many rows there are.
    pub fn attach(&mut self, run: Run, ears: &[Ear]) -> Result<(), NoMemory>
        requires ready { self.old.spent ≡ false }
        requires absent { (q : Place) → is_in run q ≡ true → areas_read self.old q ≡ None }
        requires inside { All (LieInSheet (steps_of run)) ears.now }
        ensures areas { OnOk result ((q : Place) → areas_read self.new q
            ≡ (if is_in run q then Some (areas_at ears.now run.first q.row)
            else areas_read self.old q)) }
        ensures ready { OnOk result (self.new.spent ≡ false) }
        ensures spent { OnErr result (self.new.spent ≡ true) }
    {
        let done = attach_in(&mut self.slab, &run, ears);
        settle(&mut self.slab, &mut self.spent, done)
    }

    /// Takes away the cells of a run that are there. Linear in the registrations that have some of them,
    /// and in what is registered anew of those that are cut, each in the logarithm of all.
    pub fn detach(&mut self, run: Run) -> Result<(), NoMemory>
        requires { self.old.spent ≡ false }
        ensures areas { OnOk result ((q : Place) → areas_read self.new q
            ≡ (if is_in run q then None else areas_read self.old q)) }
        ensures ready { OnOk result (self.new.spent ≡ false) }
        ensures spent { OnErr result (self.new.spent ≡ true) }
    {
        let done = remove_run(&mut self.slab, &run);
        settle(&mut self.slab, &mut self.spent, done)
    }

    /// Cuts what is registered of the run's column in two in front of a row of the run, which changes
    /// nothing of what cells read.
    pub fn split(&mut self, run: Run, row: u32) -> Result<(), NoMemory>
        requires ready { self.old.spent ≡ false }
        requires from { run.first ≤ row }
        requires to { row ≤ run.last }
        ensures areas { OnOk result ((q : Place) → areas_read self.new q ≡ areas_read self.old q) }
        ensures ready { OnOk result (self.new.spent ≡ false) }
        ensures spent { OnErr result (self.new.spent ≡ true) }
    {
        let cell = Cell {
            sheet: run.sheet,
            col: run.col,
            row,
        };
        let done = split_at(&mut self.slab, &cell);
        settle(&mut self.slab, &mut self.spent, done)
    }

    /// Moves every cell with its row, and every area on the sheet with its rows, when `count` rows are
    /// inserted at the row `place`. No formula cell may be pushed past the last row. What is one run again
    /// afterwards is registered as one. Linear in what is registered, each registration in the logarithm of
    /// all, whatever the rows.
    pub fn insert_rows(&mut self, sheet: u8, place: u32, count: u32) -> Result<(), NoMemory>
        requires ready { self.old.spent ≡ false }
        requires edit { IsRowEdit (insertion sheet place count) }
        requires stays { KeepsAll (insertion sheet place count) (areas_read self.old) }
        ensures moved { OnOk result (IsMoved (insertion sheet place count)
            (areas_read self.old) (areas_read self.new)) }
        ensures ready { OnOk result (self.new.spent ≡ false) }
        ensures spent { OnErr result (self.new.spent ≡ true) }
    {
        let edit = RowEdit {
            change: Change::Insertion,
            sheet,
            place,
            count,
        };
        let done = move_rows(&mut self.slab, &edit);
        settle(&mut self.slab, &mut self.spent, done)
    }

    /// The same when `count` rows from the row `place` on are deleted: the cells in them and the areas
    /// that lie in them go.
    pub fn delete_rows(&mut self, sheet: u8, place: u32, count: u32) -> Result<(), NoMemory>
        requires ready { self.old.spent ≡ false }
        requires edit { IsRowEdit (deletion sheet place count) }
        ensures moved { OnOk result (IsMoved (deletion sheet place count)
            (areas_read self.old) (areas_read self.new)) }
        ensures ready { OnOk result (self.new.spent ≡ false) }
        ensures spent { OnErr result (self.new.spent ≡ true) }
    {
        let edit = RowEdit {
            change: Change::Deletion,
            sheet,
            place,
            count,
        };
        let done = move_rows(&mut self.slab, &edit);
        settle(&mut self.slab, &mut self.spent, done)
    }

    /// Appends each formula cell that reads the cell, once, in the order of cells. It costs what `readers` of
    /// one cell costs.
    pub fn dependents(&self, cell: Cell, out: &mut Vec<Cell>) -> Result<(), NoMemory>
        requires { self.now.spent ≡ false }
        ensures ok { OnOk result (Gets out.old.items out.new.items
            (AreReaders (areas_read self.now) (single cell))) }
        ensures err { OnErr result (out.new.items ≡ out.old.items) }
    {
        let area = Area {
            sheet: cell.sheet,
            first_col: cell.col,
            last_col: cell.col,
            first_row: cell.row,
            last_row: cell.row,
        };
        push_readers(&self.slab, &area, out)
    }
}

impl Dependents for Hub {
    ghost use Rattle.listener_hub.specs.Hubs.{areas_read, is_ready};

    ghost areas = { areas_read };

    ghost ready = { is_ready };

    /// Appends each formula cell that reads a cell of the area, once, in the order of cells. Linear in the
    /// registrations that are looked at, as `AreaListeners::meeting` says, and in the cells that are
    /// appended.
    fn readers(&self, area: Area, out: &mut Vec<Cell>) -> Result<(), NoMemory> {
        push_readers(&self.slab, &area, out)
    }

    /// Appends the areas that the cell reads, in the order in which its ears were given. Linear in them,
    /// and in the registrations of its column that are looked at.
    fn reads(&self, cell: Cell, out: &mut Vec<Area>) -> Result<(), NoMemory> {
        push_reads(&self.slab, &cell, out)
    }

    /// Appends the rows that read a cell of the area, as runs. In a run whose rows each read the one above
    /// them all rows below are appended with the first one, and so upwards. Linear in the registrations
    /// that are looked at, as `AreaListeners::meeting` says, whatever the rows.
    fn reached(&self, area: Area, out: &mut Vec<Run>) -> Result<(), NoMemory> {
        push_reached(&self.slab, &area, out)
    }

    /// Appends the parts of the run, one for each registration. Linear in the registrations of the column
    /// that are looked at, of which those with rows of it are sorted, and in their ears.
    fn parts(&self, run: Run, parts: &mut Vec<Part>, ears: &mut Vec<Ear>) -> Result<(), NoMemory> {
        push_parts(&self.slab, &run, parts, ears)
    }
}

/// Leaves a hub spent where memory was refused.
fn settle(slab: &mut Slab, spent: &mut bool, done: Result<(), NoMemory>) -> Result<(), NoMemory>
    requires { OnOk done (IsSlabOf slab.old) }
    ensures result { result ≡ done }
    ensures slab { IsSlabOf slab.new }
    ensures areas { OnOk result (slab.new.registrations.items ≡ slab.old.registrations.items) }
    ensures same { OnOk result (spent.new ≡ spent.old) }
    ensures spent { OnErr result (spent.new ≡ true) }
{
    if done.is_err() {
        *slab = empty(slab.alloc);
        *spent = true;
    }
    done
}

fn attach_in(slab: &mut Slab, run: &Run, ears: &[Ear]) -> Result<(), NoMemory>
    requires slab { IsSlabOf slab.old }
    requires absent { (q : Place) → is_in run.now q ≡ true
        → areas_of slab.old.registrations.items q ≡ None }
    requires inside { All (LieInSheet (steps_of run.now)) ears.now }
    ensures slab { OnOk result (IsSlabOf slab.new) }
    ensures areas { OnOk result ((q : Place) → areas_of slab.new.registrations.items q
        ≡ (if is_in run.now q then Some (areas_at ears.now run.now.first q.row)
        else areas_of slab.old.registrations.items q)) }
{
    let ears = Vec::from_slice(slab.alloc, ears)?;
    put_joined(slab, registration_of(run, ears))?;
    Ok(())
}
