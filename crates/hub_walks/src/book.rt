//! A hub whose cells all lie above a known row.
ghost use Rattle.std.specs.Prelude.{◌≡◌, ◌≤◌, ◌-◌, false, true, IfOk};
ghost use Rattle.std.specs.List.{All};
ghost use Rattle.calc_addr.specs.declared.cell.TheConstants.{LAST_ROW};
ghost use Rattle.calc_model.specs.Ears.{end_at};
ghost use Rattle.ears.specs.RunAreas.{LieInSheet};

use calc_addr::{LAST_ROW, NoMemory, Run};
use calc_model::Ear;
use listener_hub::Hub;
use std::alloc::{AllocError, Global};
use std::marker::Model;

#[derive(Drop)]
pub struct Book {
    hub: Hub,
    bottom: u32,
}

impl Model for Book {
    ghost use Rattle.listener_hub.specs.Known.{Known};
    ghost use Rattle.hub_walks.specs.Books.{EndsAt};

    ghost Value = { Known };

    ghost view = { λ b. b.hub };

    ghost invariant = { λ b. EndsAt b.hub b.bottom };
}

impl Book {
    pub fn new(alloc: Global) -> Book {
        Book {
            hub: Hub::new(alloc),
            bottom: 0,
        }
    }

    /// The hub, which may be asked.
    pub fn hub(&self) -> Result<&Hub, NoMemory>
        ensures { IfOk result (λ hub. hub.now.spent ≡ false) }
    {
        if self.hub.is_spent() {
            return Err(AllocError);
        }
        Ok(&self.hub)
    }

    /// Puts a run in the place of what is there, if what its rows read lies in the sheet.
    pub fn attach(&mut self, run: Run, ears: &[Ear]) -> Result<bool, NoMemory> {
        if self.hub.is_spent() {
            return Err(AllocError);
        }
        if !all_fit(run.last - run.first, ears) {
            return Ok(false);
        }
        self.hub.detach(run)?;
        self.bottom = self.bottom.max(run.last);
        self.hub.attach(run, ears)?;
        Ok(true)
    }

    pub fn detach(&mut self, run: Run) -> Result<(), NoMemory> {
        if self.hub.is_spent() {
            return Err(AllocError);
        }
        self.hub.detach(run)
    }

    pub fn split(&mut self, run: Run) -> Result<(), NoMemory> {
        if self.hub.is_spent() {
            return Err(AllocError);
        }
        let last = run.last;
        self.hub.split(run, last)
    }

    /// Inserts rows, unless a cell could be pushed out.
    pub fn insert(&mut self, sheet: u8, place: u32, count: u32) -> Result<bool, NoMemory>
        requires place { 1 ≤ place }
        requires some { 1 ≤ count }
        requires to { place ≤ 1000 }
        requires few { count ≤ 1000 }
    {
        if self.hub.is_spent() {
            return Err(AllocError);
        }
        if place > self.bottom || self.bottom > LAST_ROW - count {
            return Ok(false);
        }
        self.hub.insert_rows(sheet, place, count)?;
        self.bottom += count;
        Ok(true)
    }

    pub fn delete(&mut self, sheet: u8, place: u32, count: u32) -> Result<bool, NoMemory>
        requires place { 1 ≤ place }
        requires some { 1 ≤ count }
        requires to { place ≤ 1000 }
        requires few { count ≤ 1000 }
    {
        if self.hub.is_spent() {
            return Err(AllocError);
        }
        if place > self.bottom {
            return Ok(false);
        }
        self.hub.delete_rows(sheet, place, count)?;
        Ok(true)
    }
}

fn all_fit(steps: u32, ears: &[Ear]) -> bool
    ensures { result ≡ true → All (LieInSheet steps) ears.now }
{
    for ear in ears {
        if !fits(steps, ear) {
            return false;
        }
    }
    true
}

fn fits(steps: u32, ear: &Ear) -> bool
    ensures { result ≡ true → LieInSheet steps ear.now }
{
    if steps > LAST_ROW {
        return false;
    }
    let area = &ear.area;
    let first = end_at(ear.first_moves, area.first_row, steps);
    let last = end_at(ear.last_moves, area.last_row, steps);
    first <= last && last <= LAST_ROW
}

fn end_at(moves: bool, row: u32, steps: u32) -> u32
    requires row { row ≤ LAST_ROW }
    requires steps { steps ≤ LAST_ROW }
    ensures { result ≡ end_at moves row steps }
{
    if moves { row + steps } else { row }
}
