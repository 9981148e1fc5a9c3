//! A workbook with its watchers.
ghost use Rattle.std.specs.List.{All, flat_map};
ghost use Rattle.std.specs.Prelude.{◌≡◌, ◌≤◌, ◌-◌, ◌↔◌, ◌++◌, ◌==◌, [], not, true, false, length, IfOk, IfSome, IsSome, OnErr, OnOk};
ghost use Rattle.calc_cli.specs.Output.{recalculated, with_watcher, without_watcher};
ghost use Rattle.calc_cli.specs.Sessions.{session_of};
ghost use Rattle.calc_addr.specs.Places.{Place};
ghost use Rattle.calc_model.specs.Stale.{count_in};
ghost use Rattle.calc_model.specs.Val.{val};
ghost use Rattle.calc_watch.specs.Reports.{described};
ghost use Rattle.workbook.specs.Workbook.{IsFresh, stale_of, values_of};

use calc_addr::{Area, NoMemory};
use calc_io::NoGate;
use calc_model::Steps;
use calc_watch::{Desktop, Watcher};
use recalc::Recalculated;
use std::alloc::Global;
use std::marker::{Brand, Model};
use std::sync::ledger::{Blank, Ledger};
use workbook::Workbook;

/// The parts of a counter of steps: one for each worker that there may be, and one that stays.
const PARTS: u64 = 65;

/// A workbook, the watchers that are attached to its cells, and the stock of those that aren't yet, which
/// were told nothing.
#[derive(Drop)]
pub(crate) struct Session<W: Watcher> {
    pub(crate) workbook: Workbook,
    desktop: Desktop<W>,
    stock: Vec<W>,
}

impl<W: Watcher> Model for Session<W> {
    ghost use Rattle.std.specs.List.{All};
    ghost use Rattle.std.specs.Prelude.{◌≡◌, [], length};
    ghost use Rattle.calc_cli.specs.Sessions.{SessionState};
    ghost use Rattle.calc_model.specs.contracts.tree.Tree as coded_tree;
    ghost use Rattle.std.specs.Coded.{codes};

    ghost Value = { SessionState };

    ghost coded = { Prim.hlevel (codes, coded_tree.the_row.coded) };

    ghost view = { λ s. record {
      workbook = s.workbook;
      watchers = s.desktop;
      stock = length s.stock.items;
    } };

    ghost use Rattle.workbook.specs.Workbook.{IsFresh};

    ghost invariant = { λ s. IsFresh s.workbook × All (λ w. W.told w ≡ []) s.stock.items };
}

impl<W: Watcher> Session<W> {
    /// A workbook with no watcher attached.
    pub(crate) fn new(alloc: Global, workbook: Workbook, stock: Vec<W>) -> Session<W>
        requires fresh { IsFresh workbook }
        requires told { All (λ w. W.told w ≡ []) stock.items }
        ensures workbook { result.workbook ≡ workbook }
        ensures watchers { result.watchers ≡ [] }
        ensures stock { result.stock ≡ length stock.items }
    {
        Session {
            workbook,
            desktop: Desktop::new(alloc),
            stock,
        }
    }

    /// Recalculates, and tells each watcher what changed.
    pub(crate) fn recalculate(&mut self, alloc: Global) -> Result<Recalculated, NoMemory>
        ensures count { IfOk result (λ done. done.stale
            ≡ count_in self.old.workbook.book (stale_of self.old.workbook)) }
        ensures values { OnOk result (values_of self.new.workbook ≡ val self.new.workbook.book) }
        ensures session { OnOk result
            (session_of self.new ≡ recalculated (session_of self.old)) }
    {
        let done = recalculate::<Brand>(alloc, &mut self.workbook, Blank::new(PARTS))?;
        self.desktop.tell_all(&self.workbook.values())?;
        Ok(done)
    }

    /// Recalculates and attaches a watcher of the area. False where none is in stock, and then all stays.
    pub(crate) fn watch(&mut self, alloc: Global, area: Area) -> Result<bool, NoMemory>
        ensures found { IfOk result (λ found. found ≡ not (self.old.stock == 0)) }
        ensures none { IfOk result (λ found. found ≡ false → self.new ≡ self.old) }
        ensures session { IfOk result (λ found. found ≡ true
            → session_of self.new ≡ with_watcher (recalculated (session_of self.old)) area) }
    {
        if self.stock.is_empty() {
            return Ok(false);
        }
        self.recalculate(alloc)?;
        self.attach(area)?;
        Ok(true)
    }

    /// Attaches a watcher of the area, which knows what its cells show.
    fn attach(&mut self, area: Area) -> Result<(), NoMemory>
        requires some { 1 ≤ self.old.stock }
        requires values { values_of self.old.workbook ≡ val self.old.workbook.book }
        ensures { OnOk result (session_of self.new ≡ with_watcher (session_of self.old) area) }
    {
        match take_one(&mut self.stock) {
            Some(watcher) => self.desktop.attach(watcher, area, &self.workbook.values()),
            None => Ok(()),
        }
    }

    /// Appends what the watchers were told. False where none is attached.
    pub(crate) fn describe(&self, out: &mut Vec<u8>) -> Result<bool, NoMemory>
        ensures found { IfOk result (λ found. found ≡ not (length self.now.watchers == 0)) }
        ensures text { OnOk result (out.new.items ≡ out.old.items
            ++ flat_map (λ watch. described watch.told) self.now.watchers) }
    {
        self.desktop.describe_all(out)?;
        Ok(self.desktop.count() != 0)
    }

    /// Drops the watcher that was attached last. False where none is attached, and then all stays.
    pub(crate) fn unwatch(&mut self) -> bool
        ensures found { result ≡ not (length self.old.watchers == 0) }
        ensures none { result ≡ false → self.new ≡ self.old }
        ensures session { result ≡ true
            → session_of self.new ≡ without_watcher (session_of self.old) }
    {
        self.desktop.detach()
    }
}

/// Recalculates with a counter of steps of its own.
fn recalculate<L: Ledger>(
    alloc: Global,
    workbook: &mut Workbook,
    blank: Blank,
) -> Result<Recalculated, NoMemory>
    requires name { blank.name ≡ L.name }
    requires parts { blank.parts ≡ L.parts }
    requires enough { PARTS ≤ blank.parts }
    requires fresh { IsFresh workbook.old }
    ensures count { IfOk result (λ done.
        done.stale ≡ count_in workbook.old.book (stale_of workbook.old)) }
    ensures values { OnOk result ((q : Place)
        → values_of workbook.new q ≡ val workbook.new.book q) }
    ensures stale { OnOk result ((q : Place) → stale_of workbook.new q ≡ false) }
    ensures kept { OnErr result ((q : Place)
        → stale_of workbook.new q ≡ stale_of workbook.old q) }
    ensures fresh { IsFresh workbook.new }
    ensures book { workbook.new.book ≡ workbook.old.book }
    ensures alive { workbook.new.dead ≡ workbook.old.dead }
{
    let (_book, share) = blank.open::<L>();
    let mut steps = Steps::new(share);
    workbook.recalculate(alloc, 1, &NoGate, &mut steps)
}

/// Takes a watcher that was told nothing.
fn take_one<W: Watcher>(stock: &mut Vec<W>) -> Option<W>
    requires { All (λ w. W.told w ≡ []) stock.old.items }
    ensures told { IfSome result (λ w. W.told w ≡ []) }
    ensures left { All (λ w. W.told w ≡ []) stock.new.items }
    ensures found { IsSome result ↔ (1 ≤ length stock.old.items) }
    ensures less { length stock.new.items ≡ length stock.old.items - 1 }
{
    stock.pop()
}
