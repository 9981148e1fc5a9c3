ghost use Rattle.calc_model.specs.Meanings.{values_in};
ghost use Rattle.calc_watch.specs.Reports.{IsToldInPart, described, told_all, told_first, watched};
ghost use Rattle.std.specs.List.{flat_map};
ghost use Rattle.std.specs.Prelude.{OnErr, OnOk, [], length, map, nat_lt, take, ℕ, ◌++◌, ◌-◌, ◌∷◌, ◌≡◌};

use crate::known::{changes, values_in};
use crate::report::Report;
use crate::watcher::Watcher;
use calc_addr::{Area, NoMemory};
use calc_model::{Value, Values};
use std::alloc::Global;
use std::marker::Model;

/// A watcher of an area, with the values of the area's cells that it last knew, in area order.
#[derive(Drop)]
struct Watch<W: Watcher> {
    watcher: W,
    area: Area,
    known: Vec<Value>,
}

impl<W: Watcher> Model for Watch<W> {
    ghost use Rattle.calc_watch.specs.Reports.{Watched, watched};

    ghost Value = { Watched };

    ghost view = { λ w. watched w.area w.known.items (W.told w.watcher) };
}

/// The watchers that are attached, in the order of attaching. Contracts see of each its area, the values
/// that it knows, and all that it was told.
#[derive(Drop)]
pub struct Desktop<W: Watcher> {
    alloc: Global,
    watches: Vec<Watch<W>>,
}

impl<W: Watcher> Model for Desktop<W> {
    ghost use Rattle.std.specs.Prelude.{List};
    ghost use Rattle.calc_watch.specs.Reports.{Watched};

    ghost Value = { List Watched };

    ghost view = { λ d. d.watches.items };
}

impl<W: Watcher> Desktop<W> {
    /// No watcher.
    pub fn new(alloc: Global) -> Desktop<W>
        ensures { result ≡ [] }
    {
        Desktop {
            alloc,
            watches: Vec::new(alloc),
        }
    }

    /// How many watchers are attached.
    pub fn count(&self) -> usize
        ensures { result ≡ length self.now }
    {
        self.watches.len()
    }

    /// Attaches a watcher of an area, which knows the values that the cells have now. Where memory
    /// is refused, the watcher is dropped. Linear in the area's cells.
    pub fn attach<V: Values>(&mut self, watcher: W, area: Area, values: &V) -> Result<(), NoMemory>
        ensures ok { OnOk result (self.new ≡ self.old
            ++ watched area (values_in (V.values values.now) area) (W.told watcher) ∷ []) }
        ensures err { OnErr result (self.new ≡ self.old) }
    {
        let known = values_in(self.alloc, values, area)?;
        self.watches.push(Watch {
            watcher,
            area,
            known,
        })?;
        Ok(())
    }

    /// Tells each watcher, in the order of attaching, of each cell of its area whose value differs
    /// from the one that it knows. Linear in the cells of the areas.
    pub fn tell_all<V: Values>(&mut self, values: &V) -> Result<(), NoMemory>
        ensures ok { OnOk result (self.new ≡ map (told_all (V.values values.now)) self.old) }
        ensures err { OnErr result (IsToldInPart (V.values values.now) self.old self.new) }
    {
        for watch in self.watches.iter_mut() {
            tell(self.alloc, watch, values)?;
        }
        Ok(())
    }

    /// Appends what the watchers were told, in the order of attaching.
    pub fn describe_all(&self, out: &mut Vec<u8>) -> Result<(), NoMemory>
        ensures ok { OnOk result
            (out.new.items ≡ out.old.items ++ flat_map (λ w. described w.told) self.now) }
        ensures err { OnErr result (out.new.items ≡ out.old.items) }
    {
        let mut lines = Vec::new(self.alloc);
        for watch in &self.watches {
            describe(watch, &mut lines)?;
        }
        out.extend_from_slice(&lines)
    }

    /// Drops the watcher that was attached last. False where none is attached.
    pub fn detach(&mut self) -> bool
        ensures found { result ≡ nat_lt 0 (length self.old) }
        ensures left { self.new ≡ take (length self.old - 1) self.old }
    {
        self.watches.pop().is_some()
    }
}

/// Tells a watcher of each cell of its area whose value differs from the one that it knows.
fn tell<W: Watcher, V: Values>(
    alloc: Global,
    watch: &mut Watch<W>,
    values: &V,
) -> Result<(), NoMemory>
    ensures ok { OnOk result (watch.new ≡ told_all (V.values values.now) watch.old) }
    ensures err { OnErr result
        ((n : ℕ) × (watch.new ≡ told_first (V.values values.now) n watch.old)) }
{
    let reports = changes(alloc, values, watch.area, &watch.known)?;
    let known = values_in(alloc, values, watch.area)?;
    tell_reports(&mut watch.watcher, &reports)?;
    watch.known = known;
    Ok(())
}

/// Tells a watcher the reports, one after the other.
fn tell_reports<W: Watcher>(watcher: &mut W, reports: &[Report]) -> Result<(), NoMemory>
    ensures ok { OnOk result (W.told watcher.new ≡ W.told watcher.old ++ reports.now) }
    ensures err { OnErr result ((n : ℕ)
        × (W.told watcher.new ≡ W.told watcher.old ++ take n reports.now)) }
{
    for report in reports {
        watcher.tell(report)?;
    }
    Ok(())
}

fn describe<W: Watcher>(watch: &Watch<W>, out: &mut Vec<u8>) -> Result<(), NoMemory>
    ensures { OnOk result (out.new.items ≡ out.old.items ++ described watch.now.told) }
{
    watch.watcher.describe(out)
}
