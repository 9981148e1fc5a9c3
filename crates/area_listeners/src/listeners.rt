ghost use Rattle.std.specs.Prelude.{◌≡◌, ◌&&◌, ◌||◌, not, [], length, OnOk, OnErr, IfOk};
ghost use Rattle.area_listeners.specs.Pairs.{AreMeeting, holds, is_same};

use crate::gathering::{Ids, Spots, push_all};
use crate::listener::Listener;
use crate::spot::{CLASSES, spot_of};
use calc_addr::{Area, NoMemory};
use smallvec::SmallVec;
use std::alloc::Global;
use std::collections::BTreeSet;
use std::marker::Model;

/// Pairs of an area and an id, each once, which contracts see as a list.
///
/// A pair is kept once, however large its area: in the class of areas of about as many rows, by the column
/// and the first row. An area in several columns is kept by its first row alone.
#[derive(Drop)]
pub struct AreaListeners {
    alloc: Global,
    spots: Spots,
    /// The classes that a pair was added to.
    used: [bool; CLASSES],
}

impl Model for AreaListeners {
    ghost use Rattle.std.specs.Prelude.{map};
    ghost use Rattle.std.specs.List.{All};
    ghost use Rattle.area_listeners.specs.Pairs.{Pairs};
    ghost use Rattle.area_listeners.specs.Spots.{IsInUse, IsPlaced, listener_of};

    ghost Value = { Pairs };

    ghost view = { λ l. map listener_of l.spots.keys };

    ghost invariant = { λ l. All IsPlaced l.spots.keys × All (IsInUse l.used) l.spots.keys };
}

impl AreaListeners {
    /// No pair, which takes no memory.
    pub fn new(alloc: Global) -> AreaListeners
        ensures { result ≡ [] }
    {
        AreaListeners {
            alloc,
            spots: BTreeSet::new(alloc),
            used: [false; CLASSES],
        }
    }

    /// How many pairs there are.
    pub fn len(&self) -> usize
        ensures { result ≡ length self.now }
    {
        self.spots.len()
    }

    /// Adds a pair. Logarithmic in the pairs. Where memory is refused, the pairs stay.
    pub fn add(&mut self, listener: &Listener) -> Result<(), NoMemory>
        ensures ok { OnOk result ((l : Listener) → holds self.new l
            ≡ (holds self.old l || is_same l listener.now)) }
        ensures err { OnErr result ((l : Listener) → holds self.new l ≡ holds self.old l) }
    {
        let spot = spot_of(listener);
        self.used[spot.class as usize] = true;
        self.spots.insert(spot)?;
        Ok(())
    }

    /// Takes a pair away. Logarithmic in the pairs.
    pub fn remove(&mut self, listener: &Listener)
        ensures { (l : Listener) → holds self.new l
            ≡ (holds self.old l && not (is_same l listener.now)) }
    {
        self.spots.remove(&spot_of(listener));
    }

    /// The ids of the pairs whose areas have a cell of an area, each once and rising.
    ///
    /// Where all areas are of one cell, it is linear in the ids, beside a search in each column of the area.
    /// Of areas of more rows those are looked at, too, that end above it by at most three times their rows,
    /// and of areas in several columns those beside it. No more pairs are ever looked at than there are.
    pub fn meeting(&self, area: &Area) -> Result<Ids, NoMemory>
        ensures { IfOk result (λ ids. AreMeeting self.now area.now ids.items) }
    {
        let mut ids = SmallVec::new(self.alloc);
        push_all(&self.spots, &self.used, area, &mut ids)?;
        ids.sort_unstable();
        ids.dedup();
        Ok(ids)
    }
}
