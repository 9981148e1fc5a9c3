ghost use Rattle.std.specs.Prelude.{◌≡◌, ◌≤◌, ◌==◌, true, ℕ, [], None, Some, length, vec_len, OnOk, IfOk, if◌then◌else◌};
ghost use Rattle.std.specs.List.{All};
ghost use Rattle.calc_addr.specs.Places.{Place};
ghost use Rattle.ears.specs.RunAreas.{LieInSheet};
ghost use Rattle.registration_slab.specs.Slab.{IsSlab, Registrations, areas_at, areas_of, at, has_cell, is_in, steps_of};
ghost use Rattle.registration_slab.specs.Changes.{IsPut, IsSlabOf};

use crate::listening::{area_of, listen, listen_no_more, steps_of};
use crate::registration::Registration;
use area_listeners::{AreaListeners, Listener};
use calc_addr::{NoMemory, Run};
use calc_model::Ear;
use std::alloc::Global;

/// Registrations by place, and who listens to what they read and to where they stand.
#[derive(Drop)]
pub struct Slab {
    pub alloc: Global,
    pub registrations: Vec<Option<Registration>>,
    /// Places at which there may be no registration.
    pub free: Vec<usize>,
    pub ears: AreaListeners,
    pub homes: AreaListeners,
}

/// No registration.
pub fn empty(alloc: Global) -> Slab
    ensures slab { IsSlabOf result }
    ensures none { result.registrations.items ≡ [] }
{
    Slab {
        alloc,
        registrations: Vec::new(alloc),
        free: Vec::new(alloc),
        ears: AreaListeners::new(alloc),
        homes: AreaListeners::new(alloc),
    }
}

/// A place without registration, which may be that behind the last one.
fn find_place(registrations: &[Option<Registration>], free: &mut Vec<usize>) -> usize
    ensures within { result ≤ length registrations.now }
    ensures none { at registrations.now result ≡ None }
{
    if let Some(place) = free.pop() {
        if place < registrations.len() && registrations[place].is_none() {
            return place;
        }
    }
    registrations.len()
}

fn put_at(
    registrations: &mut Vec<Option<Registration>>,
    place: usize,
    registration: Registration,
) -> Result<(), NoMemory>
    requires { place ≤ vec_len registrations.old }
    ensures { OnOk result ((i : ℕ) → at registrations.new.items i
        ≡ (if i == place then Some registration else at registrations.old.items i)) }
{
    if place < registrations.len() {
        registrations[place] = Some(registration);
        Ok(())
    } else {
        registrations.push(Some(registration))?;
        Ok(())
    }
}

fn take_at(registrations: &mut Vec<Option<Registration>>, place: usize) -> Option<Registration>
    ensures was { result ≡ at registrations.old.items place }
    ensures left { (i : ℕ) → at registrations.new.items i
        ≡ (if i == place then None else at registrations.old.items i) }
{
    registrations.get_mut(place)?.take()
}

/// Registers a run of cells that aren't there yet, by the ears of its first row. Where memory is refused,
/// nothing holds of the slab any more.
pub(crate) fn put(slab: &mut Slab, run: &Run, ears: Vec<Ear>) -> Result<(), NoMemory>
    requires slab { IsSlabOf slab.old }
    requires absent { (q : Place) → is_in run.now q ≡ true
        → areas_of slab.old.registrations.items q ≡ None }
    requires inside { All (LieInSheet (steps_of run.now)) ears.items }
    ensures slab { OnOk result (IsSlabOf slab.new) }
    ensures put { OnOk result (IsPut slab.old.registrations.items slab.new.registrations.items
        run.now ears.items) }
{
    let place = find_place(&slab.registrations, &mut slab.free);
    listen(&mut slab.ears, &ears, steps_of(run), place)?;
    slab.homes.add(&Listener {
        area: area_of(run),
        id: place,
    })?;
    let registration = Registration { run: *run, ears };
    put_at(&mut slab.registrations, place, registration)?;
    Ok(())
}

/// Takes the registration at a place out.
pub(crate) fn take(slab: &mut Slab, place: usize) -> Option<Registration>
    requires { IsSlabOf slab.old }
    ensures slab { IsSlabOf slab.new }
    ensures was { result ≡ at slab.old.registrations.items place }
    ensures left { (i : ℕ) → at slab.new.registrations.items i
        ≡ (if i == place then None else at slab.old.registrations.items i) }
{
    let registration = take_at(&mut slab.registrations, place)?;
    let run = &registration.run;
    listen_no_more(&mut slab.ears, &registration.ears, steps_of(run), place);
    slab.homes.remove(&Listener {
        area: area_of(run),
        id: place,
    });
    let _ = slab.free.push(place);
    Some(registration)
}
