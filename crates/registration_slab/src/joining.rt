ghost use Rattle.std.specs.Prelude.{◌≡◌, ◌≤◌, ◌+◌, ℕ, ◌∷◌, true, None, Some, IfOk, IfSome, OnOk, map};
ghost use Rattle.calc_addr.specs.Places.{Place};
ghost use Rattle.ears.specs.RunAreas.{ear_below};
ghost use Rattle.registration_slab.specs.Changes.{IsSlabOf};
ghost use Rattle.registration_slab.specs.Joining.{GoesOn, IsAboveAt, IsBelowAt, IsJoined};
ghost use Rattle.registration_slab.specs.Slab.{LiesInSheet, areas_of, at, has_cell, is_in};

use crate::registration::{Registration, place_of, registration_at};
use crate::slab::{Slab, put, take};
use calc_addr::{Area, Cell, LAST_ROW, NoMemory, Run};
use calc_model::Ear;
use ears::is_below;

/// Whether ears are those of the rows from the one on that lies so many rows below the first one of others.
fn are_below(next: &[Ear], ears: &[Ear], step: u32) -> bool
    requires { step ≤ LAST_ROW }
    ensures { result ≡ true → next.now ≡ map (λ e. ear_below e step) ears.now }
{
    if next.len() != ears.len() {
        return false;
    }
    for at in 0..ears.len() {
        if !is_below(&next[at], &ears[at], step) {
            return false;
        }
    }
    true
}

/// Whether a registration goes on where another one ends.
fn goes_on(upper: &Registration, lower: &Registration) -> bool
    ensures { result ≡ true → GoesOn upper.now lower.now }
{
    let (above, below) = (&upper.run, &lower.run);
    if above.sheet != below.sheet || above.col != below.col || below.first != above.last + 1 {
        return false;
    }
    are_below(&lower.ears, &upper.ears, below.first - above.first)
}

/// A registration with more rows.
fn extended(registration: Registration, last: u32) -> Registration
    requires from { registration.run.last ≤ last }
    requires to { last ≤ LAST_ROW }
    ensures run { result.run ≡ record registration.run { last = last } }
    ensures ears { result.ears.items ≡ registration.ears.items }
{
    let Registration { run, ears } = registration;
    let run = Run {
        sheet: run.sheet,
        col: run.col,
        first: run.first,
        last,
    };
    Registration { run, ears }
}

/// The place of the registration that has a cell, if there is one.
fn place_at(slab: &Slab, cell: &Cell) -> Result<Option<usize>, NoMemory>
    ensures { IfOk result (λ place. IfSome place
        (λ i. has_cell (at slab.now.registrations.items i) cell.now ≡ true)) }
{
    let places = slab.homes.meeting(&Area {
        sheet: cell.sheet,
        first_col: cell.col,
        last_col: cell.col,
        first_row: cell.row,
        last_row: cell.row,
    })?;
    Ok(place_of(&slab.registrations, &places, cell))
}

/// Whether a registration goes on where that at a place ends.
fn is_above(registrations: &[Option<Registration>], place: usize, lower: &Registration) -> bool
    ensures { result ≡ true → IsAboveAt (at registrations.now place) lower.now }
{
    match registration_at(registrations, place) {
        Some(upper) => goes_on(upper, lower),
        None => false,
    }
}

/// Whether the registration at a place goes on where another one ends.
fn is_next(registrations: &[Option<Registration>], place: usize, upper: &Registration) -> bool
    ensures { result ≡ true → IsBelowAt (at registrations.now place) upper.now }
{
    match registration_at(registrations, place) {
        Some(lower) => goes_on(upper, lower),
        None => false,
    }
}

/// Takes the registration at a place out if another one goes on where it ends, and joins the two.
fn join_at_top(slab: &mut Slab, place: usize, lower: Registration) -> Registration
    requires slab { IsSlabOf slab.old }
    requires absent { (q : Place) → is_in lower.run q ≡ true
        → areas_of slab.old.registrations.items q ≡ None }
    requires inside { LiesInSheet (Some lower) }
    ensures slab { IsSlabOf slab.new }
    ensures joined { IsJoined slab.old.registrations.items slab.new.registrations.items lower result }
{
    if !is_above(&slab.registrations, place, &lower) {
        return lower;
    }
    match take(slab, place) {
        Some(upper) => extended(upper, lower.run.last),
        None => lower,
    }
}

/// Takes the registration at a place out if it goes on where another one ends, and joins the two.
fn join_at_end(slab: &mut Slab, place: usize, upper: Registration) -> Registration
    requires slab { IsSlabOf slab.old }
    requires absent { (q : Place) → is_in upper.run q ≡ true
        → areas_of slab.old.registrations.items q ≡ None }
    requires inside { LiesInSheet (Some upper) }
    ensures slab { IsSlabOf slab.new }
    ensures joined { IsJoined slab.old.registrations.items slab.new.registrations.items upper result }
{
    if !is_next(&slab.registrations, place, &upper) {
        return upper;
    }
    match take(slab, place) {
        Some(lower) => extended(upper, lower.run.last),
        None => upper,
    }
}

/// Joins a registration with that in front of it, if it goes on there.
fn join_above(slab: &mut Slab, lower: Registration) -> Result<Registration, NoMemory>
    requires slab { IsSlabOf slab.old }
    requires absent { (q : Place) → is_in lower.run q ≡ true
        → areas_of slab.old.registrations.items q ≡ None }
    requires inside { LiesInSheet (Some lower) }
    ensures slab { OnOk result (IsSlabOf slab.new) }
    ensures joined { IfOk result (λ joined. IsJoined slab.old.registrations.items
        slab.new.registrations.items lower joined) }
{
    let run = &lower.run;
    if run.first == 1 {
        return Ok(lower);
    }
    let cell = Cell {
        sheet: run.sheet,
        col: run.col,
        row: run.first - 1,
    };
    match place_at(slab, &cell)? {
        Some(place) => Ok(join_at_top(slab, place, lower)),
        None => Ok(lower),
    }
}

/// Joins a registration with that behind it, if that goes on there.
fn join_below(slab: &mut Slab, upper: Registration) -> Result<Registration, NoMemory>
    requires slab { IsSlabOf slab.old }
    requires absent { (q : Place) → is_in upper.run q ≡ true
        → areas_of slab.old.registrations.items q ≡ None }
    requires inside { LiesInSheet (Some upper) }
    ensures slab { OnOk result (IsSlabOf slab.new) }
    ensures joined { IfOk result (λ joined. IsJoined slab.old.registrations.items
        slab.new.registrations.items upper joined) }
{
    let run = &upper.run;
    if run.last == LAST_ROW {
        return Ok(upper);
    }
    let cell = Cell {
        sheet: run.sheet,
        col: run.col,
        row: run.last + 1,
    };
    match place_at(slab, &cell)? {
        Some(place) => Ok(join_at_end(slab, place, upper)),
        None => Ok(upper),
    }
}

/// Registers a run of cells that aren't there yet, as one with those in front of it and behind it that have
/// the same relative form. Where memory is refused, nothing holds of the slab any more.
pub fn put_joined(slab: &mut Slab, registration: Registration) -> Result<(), NoMemory>
    requires slab { IsSlabOf slab.old }
    requires absent { (q : Place) → is_in registration.run q ≡ true
        → areas_of slab.old.registrations.items q ≡ None }
    requires inside { LiesInSheet (Some registration) }
    ensures slab { OnOk result (IsSlabOf slab.new) }
    ensures areas { OnOk result ((q : Place) → areas_of slab.new.registrations.items q
        ≡ areas_of (Some registration ∷ slab.old.registrations.items) q) }
{
    let joined = join_above(slab, registration)?;
    let joined = join_below(slab, joined)?;
    let Registration { run, ears } = joined;
    put(slab, &run, ears)?;
    Ok(())
}
