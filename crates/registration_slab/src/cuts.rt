ghost use Rattle.std.specs.Prelude.{◌≡◌, ◌≤◌, ◌<◌, ◌+◌, ◌-◌, ◌&&◌, false, not, true, ℕ, None, Some, length, map, IfOk, OnOk, if◌then◌else◌};
ghost use Rattle.std.specs.List.{All};
ghost use Rattle.calc_addr.specs.Places.{IsRows, Place};
ghost use Rattle.ears.specs.RunAreas.{LieInSheet, ear_below};
ghost use Rattle.registration_slab.specs.Changes.{IsSlabOf};
ghost use Rattle.registration_slab.specs.Cuts.{AreCandidates, IsTrimmed, areas_in, cut_of, is_cut, is_part, is_touched, is_touched_at};
ghost use Rattle.registration_slab.specs.Slab.{LiesInSheet, areas_of, at, has_cell, is_in, steps_of};

use crate::listening::{area_of, steps_of};
use crate::registration::Registration;
use crate::slab::{Slab, put, take};
use calc_addr::{Area, Cell, NoMemory, Run};
use calc_model::Ear;
use ears::ear_below;
use std::alloc::Global;

/// The rows from `first` to before `end` of a column, which may be none.
#[derive(Clone, Copy, Debug)]
pub(crate) struct Cut {
    pub sheet: u8,
    pub col: u16,
    pub first: u32,
    pub end: u32,
}

/// The ears of the rows from the one on that lies so many rows below a run's first one.
pub fn ears_below(alloc: Global, ears: &[Ear], step: u32, steps: u32) -> Result<Vec<Ear>, NoMemory>
    requires inside { All (LieInSheet steps) ears.now }
    requires step { step ≤ steps }
    ensures { IfOk result (λ v. v.items ≡ map (λ e. ear_below e step) ears.now) }
{
    let mut below = Vec::with_capacity(alloc, ears.len())?;
    for ear in ears {
        below.push(ear_below(ear, step))?;
    }
    Ok(below)
}

/// Registers the rows from `first` to before `end` of a registration that was taken out, if there are any.
fn put_part(
    slab: &mut Slab,
    registration: &Registration,
    first: u32,
    end: u32,
) -> Result<(), NoMemory>
    requires slab { IsSlabOf slab.old }
    requires registration { LiesInSheet (Some registration.now) }
    requires from { first < end → registration.now.run.first ≤ first }
    requires to { first < end → end ≤ registration.now.run.last + 1 }
    requires absent { (q : Place) → is_part registration.now.run first end q ≡ true
        → areas_of slab.old.registrations.items q ≡ None }
    ensures slab { OnOk result (IsSlabOf slab.new) }
    ensures areas { OnOk result ((q : Place) → areas_of slab.new.registrations.items q
        ≡ (if is_part registration.now.run first end q then Some (areas_in registration.now q)
        else areas_of slab.old.registrations.items q)) }
    ensures others { OnOk result ((j : ℕ) (q : Place)
        → is_part registration.now.run first end q ≡ false
        → has_cell (at slab.new.registrations.items j) q ≡ true
        → has_cell (at slab.old.registrations.items j) q ≡ true) }
{
    if first >= end {
        return Ok(());
    }
    put_rows(slab, registration, first, end - 1)
}

/// Registers the rows from `first` to `last` of a registration that was taken out.
fn put_rows(
    slab: &mut Slab,
    registration: &Registration,
    first: u32,
    last: u32,
) -> Result<(), NoMemory>
    requires slab { IsSlabOf slab.old }
    requires registration { LiesInSheet (Some registration.now) }
    requires from { registration.now.run.first ≤ first }
    requires order { first ≤ last }
    requires to { last ≤ registration.now.run.last }
    requires absent { (q : Place) → is_part registration.now.run first (last + 1) q ≡ true
        → areas_of slab.old.registrations.items q ≡ None }
    ensures slab { OnOk result (IsSlabOf slab.new) }
    ensures areas { OnOk result ((q : Place) → areas_of slab.new.registrations.items q
        ≡ (if is_part registration.now.run first (last + 1) q
        then Some (areas_in registration.now q)
        else areas_of slab.old.registrations.items q)) }
    ensures others { OnOk result ((j : ℕ) (q : Place)
        → is_part registration.now.run first (last + 1) q ≡ false
        → has_cell (at slab.new.registrations.items j) q ≡ true
        → has_cell (at slab.old.registrations.items j) q ≡ true) }
{
    let run = &registration.run;
    let ears = ears_below(
        slab.alloc,
        &registration.ears,
        first - run.first,
        steps_of(run),
    )?;
    let part = Run {
        sheet: run.sheet,
        col: run.col,
        first,
        last,
    };
    put(slab, &part, ears)?;
    Ok(())
}

/// Registers what a cut leaves of a registration that was taken out.
fn put_parts(slab: &mut Slab, registration: &Registration, cut: &Cut) -> Result<(), NoMemory>
    requires slab { IsSlabOf slab.old }
    requires registration { LiesInSheet (Some registration.now) }
    requires order { cut.now.first ≤ cut.now.end }
    requires touched { is_touched registration.now.run cut.now ≡ true }
    requires absent { (q : Place) → is_in registration.now.run q ≡ true
        → areas_of slab.old.registrations.items q ≡ None }
    ensures slab { OnOk result (IsSlabOf slab.new) }
    ensures areas { OnOk result ((q : Place) → areas_of slab.new.registrations.items q
        ≡ (if is_in registration.now.run q && not (is_cut cut.now q)
        then Some (areas_in registration.now q)
        else areas_of slab.old.registrations.items q)) }
    ensures others { OnOk result ((j : ℕ) (q : Place) → is_cut cut.now q ≡ true
        → has_cell (at slab.new.registrations.items j) q ≡ true
        → has_cell (at slab.old.registrations.items j) q ≡ true) }
{
    let run = &registration.run;
    put_part(slab, registration, run.first, cut.first)?;
    put_part(slab, registration, cut.end, run.last + 1)?;
    Ok(())
}

/// Whether the registration at a place is one that a cut has rows of or goes through.
fn is_touched(registrations: &[Option<Registration>], place: usize, cut: &Cut) -> bool
    ensures { result ≡ is_touched_at (at registrations.now place) cut.now }
{
    match registrations.get(place) {
        Some(Some(registration)) => {
            let run = &registration.run;
            (run.sheet == cut.sheet && run.col == cut.col)
                && (run.first < cut.end && cut.first <= run.last)
        }
        _ => false,
    }
}

/// Cuts rows out of the registration at a place, which leaves up to two others.
fn trim(slab: &mut Slab, place: usize, cut: &Cut) -> Result<(), NoMemory>
    requires slab { IsSlabOf slab.old }
    requires order { cut.now.first ≤ cut.now.end }
    ensures slab { OnOk result (IsSlabOf slab.new) }
    ensures trimmed { OnOk result (IsTrimmed slab.old.registrations.items
        slab.new.registrations.items place cut.now) }
{
    if !is_touched(&slab.registrations, place, cut) {
        return Ok(());
    }
    let Some(registration) = take(slab, place) else {
        return Ok(());
    };
    put_parts(slab, &registration, cut)?;
    Ok(())
}

/// Cuts rows out of the registrations at places.
pub(crate) fn trim_all(slab: &mut Slab, places: &[usize], cut: &Cut) -> Result<(), NoMemory>
    requires slab { IsSlabOf slab.old }
    requires order { cut.now.first ≤ cut.now.end }
    ensures slab { OnOk result (IsSlabOf slab.new) }
    ensures outside { OnOk result ((q : Place) → is_cut cut.now q ≡ false
        → areas_of slab.new.registrations.items q ≡ areas_of slab.old.registrations.items q) }
    ensures inside { AreCandidates slab.old.registrations.items cut.now places.now
        → OnOk result ((q : Place) → is_cut cut.now q ≡ true
        → areas_of slab.new.registrations.items q ≡ None) }
{
    for place in places {
        trim(slab, *place, cut)?;
    }
    Ok(())
}

/// Takes the cells of a run that are there out.
pub fn remove_run(slab: &mut Slab, run: &Run) -> Result<(), NoMemory>
    requires { IsSlabOf slab.old }
    ensures slab { OnOk result (IsSlabOf slab.new) }
    ensures areas { OnOk result ((q : Place) → areas_of slab.new.registrations.items q
        ≡ (if is_in run.now q then None else areas_of slab.old.registrations.items q)) }
{
    let places = slab.homes.meeting(&area_of(run))?;
    let cut = cut_of(run);
    trim_all(slab, &places, &cut)?;
    Ok(())
}

fn cut_of(run: &Run) -> Cut
    ensures cut { result ≡ cut_of run.now }
    ensures order { result.first ≤ result.end }
    ensures rows { IsRows run.now }
{
    Cut {
        sheet: run.sheet,
        col: run.col,
        first: run.first,
        end: run.last + 1,
    }
}

/// Cuts registrations in two in front of a cell, which changes nothing of what cells read.
pub fn split_at(slab: &mut Slab, cell: &Cell) -> Result<(), NoMemory>
    requires { IsSlabOf slab.old }
    ensures slab { OnOk result (IsSlabOf slab.new) }
    ensures areas { OnOk result ((q : Place) → areas_of slab.new.registrations.items q
        ≡ areas_of slab.old.registrations.items q) }
{
    let places = slab.homes.meeting(&Area {
        sheet: cell.sheet,
        first_col: cell.col,
        last_col: cell.col,
        first_row: cell.row,
        last_row: cell.row,
    })?;
    let cut = Cut {
        sheet: cell.sheet,
        col: cell.col,
        first: cell.row,
        end: cell.row,
    };
    trim_all(slab, &places, &cut)?;
    Ok(())
}
