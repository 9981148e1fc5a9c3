ghost use Rattle.std.specs.Prelude.{◌≡◌, ◌≤◌, ◌<◌, ◌+◌, ◌-◌, ◌++◌, true, ℕ, None, Some, take, IfOk, OnOk, if◌then◌else◌, option_to_list};
ghost use Rattle.std.specs.List.{All, filter_map};
ghost use Rattle.calc_addr.specs.Places.{IsRows, Place};
ghost use Rattle.calc_model.specs.Listeners.{ReadAreas};
ghost use Rattle.ears.specs.RowEdits.{GoTogether, IsRowEdit, RowsGoTogether, ear_after, place_after};
ghost use Rattle.ears.specs.RunAreas.{LieInSheet};
ghost use Rattle.registration_slab.specs.Changes.{IsSlabOf};
ghost use Rattle.registration_slab.specs.Cuts.{areas_in, is_part};
ghost use Rattle.listener_hub.specs.Moves.{IsMoved, IsPartMoved, IsPieceMoved, KeepsAll, StaysAt, StaysInSheet};
ghost use Rattle.registration_slab.specs.Slab.{AreApart, LiesInSheet, areas_of, at, is_in, steps_of};

use calc_addr::{LAST_ROW, NoMemory, Run};
use calc_model::Ear;
use ears::{RowEdit, ear_after, run_after, whole_rows, whole_steps};
use registration_slab::{
    Registration, Slab, ears_below, empty, put_joined, registration_at, registration_of,
    steps_before, steps_of,
};
use std::alloc::Global;

/// How far down the rows of a run, and the areas that they read, go as those of the first one do.
fn whole_of(edit: &RowEdit, run: &Run, ears: &[Ear]) -> u32
    requires edit { IsRowEdit edit.now }
    requires inside { All (LieInSheet (steps_of run.now)) ears.now }
    ensures within { result ≤ steps_of run.now }
    ensures rows { RowsGoTogether edit.now run.now result }
    ensures ears { All (λ e. GoTogether edit.now e result) ears.now }
{
    let steps = steps_of(run);
    let mut whole = whole_rows(edit, run);
    for ear in ears {
        whole = whole.min(whole_steps(edit, ear, steps));
    }
    whole
}

/// Appends what becomes of an ear, if it isn't deleted.
fn push_after(edit: &RowEdit, ear: &Ear, moved: &mut Vec<Ear>) -> Result<(), NoMemory>
    requires { IsRowEdit edit.now }
    ensures { OnOk result (moved.new.items
        ≡ moved.old.items ++ option_to_list (ear_after edit.now ear.now)) }
{
    if let Some(ear) = ear_after(edit, ear) {
        moved.push(ear)?;
    }
    Ok(())
}

/// What becomes of the ears of rows that go together, but for those that are deleted.
fn ears_after(alloc: Global, edit: &RowEdit, ears: &[Ear]) -> Result<Vec<Ear>, NoMemory>
    requires { IsRowEdit edit.now }
    ensures { IfOk result (λ v. v.items ≡ filter_map (ear_after edit.now) ears.now) }
{
    let mut moved = Vec::with_capacity(alloc, ears.len())?;
    for ear in ears {
        push_after(edit, ear, &mut moved)?;
    }
    Ok(moved)
}

/// Registers where they go the rows of a piece that go together, if they aren't deleted.
fn put_whole(fresh: &mut Slab, edit: &RowEdit, piece: &Run, ears: &[Ear]) -> Result<(), NoMemory>
    requires slab { IsSlabOf fresh.old }
    requires edit { IsRowEdit edit.now }
    requires order { piece.now.first ≤ piece.now.last }
    requires stays { StaysInSheet edit.now piece.now }
    requires inside { All (LieInSheet (steps_of piece.now)) ears.now }
    requires rows { RowsGoTogether edit.now piece.now (steps_of piece.now) }
    requires ears { All (λ e. GoTogether edit.now e (steps_of piece.now)) ears.now }
    requires absent { (q d : Place) → is_in piece.now q ≡ true → place_after edit.now q ≡ Some d
        → areas_of fresh.old.registrations.items d ≡ None }
    ensures slab { OnOk result (IsSlabOf fresh.new) }
    ensures areas { OnOk result (IsPieceMoved edit.now piece.now ears.now
        (areas_of fresh.old.registrations.items) (areas_of fresh.new.registrations.items)) }
{
    if let Some(to) = run_after(edit, piece) {
        let moved = ears_after(fresh.alloc, edit, ears)?;
        put_joined(fresh, registration_of(&to, moved))?;
    }
    Ok(())
}

/// The rows of a run from one of them on.
fn rows_from(run: &Run, first: u32) -> Run
    requires from { run.now.first ≤ first }
    requires to { first ≤ run.now.last }
    ensures { result ≡ record run.now { first = first } }
{
    Run {
        sheet: run.sheet,
        col: run.col,
        first,
        last: run.last,
    }
}

/// The rows of a run up to the one that lies so many below its first one.
fn rows_to(run: &Run, steps: u32) -> Run
    requires { steps ≤ steps_of run.now }
    ensures rows { result ≡ record run.now { last = run.now.first + steps } }
    ensures order { run.now.first ≤ run.now.last }
{
    Run {
        sheet: run.sheet,
        col: run.col,
        first: run.first,
        last: run.first + steps,
    }
}

/// Registers where they go the first rows of a run that go together, and gives the last of them.
fn put_first(fresh: &mut Slab, edit: &RowEdit, rest: &Run, ears: &[Ear]) -> Result<u32, NoMemory>
    requires slab { IsSlabOf fresh.old }
    requires edit { IsRowEdit edit.now }
    requires stays { StaysInSheet edit.now rest.now }
    requires inside { All (LieInSheet (steps_of rest.now)) ears.now }
    requires absent { (q d : Place) → is_in rest.now q ≡ true → place_after edit.now q ≡ Some d
        → areas_of fresh.old.registrations.items d ≡ None }
    ensures slab { OnOk result (IsSlabOf fresh.new) }
    ensures from { IfOk result (λ last. rest.now.first ≤ last) }
    ensures to { IfOk result (λ last. last ≤ rest.now.last) }
    ensures areas { IfOk result (λ last.
        IsPieceMoved edit.now (record rest.now { last = last }) ears.now
        (areas_of fresh.old.registrations.items) (areas_of fresh.new.registrations.items)) }
{
    let whole = whole_of(edit, rest, ears);
    let piece = rows_to(rest, whole);
    put_whole(fresh, edit, &piece, ears)?;
    Ok(piece.last)
}

/// Registers where they go the first rows of a registration, from a row on, that go together, and gives the
/// last of them.
fn put_first_of(
    fresh: &mut Slab,
    edit: &RowEdit,
    registration: &Registration,
    first: u32,
) -> Result<u32, NoMemory>
    requires slab { IsSlabOf fresh.old }
    requires edit { IsRowEdit edit.now }
    requires registration { LiesInSheet (Some registration.now) }
    requires stays { StaysInSheet edit.now registration.now.run }
    requires low { registration.now.run.first ≤ first }
    requires high { first ≤ registration.now.run.last }
    requires absent { (q d : Place) → is_in registration.now.run q ≡ true → first ≤ q.row
        → place_after edit.now q ≡ Some d → areas_of fresh.old.registrations.items d ≡ None }
    ensures slab { OnOk result (IsSlabOf fresh.new) }
    ensures from { IfOk result (λ last. first ≤ last) }
    ensures to { IfOk result (λ last. last ≤ registration.now.run.last) }
    ensures areas { IfOk result (λ last. IsPartMoved edit.now registration.now first (last + 1)
        (areas_of fresh.old.registrations.items) (areas_of fresh.new.registrations.items)) }
{
    let run = &registration.run;
    let rest = rows_from(run, first);
    let before = steps_before(run, first);
    let ears = ears_below(fresh.alloc, &registration.ears, before, steps_of(run))?;
    let last = put_first(fresh, edit, &rest, &ears)?;
    Ok(last)
}

/// Registers the rows of a registration where they go.
fn put_moved(fresh: &mut Slab, edit: &RowEdit, registration: &Registration) -> Result<(), NoMemory>
    requires slab { IsSlabOf fresh.old }
    requires edit { IsRowEdit edit.now }
    requires registration { LiesInSheet (Some registration.now) }
    requires stays { StaysInSheet edit.now registration.now.run }
    requires absent { (q d : Place) → is_in registration.now.run q ≡ true
        → place_after edit.now q ≡ Some d → areas_of fresh.old.registrations.items d ≡ None }
    ensures slab { OnOk result (IsSlabOf fresh.new) }
    ensures areas { OnOk result (IsPartMoved edit.now registration.now
        registration.now.run.first (registration.now.run.last + 1)
        (areas_of fresh.old.registrations.items) (areas_of fresh.new.registrations.items)) }
{
    let (mut first, last) = ends_of(&registration.run);
    while first <= last {
        first = put_first_of(fresh, edit, registration, first)? + 1;
    }
    Ok(())
}

/// The first and the last row of a run.
fn ends_of(run: &Run) -> (u32, u32)
    ensures first { result.0 ≡ run.now.first }
    ensures last { result.1 ≡ run.now.last }
    ensures order { result.0 ≤ result.1 }
    ensures to { result.1 ≤ LAST_ROW }
{
    (run.first, run.last)
}

/// Registers the rows of the registration at a place, if there is one, where they go.
fn put_moved_at(
    fresh: &mut Slab,
    edit: &RowEdit,
    registrations: &[Option<Registration>],
    place: usize,
) -> Result<(), NoMemory>
    requires slab { IsSlabOf fresh.old }
    requires edit { IsRowEdit edit.now }
    requires inside { (i : ℕ) → LiesInSheet (at registrations.now i) }
    requires apart { AreApart registrations.now }
    requires stays { (i : ℕ) → StaysAt edit.now (at registrations.now i) }
    requires moved { IsMoved edit.now (areas_of (take place registrations.now))
        (areas_of fresh.old.registrations.items) }
    ensures slab { OnOk result (IsSlabOf fresh.new) }
    ensures moved { OnOk result (IsMoved edit.now (areas_of (take (place + 1) registrations.now))
        (areas_of fresh.new.registrations.items)) }
{
    match registration_at(registrations, place) {
        Some(registration) => put_moved(fresh, edit, registration)?,
        None => {}
    }
    Ok(())
}

/// All registrations where they go.
fn moved_registrations(
    alloc: Global,
    edit: &RowEdit,
    registrations: &[Option<Registration>],
) -> Result<Slab, NoMemory>
    requires edit { IsRowEdit edit.now }
    requires inside { (i : ℕ) → LiesInSheet (at registrations.now i) }
    requires apart { AreApart registrations.now }
    requires stays { (i : ℕ) → StaysAt edit.now (at registrations.now i) }
    ensures slab { IfOk result IsSlabOf }
    ensures moved { IfOk result (λ slab. IsMoved edit.now (areas_of registrations.now)
        (areas_of slab.registrations.items)) }
{
    let mut fresh = empty(alloc);
    for place in 0..registrations.len() {
        put_moved_at(&mut fresh, edit, registrations, place)?;
    }
    Ok(fresh)
}

/// Moves all registrations in a row edit, and what they read.
pub(crate) fn move_rows(slab: &mut Slab, edit: &RowEdit) -> Result<(), NoMemory>
    requires slab { IsSlabOf slab.old }
    requires edit { IsRowEdit edit.now }
    requires stays { KeepsAll edit.now (areas_of slab.old.registrations.items) }
    ensures slab { OnOk result (IsSlabOf slab.new) }
    ensures moved { OnOk result (IsMoved edit.now (areas_of slab.old.registrations.items)
        (areas_of slab.new.registrations.items)) }
{
    *slab = moved_registrations(slab.alloc, edit, &slab.registrations)?;
    Ok(())
}
