ghost use Rattle.std.specs.Prelude.{◌≡◌, ◌≤◌, ◌++◌, ◌||◌, ℕ, false, map, true, Some, IfNone, IfOk, IfSome, OnErr, OnOk};
ghost use Rattle.std.specs.List.{All, list_any};
ghost use Rattle.calc_addr.specs.Places.{Place};
ghost use Rattle.calc_model.specs.Ears.{area_at};
ghost use Rattle.calc_model.specs.Listeners.{AreReaders, Gets, listed, reads_one_of};
ghost use Rattle.ears.specs.RunAreas.{LieInSheet};
ghost use Rattle.run_unions.specs.Unions.{is_in};
ghost use Rattle.registration_slab.specs.Changes.{IsSlabOf};
ghost use Rattle.listener_hub.specs.Hits.{any_hit, hits_at, is_hit, registered_areas};
ghost use Rattle.registration_slab.specs.Slab.{LiesInSheet, areas_of, at, has_cell, steps_of};

use calc_addr::{Area, Cell, NoMemory, Run};
use calc_model::Ear;
use ears::{area_at, steps_meeting};
use registration_slab::{Registration, Slab, area_of, place_of, steps_of};
use run_unions::{Entry, Runs, push_union};
use smallvec::SmallVec;

/// Appends the rows of a run that read a cell of the area by one of its references.
fn push_hit(run: &Run, ear: &Ear, area: &Area, hits: &mut Runs) -> Result<(), NoMemory>
    requires { LieInSheet (steps_of run.now) ear.now }
    ensures { OnOk result ((q : Place) → list_any (is_in q) hits.new.items
        ≡ (list_any (is_in q) hits.old.items || is_hit run.now area.now q ear.now)) }
{
    let below = steps_of(run);
    if let Some(steps) = steps_meeting(ear, below, area) {
        let last = steps.last.min(below);
        if steps.first <= last {
            hits.push(Entry::of(Run {
                sheet: run.sheet,
                col: run.col,
                first: run.first + steps.first,
                last: run.first + last,
            }))?;
        }
    }
    Ok(())
}

/// Appends the rows of a run that read a cell of the area.
fn push_hits(run: &Run, ears: &[Ear], area: &Area, hits: &mut Runs) -> Result<(), NoMemory>
    requires { All (LieInSheet (steps_of run.now)) ears.now }
    ensures { OnOk result ((q : Place) → list_any (is_in q) hits.new.items
        ≡ (list_any (is_in q) hits.old.items || list_any (is_hit run.now area.now q) ears.now)) }
{
    for ear in ears {
        push_hit(run, ear, area, hits)?;
    }
    Ok(())
}

/// Appends the rows of the registration at a place that read a cell of the area.
fn push_hits_at(
    registrations: &[Option<Registration>],
    place: usize,
    area: &Area,
    hits: &mut Runs,
) -> Result<(), NoMemory>
    requires { (i : ℕ) → LiesInSheet (at registrations.now i) }
    ensures { OnOk result ((q : Place) → list_any (is_in q) hits.new.items
        ≡ (list_any (is_in q) hits.old.items || hits_at (at registrations.now place) area.now q)) }
{
    if let Some(Some(registration)) = registrations.get(place) {
        push_hits(&registration.run, &registration.ears, area, hits)?;
    }
    Ok(())
}

/// Appends the rows of the registrations at places that read a cell of the area.
fn push_all_hits(
    registrations: &[Option<Registration>],
    places: &[usize],
    area: &Area,
    hits: &mut Runs,
) -> Result<(), NoMemory>
    requires { (i : ℕ) → LiesInSheet (at registrations.now i) }
    ensures { OnOk result ((q : Place) → list_any (is_in q) hits.new.items
        ≡ (list_any (is_in q) hits.old.items || any_hit registrations.now area.now q places.now)) }
{
    for place in places {
        push_hits_at(registrations, *place, area, hits)?;
    }
    Ok(())
}

/// The rows that read a cell of the area, each maybe more than once.
pub(crate) fn hits(slab: &Slab, area: &Area) -> Result<Runs, NoMemory>
    requires { IsSlabOf slab.now }
    ensures { IfOk result (λ v. (q : Place) → list_any (is_in q) v.items
        ≡ reads_one_of (areas_of slab.now.registrations.items) area.now q) }
{
    let _ = &area.sheet;
    let places = slab.ears.meeting(area)?;
    let mut hits = SmallVec::new(slab.alloc);
    push_all_hits(&slab.registrations, &places, area, &mut hits)?;
    Ok(hits)
}

/// Appends each cell that reads a cell of the area, once, in the order of cells.
pub(crate) fn push_readers(slab: &Slab, area: &Area, out: &mut Vec<Cell>) -> Result<(), NoMemory>
    requires { IsSlabOf slab.now }
    ensures ok { OnOk result (Gets out.old.items out.new.items
        (AreReaders (areas_of slab.now.registrations.items) area.now)) }
    ensures err { OnErr result (out.new.items ≡ out.old.items) }
{
    let runs = hits(slab, area)?;
    push_union(runs, out)
}

/// Appends the area that the row reads which lies so many rows below a run's first one, for each ear.
fn push_areas(ears: &[Ear], step: u32, steps: u32, out: &mut Vec<Area>) -> Result<(), NoMemory>
    requires inside { All (LieInSheet steps) ears.now }
    requires step { step ≤ steps }
    ensures ok { OnOk result (out.new.items ≡ out.old.items ++ map (λ e. area_at e step) ears.now) }
    ensures err { OnErr result (out.new.items ≡ out.old.items) }
{
    out.reserve(ears.len())?;
    for ear in ears {
        out.push_reserved(area_at(ear, step));
    }
    Ok(())
}

/// Appends what the cell reads by the registration at a place that has it.
fn push_areas_at(
    registrations: &[Option<Registration>],
    place: usize,
    cell: &Cell,
    out: &mut Vec<Area>,
) -> Result<(), NoMemory>
    requires inside { (i : ℕ) → LiesInSheet (at registrations.now i) }
    requires has { has_cell (at registrations.now place) cell.now ≡ true }
    ensures ok { OnOk result (out.new.items
        ≡ out.old.items ++ registered_areas (at registrations.now place) cell.now) }
    ensures err { OnErr result (out.new.items ≡ out.old.items) }
{
    if let Some(Some(registration)) = registrations.get(place) {
        let run = &registration.run;
        if run.first <= cell.row && cell.row <= run.last {
            return push_areas(&registration.ears, cell.row - run.first, steps_of(run), out);
        }
    }
    Ok(())
}

/// Appends the areas that a cell reads.
pub(crate) fn push_reads(slab: &Slab, cell: &Cell, out: &mut Vec<Area>) -> Result<(), NoMemory>
    requires { IsSlabOf slab.now }
    ensures ok { OnOk result (out.new.items
        ≡ out.old.items ++ listed (areas_of slab.now.registrations.items cell.now)) }
    ensures err { OnErr result (out.new.items ≡ out.old.items) }
{
    let run = Run {
        sheet: cell.sheet,
        col: cell.col,
        first: cell.row,
        last: cell.row,
    };
    let places = slab.homes.meeting(&area_of(&run))?;
    match place_of(&slab.registrations, &places, cell) {
        Some(place) => push_areas_at(&slab.registrations, place, cell, out),
        None => Ok(()),
    }
}
