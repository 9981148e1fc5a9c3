ghost use Rattle.std.specs.Prelude.{◌≡◌, ◌≤◌, ◌++◌, ℕ, Some, OnErr, OnOk, IfOk, length, map, take};
ghost use Rattle.std.specs.List.{All};
ghost use Rattle.std.specs.List.Sorted.{IsNonDecreasingBy};
ghost use Rattle.ears.specs.RunAreas.{LieInSheet, ear_below};
ghost use Rattle.calc_model.specs.Listeners.{ArePartsOf, Gets};
ghost use Rattle.registration_slab.specs.Changes.{IsSlabOf};
ghost use Rattle.listener_hub.specs.Parting.{IsParted, IsStep, first_row, part_run};
ghost use Rattle.registration_slab.specs.Slab.{AreApart, LiesInSheet, areas_of, at, steps_of};

use calc_addr::{NoMemory, Run};
use calc_model::{Ear, Part};
use ears::ear_below;
use registration_slab::{Registration, Slab, area_of, registration_at, steps_before, steps_of};

/// Appends the ears of the rows from the one on that lies so many rows below a run's first one.
fn push_ears_below(ears: &[Ear], step: u32, steps: u32, out: &mut Vec<Ear>) -> Result<(), NoMemory>
    requires inside { All (LieInSheet steps) ears.now }
    requires step { step ≤ steps }
    ensures ok { OnOk result (out.new.items
        ≡ out.old.items ++ map (λ e. ear_below e step) ears.now) }
    ensures err { OnErr result (out.new.items ≡ out.old.items) }
{
    out.reserve(ears.len())?;
    for ear in ears {
        out.push_reserved(ear_below(ear, step));
    }
    Ok(())
}

/// The rows of a registered run in another one, from a row on, if there are any.
fn part_run(registered: &Run, run: &Run, next: u32) -> Option<Run>
    ensures { result ≡ part_run registered.now run.now next }
{
    let first = registered.first.max(next);
    let last = registered.last.min(run.last);
    if (registered.sheet == run.sheet && registered.col == run.col) && first <= last {
        Some(Run {
            sheet: run.sheet,
            col: run.col,
            first,
            last,
        })
    } else {
        None
    }
}

/// Appends the rows of a registration in a run, from a row on, as a part, if there are any, and gives the
/// row from which on the next part is to begin.
fn push_part(
    registration: &Registration,
    run: &Run,
    next: u32,
    parts: &mut Vec<Part>,
    ears: &mut Vec<Ear>,
) -> Result<u32, NoMemory>
    requires { LiesInSheet (Some registration.now) }
    ensures step { IfOk result (λ after. IsStep (Some registration.now) run.now next
        parts.old.items parts.new.items ears.old.items ears.new.items after) }
    ensures parts { OnErr result (take (length parts.old.items) parts.new.items ≡ parts.old.items) }
    ensures ears { OnErr result (take (length ears.old.items) ears.new.items ≡ ears.old.items) }
{
    let registered = &registration.run;
    match part_run(registered, run, next) {
        None => Ok(next),
        Some(rows) => {
            let from = ears.len();
            let below = steps_before(registered, rows.first);
            push_ears_below(&registration.ears, below, steps_of(registered), ears)?;
            let to = ears.len();
            parts.push(Part {
                run: rows,
                from,
                to,
            })?;
            Ok(rows.last + 1)
        }
    }
}

/// The same of the registration at a place, if there is one.
fn push_part_at(
    registrations: &[Option<Registration>],
    place: usize,
    run: &Run,
    next: u32,
    parts: &mut Vec<Part>,
    ears: &mut Vec<Ear>,
) -> Result<u32, NoMemory>
    requires { (i : ℕ) → LiesInSheet (at registrations.now i) }
    ensures step { IfOk result (λ after. IsStep (at registrations.now place) run.now next
        parts.old.items parts.new.items ears.old.items ears.new.items after) }
    ensures parts { OnErr result (take (length parts.old.items) parts.new.items ≡ parts.old.items) }
    ensures ears { OnErr result (take (length ears.old.items) ears.new.items ≡ ears.old.items) }
{
    match registration_at(registrations, place) {
        Some(registration) => push_part(registration, run, next, parts, ears),
        None => Ok(next),
    }
}

/// Appends the parts of a run by the registrations at places that are sorted by their first rows.
fn push_parts_at(
    registrations: &[Option<Registration>],
    places: &[usize],
    run: &Run,
    parts: &mut Vec<Part>,
    ears: &mut Vec<Ear>,
) -> Result<(), NoMemory>
    requires inside { (i : ℕ) → LiesInSheet (at registrations.now i) }
    requires apart { AreApart registrations.now }
    requires sorted { IsNonDecreasingBy (λ i. first_row (at registrations.now i)) places.now }
    ensures ok { OnOk result (IsParted registrations.now run.now places.now
        parts.old.items parts.new.items ears.old.items ears.new.items) }
    ensures parts { OnErr result (take (length parts.old.items) parts.new.items ≡ parts.old.items) }
    ensures ears { OnErr result (take (length ears.old.items) ears.new.items ≡ ears.old.items) }
{
    let mut next = first_of(run);
    for place in places {
        next = push_part_at(registrations, *place, run, next, parts, ears)?;
    }
    Ok(())
}

fn first_of(run: &Run) -> u32
    ensures { result ≡ run.now.first }
{
    run.first
}

/// The first row of the registration at a place.
fn first_row(registrations: &[Option<Registration>], place: usize) -> u32
    ensures { result ≡ first_row (at registrations.now place) }
{
    match registration_at(registrations, place) {
        Some(registration) => first_of(&registration.run),
        None => 0,
    }
}

/// Appends the parts of a run, with what the rows of each of them read.
pub(crate) fn push_parts(
    slab: &Slab,
    run: &Run,
    parts: &mut Vec<Part>,
    ears: &mut Vec<Ear>,
) -> Result<(), NoMemory>
    requires { IsSlabOf slab.now }
    ensures ok { OnOk result (Gets parts.old.items parts.new.items
        (ArePartsOf (areas_of slab.now.registrations.items) run.now ears.new.items)) }
    ensures ears { OnOk result (Gets ears.old.items ears.new.items (λ _. Unit {0})) }
    ensures err_parts { OnErr result (parts.new.items ≡ parts.old.items) }
    ensures err_ears { OnErr result (ears.new.items ≡ ears.old.items) }
{
    let registrations = slab.registrations.as_slice();
    let mut places = slab.homes.meeting(&area_of(run))?;
    places.sort_unstable_by_key(|place| first_row(registrations, *place));
    let (part_count, ear_count) = (parts.len(), ears.len());
    match push_parts_at(registrations, &places, run, parts, ears) {
        Ok(()) => Ok(()),
        Err(fault) => {
            parts.truncate(part_count);
            ears.truncate(ear_count);
            Err(fault)
        }
    }
}
