ghost use Rattle.std.specs.Prelude.{◌≡◌, ◌≤◌, ◌<◌, ℕ, length, slice_index_or, IfOk, OnErr, OnOk};
ghost use Rattle.std.specs.List.{All, list_any};
ghost use Rattle.calc_addr.specs.Places.{IsRectangle};
ghost use Rattle.calc_model.specs.Ears.{ReadArea};
ghost use Rattle.calc_model.specs.Listeners.{AreReached, Gets};
ghost use Rattle.ears.specs.Chains.{reads_above, reads_below};
ghost use Rattle.ears.specs.RunAreas.{LieInSheet};
ghost use Rattle.registration_slab.specs.Changes.{IsSlabOf};
ghost use Rattle.listener_hub.specs.Hits.{any_hit, hits_at, is_hit};
ghost use Rattle.listener_hub.specs.Reaching.{GetReached, GetStretch, stretch};
ghost use Rattle.registration_slab.specs.Slab.{AreApart, LiesInSheet, areas_of, at, steps_of};

use calc_addr::{Area, NoMemory, Run};
use calc_model::Ear;
use ears::{Steps, reads_above, reads_below, steps_meeting};
use registration_slab::{Registration, Slab, registration_at, steps_of};

/// Whether each row of a run but the first one reads the cell above it.
fn goes_down(run: &Run, ears: &[Ear]) -> bool
    ensures { result ≡ list_any (reads_above run.now) ears.now }
{
    for ear in ears {
        if reads_above(run, ear) {
            return true;
        }
    }
    false
}

/// Whether each row of a run but the last one reads the cell below it.
fn goes_up(run: &Run, ears: &[Ear]) -> bool
    ensures { result ≡ list_any (reads_below run.now) ears.now }
{
    for ear in ears {
        if reads_below(run, ear) {
            return true;
        }
    }
    false
}

/// Whether what rows of a run read reaches all rows below them, or all above them.
#[derive(Clone, Copy, Debug)]
struct Ways {
    down: bool,
    up: bool,
}

/// Rows of a run, with those below them or above them that they reach.
fn stretch(run: &Run, ways: &Ways, first: u32, last: u32) -> Run
    requires order { first ≤ last }
    requires within { last ≤ steps_of run.now }
    ensures { result ≡ stretch run.now ways.now.down ways.now.up first last }
{
    Run {
        sheet: run.sheet,
        col: run.col,
        first: if ways.up {
            run.first
        } else {
            run.first + first
        },
        last: if ways.down {
            run.last
        } else {
            run.first + last
        },
    }
}

/// Appends the rows of a run that read a cell of the area by one of its references, and those that reach
/// them.
fn push_stretch(
    run: &Run,
    ears: &[Ear],
    at: usize,
    ways: &Ways,
    area: &Area,
    out: &mut Vec<Run>,
) -> Result<(), NoMemory>
    requires at { at < length ears.now }
    requires inside { All (LieInSheet (steps_of run.now)) ears.now }
    requires down { ways.now.down ≡ list_any (reads_above run.now) ears.now }
    requires up { ways.now.up ≡ list_any (reads_below run.now) ears.now }
    ensures { (d : ReadArea) → OnOk result (GetStretch run.now ears.now area.now
        (λ q. is_hit run.now area.now q (slice_index_or ears.now at d)) out.old.items out.new.items) }
{
    let below = steps_of(run);
    if let Some(steps) = steps_meeting(&ears[at], below, area) {
        let last = steps.last.min(below);
        if steps.first <= last {
            out.push(stretch(run, ways, steps.first, last))?;
        }
    }
    Ok(())
}

/// The same by all its references.
fn push_stretches(run: &Run, ears: &[Ear], area: &Area, out: &mut Vec<Run>) -> Result<(), NoMemory>
    requires { All (LieInSheet (steps_of run.now)) ears.now }
    ensures { OnOk result (GetStretch run.now ears.now area.now
        (λ q. list_any (is_hit run.now area.now q) ears.now) out.old.items out.new.items) }
{
    let ways = Ways {
        down: goes_down(run, ears),
        up: goes_up(run, ears),
    };
    for at in 0..ears.len() {
        push_stretch(run, ears, at, &ways, area, out)?;
    }
    Ok(())
}

/// The same of the registration at a place, if there is one.
fn push_stretches_at(
    registrations: &[Option<Registration>],
    place: usize,
    area: &Area,
    out: &mut Vec<Run>,
) -> Result<(), NoMemory>
    requires inside { (i : ℕ) → LiesInSheet (at registrations.now i) }
    requires apart { AreApart registrations.now }
    requires valid { IsRectangle area.now }
    ensures { OnOk result (GetReached (areas_of registrations.now) area.now
        (hits_at (at registrations.now place) area.now) out.old.items out.new.items) }
{
    match registration_at(registrations, place) {
        Some(registration) => push_stretches(&registration.run, &registration.ears, area, out)?,
        None => {}
    }
    Ok(())
}

/// The same of the registrations at places.
fn push_all_stretches(
    registrations: &[Option<Registration>],
    places: &[usize],
    area: &Area,
    out: &mut Vec<Run>,
) -> Result<(), NoMemory>
    requires inside { (i : ℕ) → LiesInSheet (at registrations.now i) }
    requires apart { AreApart registrations.now }
    requires valid { IsRectangle area.now }
    ensures { OnOk result (GetReached (areas_of registrations.now) area.now
        (λ q. any_hit registrations.now area.now q places.now) out.old.items out.new.items) }
{
    for place in places {
        push_stretches_at(registrations, *place, area, out)?;
    }
    Ok(())
}

/// Runs that have the cells that read a cell of the area, and beside them some that reach one.
fn stretches(slab: &Slab, area: &Area) -> Result<Vec<Run>, NoMemory>
    requires { IsSlabOf slab.now }
    ensures { IfOk result (λ runs. AreReached (areas_of slab.now.registrations.items) area.now
        runs.items) }
{
    let _ = &area.sheet;
    let places = slab.ears.meeting(area)?;
    let mut runs = Vec::new(slab.alloc);
    push_all_stretches(&slab.registrations, &places, area, &mut runs)?;
    Ok(runs)
}

/// Appends runs that have the cells that read a cell of the area, and beside them the cells of their runs
/// that reach those.
pub(crate) fn push_reached(slab: &Slab, area: &Area, out: &mut Vec<Run>) -> Result<(), NoMemory>
    requires { IsSlabOf slab.now }
    ensures ok { OnOk result (Gets out.old.items out.new.items
        (AreReached (areas_of slab.now.registrations.items) area.now)) }
    ensures err { OnErr result (out.new.items ≡ out.old.items) }
{
    let runs = stretches(slab, area)?;
    out.extend_from_slice(&runs)?;
    Ok(())
}
