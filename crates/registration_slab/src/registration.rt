ghost use Rattle.std.specs.Option.{option_copied};
ghost use Rattle.std.specs.Prelude.{◌≡◌, false, true, Some, IfNone, IfSome};
ghost use Rattle.std.specs.List.{All, list_any};
ghost use Rattle.ears.specs.RunAreas.{LieInSheet};
ghost use Rattle.registration_slab.specs.Slab.{LiesInSheet, at, has_cell, steps_of};

use calc_addr::{Cell, Run};
use calc_model::Ear;

/// A run of formulas, and what its rows read.
#[derive(Drop)]
pub struct Registration {
    pub run: Run,
    pub ears: Vec<Ear>,
}

/// The registration of a run by the ears of its first row.
pub fn registration_of(run: &Run, ears: Vec<Ear>) -> Registration
    requires { All (LieInSheet (steps_of run.now)) ears.items }
    ensures run { result.run ≡ run.now }
    ensures ears { result.ears.items ≡ ears.items }
    ensures inside { LiesInSheet (Some result) }
{
    let _ = &run.first;
    Registration { run: *run, ears }
}

/// The registration at a place, if there is one.
pub fn registration_at(
    registrations: &[Option<Registration>],
    place: usize,
) -> Option<&Registration>
    ensures { option_copied result ≡ at registrations.now place }
{
    match registrations.get(place) {
        Some(Some(registration)) => Some(registration),
        _ => None,
    }
}

fn has_cell(registrations: &[Option<Registration>], place: usize, cell: &Cell) -> bool
    ensures { result ≡ has_cell (at registrations.now place) cell.now }
{
    match registrations.get(place) {
        Some(Some(registration)) => {
            let run = &registration.run;
            (cell.sheet == run.sheet && cell.col == run.col)
                && (run.first <= cell.row && cell.row <= run.last)
        }
        _ => false,
    }
}

/// The first of the places whose registration has the cell.
pub fn place_of(
    registrations: &[Option<Registration>],
    places: &[usize],
    cell: &Cell,
) -> Option<usize>
    ensures found { IfSome result (λ i. has_cell (at registrations.now i) cell.now ≡ true) }
    ensures none { IfNone result
        (list_any (λ i. has_cell (at registrations.now i) cell.now) places.now ≡ false) }
{
    for place in places {
        if has_cell(registrations, *place, cell) {
            return Some(*place);
        }
    }
    None
}
