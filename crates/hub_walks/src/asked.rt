//! What a hub says of parts and of what is reached, beside what a plain list says.
ghost use Rattle.std.specs.Prelude.{◌≡◌, false};

use crate::model::{Formula, Part, Place, formulas_in, reaching, readers};
use crate::walk::{area_of, part_below, part_of};
use calc_addr::{NoMemory, Run};
use calc_model::{Dependents, Ear, Part as Piece};
use listener_hub::Hub;
use std::alloc::Global;

/// The cells of runs, each once and in order.
fn places_in(alloc: Global, runs: &[Run]) -> Result<Vec<Place>, NoMemory> {
    let mut places = Vec::new(alloc);
    for run in runs {
        for row in run.first..=run.last {
            places.push((run.sheet, run.col, row))?;
        }
    }
    places.sort_unstable();
    places.dedup();
    Ok(places)
}

fn are_within(few: &[Place], many: &[Place]) -> bool {
    for place in few {
        if many.binary_search(place).is_err() {
            return false;
        }
    }
    true
}

/// Whether what reaches an area by the hub are all cells that read it, and no cell that doesn't reach it.
pub fn is_reached(
    alloc: Global,
    hub: &Hub,
    formulas: &[Formula],
    part: &Part,
) -> Result<bool, NoMemory>
    requires { hub.now.spent ≡ false }
{
    let Some(area) = area_of(part) else {
        return Ok(false);
    };
    let mut runs = Vec::new(alloc);
    hub.reached(area, &mut runs)?;
    let told = places_in(alloc, &runs)?;
    let least = readers(alloc, formulas, part)?;
    let most = reaching(alloc, formulas, part)?;
    Ok(are_within(&least, &told) && are_within(&told, &most))
}

/// What the row so many rows below a part's first one reads.
fn read_below(
    alloc: Global,
    ears: &[Ear],
    piece: &Piece,
    step: u32,
) -> Result<Vec<Part>, NoMemory> {
    let mut reads = Vec::new(alloc);
    for at in piece.from..piece.to {
        if let Some(ear) = ears.get(at) {
            let read = (part_of(&ear.area), ear.first_moves, ear.last_moves);
            reads.push(part_below(&read, step))?;
        }
    }
    Ok(reads)
}

/// The rows of parts with what they read, in the order of the parts.
fn formulas_of(alloc: Global, pieces: &[Piece], ears: &[Ear]) -> Result<Vec<Formula>, NoMemory> {
    let mut formulas = Vec::new(alloc);
    for piece in pieces {
        let run = piece.run;
        for row in run.first..=run.last {
            let reads = read_below(alloc, ears, piece, row.saturating_sub(run.first))?;
            formulas.push(Formula {
                place: (run.sheet, run.col, row),
                reads,
            })?;
        }
    }
    Ok(formulas)
}

/// Whether the parts of a run by the hub have its formulas, each once and in order, with what they read.
pub fn is_parted(alloc: Global, hub: &Hub, formulas: &[Formula], run: Run) -> Result<bool, NoMemory>
    requires { hub.now.spent ≡ false }
{
    let mut pieces = Vec::new(alloc);
    let mut ears = Vec::new(alloc);
    hub.parts(run, &mut pieces, &mut ears)?;
    let told = formulas_of(alloc, &pieces, &ears)?;
    let wanted = formulas_in(alloc, formulas, run.sheet, run.col, run.first, run.last)?;
    Ok(told.as_slice() == wanted.as_slice())
}
