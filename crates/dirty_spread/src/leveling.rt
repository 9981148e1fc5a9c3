//! The waves of stale cells, found by going along what they read.
ghost use Rattle.std.specs.Prelude.{◌≡◌, ◌≢◌, ◌≤◌, ◌<◌, ◌++◌, ◌∷◌, [], ℕ, length, true, slice_set, OnOk};
ghost use Rattle.std.specs.List.{All, AllPairs};
ghost use Rattle.calc_addr.specs.Places.{IsBefore};
ghost use Rattle.calc_model.specs.Listeners.{listed};
ghost use Rattle.dirty_spread.specs.Finding.{at};
ghost use Rattle.dirty_spread.specs.Waves.{problem_of};
ghost use Rattle.dirty_spread.specs.Levels.{AreLevels, IsCircular, IsClosable, IsClosed, IsOpen, IsOrdering, level, rest};

use crate::by_parts::level_runs;
use crate::look::{CIRCULAR, Cursor, Frame, NEW, Seen, look};
use calc_addr::{Area, NoMemory};
use calc_model::Dependents;
use cell_runs::CellRuns;
use std::alloc::Global;

/// The level of a cell that is being looked at.
const OPEN: usize = 1;

/// Says of cells that they are in no wave.
fn close(path: &[Frame], levels: &mut [usize])
    requires { All (IsClosable levels.old) path.now }
    ensures closed { IsClosed levels.old levels.new }
    ensures all { All (IsCircular levels.new) path.now }
{
    for frame in path {
        levels[frame.place] = CIRCULAR;
    }
}

/// Says of a cell that was being looked at, and of all that led to it, that they are in no wave.
fn close_path(frame: &Frame, levels: &mut [usize], path: &mut Vec<Frame>)
    requires { All (IsClosable levels.old) (path.old.items ++ frame.now ∷ []) }
    ensures closed { IsClosed levels.old levels.new }
    ensures all { All (IsCircular levels.new) (path.old.items ++ frame.now ∷ []) }
    ensures empty { path.new.items ≡ [] }
{
    levels[frame.place] = CIRCULAR;
    close(path, levels);
    path.clear();
}

/// Goes on to a cell that a cell reads which is being looked at.
fn descend(
    place: usize,
    cursor: &Cursor,
    levels: &mut [usize],
    path: &mut Vec<Frame>,
) -> Result<(), NoMemory>
    requires { cursor.now.next < length levels.old }
    ensures levels { levels.new ≡ slice_set levels.old cursor.now.next 1 }
    ensures path { OnOk result (path.new.items
        ≡ (path.old.items ++ record { place = place; cursor = cursor.now } ∷ [])
        ++ record {
          place = cursor.now.next;
          cursor = record { area = 0; next = 0; greatest = 2 };
        } ∷ []) }
{
    levels[cursor.next] = OPEN;
    path.push(Frame {
        place,
        cursor: *cursor,
    })?;
    path.push(frame_at(cursor.next))?;
    Ok(())
}

/// A cell of which nothing was looked at.
fn frame_at(place: usize) -> Frame
    ensures { result ≡ record {
      place = place;
      cursor = record { area = 0; next = 0; greatest = 2 };
    } }
{
    Frame {
        place,
        cursor: Cursor {
            area: 0,
            next: 0,
            greatest: CIRCULAR,
        },
    }
}

/// The areas that a stale cell reads.
pub(crate) fn read_areas<H: Dependents>(
    stale: &CellRuns,
    hub: &H,
    place: usize,
    areas: &mut Vec<Area>,
) -> Result<(), NoMemory>
    requires within { place < length stale.now }
    requires ready { H.ready hub.now ≡ true }
    ensures { OnOk result (areas.new.items ≡ listed (H.areas hub.now (at stale.now place))) }
{
    areas.clear();
    match stale.cell(place) {
        Some(cell) => hub.reads(cell, areas),
        None => Ok(()),
    }
}

/// Looks at what a cell reads that is being looked at, the last of a path: it gets its wave, or
/// goes on to a cell that has none yet. Where that one leads to it, all on the path are in no wave.
fn visit<H: Dependents>(
    frame: &Frame,
    stale: &CellRuns,
    circles: &CellRuns,
    hub: &H,
    levels: &mut [usize],
    path: &mut Vec<Frame>,
    areas: &mut Vec<Area>,
) -> Result<(), NoMemory>
    requires in_order { AllPairs IsBefore stale.now }
    requires circles { AllPairs IsBefore circles.now }
    requires ready { H.ready hub.now ≡ true }
    requires ordering { IsOrdering (problem_of (H.areas hub.now) stale.now circles.now)
        levels.old (path.old.items ++ frame.now ∷ []) }
    ensures ordering { OnOk result
        (IsOrdering (problem_of (H.areas hub.now) stale.now circles.now)
        levels.new path.new.items) }
    ensures less { OnOk result (rest levels.new path.new.items
        < rest levels.old (path.old.items ++ frame.now ∷ [])) }
    ensures kept { OnOk result ((i : ℕ) → level levels.new i ≡ 0 → level levels.old i ≡ 0) }
{
    read_areas(stale, hub, frame.place, areas)?;
    match look(stale, circles, levels, areas, &frame.cursor) {
        Seen::Settled(cursor) => {
            levels[frame.place] = cursor.greatest + 1;
            Ok(())
        }
        Seen::Open(cursor) => {
            if levels[cursor.next] == NEW {
                return descend(frame.place, &cursor, levels, path);
            }
            close_path(frame, levels, path);
            Ok(())
        }
        Seen::Circle => {
            close_path(frame, levels, path);
            Ok(())
        }
    }
}

/// Finds the wave of a cell that wasn't looked at, and of all that it reads.
fn level_from<H: Dependents>(
    place: usize,
    stale: &CellRuns,
    circles: &CellRuns,
    hub: &H,
    levels: &mut [usize],
    path: &mut Vec<Frame>,
    areas: &mut Vec<Area>,
) -> Result<(), NoMemory>
    requires in_order { AllPairs IsBefore stale.now }
    requires circles { AllPairs IsBefore circles.now }
    requires ready { H.ready hub.now ≡ true }
    requires within { place < length levels.old }
    requires new { level levels.old place ≡ 0 }
    requires empty { path.old.items ≡ [] }
    requires ordering { IsOrdering (problem_of (H.areas hub.now) stale.now circles.now)
        levels.old [] }
    ensures ordering { OnOk result
        (IsOrdering (problem_of (H.areas hub.now) stale.now circles.now) levels.new []) }
    ensures empty { OnOk result (path.new.items ≡ []) }
    ensures kept { OnOk result ((i : ℕ) → level levels.new i ≡ 0 → level levels.old i ≡ 0) }
    ensures place { OnOk result (level levels.new place ≢ 0) }
{
    levels[place] = OPEN;
    path.push(frame_at(place))?;
    while let Some(frame) = path.pop() {
        visit(&frame, stale, circles, hub, levels, path, areas)?;
    }
    Ok(())
}

/// Finds the waves of all stale cells, of which none was looked at. Linear in what they read by
/// areas of few cells; a stretch of stale cells of an area is gone over once by each cell that
/// reads it.
pub(crate) fn find_levels<H: Dependents>(
    alloc: Global,
    stale: &CellRuns,
    circles: &CellRuns,
    hub: &H,
    levels: &mut [usize],
) -> Result<(), NoMemory>
    requires in_order { AllPairs IsBefore stale.now }
    requires circles { AllPairs IsBefore circles.now }
    requires ready { H.ready hub.now ≡ true }
    requires size { length levels.old ≡ length stale.now }
    requires new { (i : ℕ) → level levels.old i ≡ 0 }
    ensures { OnOk result (AreLevels
        (problem_of (H.areas hub.now) stale.now circles.now) levels.new) }
{
    level_runs(alloc, stale, circles, hub, levels)?;
    let mut path = Vec::new(alloc);
    let mut areas = Vec::new(alloc);
    for place in 0..levels.len() {
        if levels[place] == NEW {
            level_from(place, stale, circles, hub, levels, &mut path, &mut areas)?;
        }
    }
    Ok(())
}
