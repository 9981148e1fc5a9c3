//! A walk of random edits.
ghost use Rattle.std.specs.Prelude.{◌≡◌, ◌≤◌, ◌<◌, false};

use crate::asked::{is_parted, is_reached};
use crate::book::Book;
use crate::model::{Formula, Part, Place, edited, readers, remove};
use calc_addr::{Area, Cell, NoMemory, Run};
use calc_model::{Dependents, Ear};
use listener_hub::Hub;
use std::alloc::Global;
use std::test::Fail;

/// Numbers that look random.
#[derive(Drop)]
struct Numbers {
    state: u64,
}

impl Numbers {
    /// The next number below another one.
    fn below(&mut self, end: u32) -> u32
        requires { 0 < end }
        ensures { result < end }
    {
        let next = self
            .state
            .wrapping_mul(6_364_136_223_846_793_005)
            .wrapping_add(1_442_695_040_888_963_407);
        self.state = next;
        (next >> 33) as u32 % end
    }
}

/// The area, if its ends are in order and in the sheet.
pub fn area_of(part: &Part) -> Option<Area> {
    let (sheet, first_col, last_col, first_row, last_row) = *part;
    if sheet > 15
        || first_col == 0
        || first_col > last_col
        || last_col > 1_024
        || first_row == 0
        || first_row > last_row
        || last_row > 1_048_576
    {
        return None;
    }
    Some(Area {
        sheet,
        first_col,
        last_col,
        first_row,
        last_row,
    })
}

pub fn part_of(area: &Area) -> Part {
    (
        area.sheet,
        area.first_col,
        area.last_col,
        area.first_row,
        area.last_row,
    )
}

/// What a formula may read from a row on: a cell, a window, a sum from the top or to a fixed row, fixed
/// areas, whole columns and rows, and areas at the sheet's last row.
fn reads(numbers: &mut Numbers, row: u32) -> (Part, bool, bool)
    requires { row ≤ 100 }
{
    let sheet = numbers.below(2) as u8;
    let left = numbers.below(4) as u16 + 1;
    let right = left + numbers.below(3) as u16;
    let top = row + numbers.below(4);
    let fixed = numbers.below(24) + 1;
    match numbers.below(9) {
        0 => ((sheet, left, left, top, top), true, true),
        1 => ((sheet, left, right, top, top + fixed), true, true),
        2 => ((sheet, left, left, 1, top), false, true),
        3 => ((sheet, left, right, fixed, fixed + 5), false, false),
        4 => ((sheet, left, right, 1, 1_048_576), false, false),
        5 => ((sheet, 1, 1_024, top, top + 1), true, true),
        6 => ((sheet, left, right, fixed, 1_048_576), false, false),
        7 => (
            (sheet, left, left, 1_048_560 + row % 8, 1_048_567),
            true,
            true,
        ),
        _ => ((sheet, left, right, top, 100), true, false),
    }
}

/// The area that the row so many rows below the first one reads.
pub fn part_below(read: &(Part, bool, bool), step: u32) -> Part {
    let ((sheet, left, right, first, last), first_moves, last_moves) = *read;
    (
        sheet,
        left,
        right,
        if first_moves {
            first.saturating_add(step)
        } else {
            first
        },
        if last_moves {
            last.saturating_add(step)
        } else {
            last
        },
    )
}

/// Attaches a run to both.
fn attach(
    alloc: Global,
    book: &mut Book,
    formulas: &mut Vec<Formula>,
    run: Run,
    chosen: &[(Part, bool, bool)],
) -> Result<(), NoMemory> {
    let mut ears = Vec::new(alloc);
    for read in chosen {
        if let Some(area) = area_of(&read.0) {
            ears.push(Ear {
                area,
                first_moves: read.1,
                last_moves: read.2,
            })?;
        }
    }
    if !book.attach(run, &ears)? {
        return Ok(());
    }
    remove(formulas, run.sheet, run.col, run.first, run.last);
    for row in run.first..=run.last {
        let mut parts = Vec::new(alloc);
        for read in chosen {
            parts.push(part_below(read, row.saturating_sub(run.first)))?;
        }
        formulas.push(Formula {
            place: (run.sheet, run.col, row),
            reads: parts,
        })?;
    }
    Ok(())
}

fn places_of(alloc: Global, cells: &[Cell]) -> Result<Vec<Place>, NoMemory> {
    let mut places = Vec::new(alloc);
    for cell in cells {
        places.push((cell.sheet, cell.col, cell.row))?;
    }
    Ok(places)
}

/// Which cells read an area, by the hub.
fn told(alloc: Global, hub: &Hub, part: &Part) -> Result<Vec<Place>, NoMemory>
    requires { hub.now.spent ≡ false }
{
    let mut cells = Vec::new(alloc);
    if let Some(area) = area_of(part) {
        hub.readers(area, &mut cells)?;
    }
    places_of(alloc, &cells)
}

/// What a cell reads, by the hub.
fn read_by(alloc: Global, hub: &Hub, place: &Place) -> Result<Vec<Part>, NoMemory>
    requires { hub.now.spent ≡ false }
{
    let (sheet, col, row) = *place;
    let mut areas = Vec::new(alloc);
    if sheet <= 15 && 1 <= col && col <= 1_024 && 1 <= row && row <= 1_048_576 {
        hub.reads(Cell { sheet, col, row }, &mut areas)?;
    }
    let mut parts = Vec::new(alloc);
    for area in &areas {
        parts.push(part_of(area))?;
    }
    Ok(parts)
}

/// An area to ask for.
fn question(numbers: &mut Numbers) -> Part {
    let sheet = numbers.below(2) as u8;
    let left = numbers.below(6) as u16 + 1;
    let top = numbers.below(40) + 1;
    match numbers.below(5) {
        0 => (sheet, left, left, top, top),
        1 => (sheet, left, left + 2, top, top + 6),
        2 => (sheet, left, left, 1, 1_048_576),
        3 => (sheet, 1, 1_024, top, 1_048_576),
        _ => (sheet, left, left, 1_048_550 + top / 2, 1_048_576),
    }
}

/// The rows of a column.
fn some_run(numbers: &mut Numbers) -> Run
    ensures { result.last ≤ 60 }
{
    let first = numbers.below(40) + 1;
    Run {
        sheet: numbers.below(2) as u8,
        col: numbers.below(5) as u16 + 1,
        first,
        last: first + numbers.below(12),
    }
}

/// One random edit of both.
fn step(
    alloc: Global,
    numbers: &mut Numbers,
    book: &mut Book,
    formulas: &mut Vec<Formula>,
) -> Result<(), NoMemory> {
    let run = some_run(numbers);
    let place = numbers.below(45) + 1;
    let count = numbers.below(4) + 1;
    match numbers.below(8) {
        0 => {
            book.detach(run)?;
            remove(formulas, run.sheet, run.col, run.first, run.last);
        }
        1 => book.split(run)?,
        2 => {
            if book.insert(run.sheet, place, count)? {
                *formulas = edited(alloc, formulas, true, run.sheet, place, count)?;
            }
        }
        3 => {
            if book.delete(run.sheet, place, count)? {
                *formulas = edited(alloc, formulas, false, run.sheet, place, count)?;
            }
        }
        _ => {
            let mut chosen = Vec::new(alloc);
            for _ in 0..numbers.below(4) {
                chosen.push(reads(numbers, run.first))?;
            }
            attach(alloc, book, formulas, run, &chosen)?;
        }
    }
    Ok(())
}

/// Whether the hub answers some questions as the list does.
fn answers(
    alloc: Global,
    numbers: &mut Numbers,
    hub: &Hub,
    formulas: &[Formula],
) -> Result<bool, NoMemory>
    requires { hub.now.spent ≡ false }
{
    let mut same = true;
    for _ in 0..6u32 {
        let part = question(numbers);
        let wanted = readers(alloc, formulas, &part)?;
        let got = told(alloc, hub, &part)?;
        same = same && got.as_slice() == wanted.as_slice();
    }
    let part = question(numbers);
    let run = some_run(numbers);
    Ok(same && is_reached(alloc, hub, formulas, &part)? && is_parted(alloc, hub, formulas, run)?)
}

/// Whether the hub knows what each cell reads.
fn knows(alloc: Global, hub: &Hub, formulas: &[Formula]) -> Result<bool, NoMemory>
    requires { hub.now.spent ≡ false }
{
    let mut same = true;
    for formula in formulas {
        let got = read_by(alloc, hub, &formula.place)?;
        same = same && got.as_slice() == formula.reads.as_slice();
    }
    Ok(same)
}

/// How many of so many edits leave hub and list alike.
fn walk(alloc: Global, turns: u32) -> Result<u32, NoMemory> {
    let mut numbers = Numbers { state: 16 };
    let mut book = Book::new(alloc);
    let mut formulas = Vec::new(alloc);
    for turn in 0..turns {
        step(alloc, &mut numbers, &mut book, &mut formulas)?;
        let hub = book.hub()?;
        if !answers(alloc, &mut numbers, hub, &formulas)? || !knows(alloc, hub, &formulas)? {
            return Ok(turn);
        }
    }
    Ok(turns)
}

#[test]
fn a_hub_goes_with_a_plain_list(rt: HostRuntime) -> Result<(), Fail> {
    assert_eq!(rt; walk(rt.alloc(), 400)?, 400);
    Ok(())
}
