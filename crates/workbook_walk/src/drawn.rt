//! Cells and areas that are drawn.
ghost use Rattle.std.specs.Prelude.{◌≤◌, ◌<◌};

use crate::numbers::Numbers;
use crate::places::{LAST_COL, LAST_ROW, Part, Place};

/// How many sheets and rows edits are drawn from, but for those at the ends.
const SHEETS: u32 = 3;

const ROWS: u32 = 30;

pub(crate) fn sheet(numbers: &mut Numbers) -> u8
    ensures { result < 3 }
{
    numbers.below(SHEETS) as u8
}

/// A column, mostly one of the first six.
pub(crate) fn column(numbers: &mut Numbers) -> u16
    ensures from { 1 ≤ result }
    ensures to { result ≤ 1024 }
{
    let col = numbers.below(6) as u16 + 1;
    if numbers.is_one_of(16) {
        return LAST_COL - (col % 2);
    }
    col
}

/// A row, mostly one of the first thirty.
fn row(numbers: &mut Numbers) -> u32
    ensures from { 1 ≤ result }
    ensures to { result ≤ 1048576 }
{
    let row = numbers.below(ROWS) + 1;
    match numbers.below(24) {
        0 => 1,
        1 => LAST_ROW - row % 4,
        _ => row,
    }
}

pub(crate) fn place(numbers: &mut Numbers) -> Place {
    (sheet(numbers), column(numbers), row(numbers))
}

/// An area of some cells, of a whole column, or of two whole rows.
pub(crate) fn part(numbers: &mut Numbers) -> Part {
    let (sheet, left, first) = place(numbers);
    match numbers.below(20) {
        0 => return (sheet, left, left, 1, LAST_ROW),
        1 => return (
            sheet,
            1,
            LAST_COL,
            first,
            first.saturating_add(1).min(LAST_ROW),
        ),
        _ => {}
    }
    small_part(numbers, (sheet, left, first))
}

/// An area of at most three columns and twelve rows that begins at a cell.
pub(crate) fn small_part(numbers: &mut Numbers, from: Place) -> Part {
    let (sheet, left, first) = from;
    let right = left.saturating_add(numbers.below(3) as u16);
    let last = first.saturating_add(numbers.below(12));
    (sheet, left, right.min(LAST_COL), first, last.min(LAST_ROW))
}
