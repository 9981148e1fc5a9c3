//! Edits that are drawn.
use crate::book::Book;
use crate::change::{BAD_NAMES, Change};
use crate::contents::{held, name};
use crate::drawn::{part, place, sheet, small_part};
use crate::numbers::Numbers;
use crate::places::{LAST_COL, LAST_ROW, Place};
use crate::rows::RowEdit;
use std::alloc::{AllocError, Global};

/// How many cells a book may have before an edit that removes many of them comes next.
const MANY: usize = 240;

/// Some rows of a sheet, few at a place that may lie past the end, or many of them.
fn rows(numbers: &mut Numbers) -> RowEdit {
    let (sheet, _, place) = place(numbers);
    let count = numbers.below(4) + 1;
    let mut rows = RowEdit {
        inserts: numbers.is_one_of(2),
        sheet,
        place,
        count,
    };
    match numbers.below(40) {
        0 => rows.sheet = 16,
        1 => rows.place = 0,
        2 => rows.count = 0,
        3 => rows.count = LAST_ROW,
        4 => rows.count = 2_000,
        5 => rows.place = LAST_ROW - numbers.below(8),
        _ => {}
    }
    rows
}

/// Mostly a cell that isn't empty.
fn used_place(numbers: &mut Numbers, book: &Book) -> Place {
    match book.cells.get(numbers.below(100) as usize) {
        Some(cell) => cell.place,
        None => place(numbers),
    }
}

/// A copy, mostly within the sheet.
fn copy(numbers: &mut Numbers, book: &Book) -> Change {
    let from = used_place(numbers, book);
    let part = if numbers.is_one_of(2) {
        small_part(numbers, from)
    } else {
        part(numbers)
    };
    let (other, mut col, mut row) = place(numbers);
    let (mut sheet, left, right, first, last) = part;
    if numbers.is_one_of(12) {
        sheet = other;
    }
    if first == 1 && last == LAST_ROW {
        row = 1;
    }
    if left == 1 && right == LAST_COL {
        col = 1;
    }
    Change::Copy {
        part,
        to: (sheet, col, row),
    }
}

/// A fill, mostly within the sheet.
fn fill(numbers: &mut Numbers, book: &Book) -> Change {
    let from = used_place(numbers, book);
    let (mut sheet, mut left, mut first) = from;
    if numbers.is_one_of(2) {
        (_, left, first) = place(numbers);
    }
    if numbers.is_one_of(12) {
        (sheet, _, _) = place(numbers);
    }
    Change::Fill {
        from,
        part: small_part(numbers, (sheet, left, first)),
    }
}

/// An edit that removes many cells.
fn removal(numbers: &mut Numbers) -> Change {
    let sheet = sheet(numbers);
    match numbers.below(4) {
        0 => Change::Make {
            start: numbers.below(1_000),
            rows: numbers.below(13),
        },
        1 => Change::Clear {
            part: (sheet, 1, 1_024, 1, LAST_ROW),
        },
        2 => Change::Rows {
            rows: RowEdit {
                inserts: false,
                sheet,
                place: 1,
                count: 12,
            },
        },
        _ => Change::Clear {
            part: (sheet, 1, 3, 1, LAST_ROW),
        },
    }
}

fn named(numbers: &mut Numbers) -> &'static str {
    if numbers.is_one_of(8) {
        return BAD_NAMES[numbers.below(4) as usize];
    }
    name(numbers)
}

/// The next edit of a book.
pub(crate) fn change(
    alloc: Global,
    numbers: &mut Numbers,
    book: &Book,
) -> Result<Change, AllocError> {
    if book.cells.len() > MANY {
        return Ok(removal(numbers));
    }
    match numbers.below(64) {
        0..=9 => Ok(fill(numbers, book)),
        10..=17 => Ok(copy(numbers, book)),
        18 | 19 => Ok(Change::Clear {
            part: part(numbers),
        }),
        20..=33 => Ok(Change::Rows {
            rows: rows(numbers),
        }),
        34..=38 => Ok(Change::Name {
            name: named(numbers),
            part: part(numbers),
        }),
        39 | 40 => Ok(Change::Unname {
            name: named(numbers),
        }),
        41 => Ok(Change::Load),
        _ => {
            let place = place(numbers);
            let held = held(alloc, numbers, place.2)?;
            Ok(Change::Set { place, held })
        }
    }
}
