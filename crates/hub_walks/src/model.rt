//! Formula cells as a plain list, with the areas that each reads.
use std::alloc::Global;

/// The last row of a sheet.
const LAST: u32 = 1_048_576;

/// A cell by sheet, column and row.
pub type Place = (u8, u16, u32);

/// An area by sheet, first and last column, first and last row.
pub type Part = (u8, u16, u16, u32, u32);

#[derive(Clone, Debug, Drop, PartialEq)]
pub struct Formula {
    pub place: Place,
    pub reads: Vec<Part>,
}

pub fn meet(a: &Part, b: &Part) -> bool {
    a.0 == b.0 && a.1 <= b.2 && b.1 <= a.2 && a.3 <= b.4 && b.3 <= a.4
}

/// Takes out the formulas of a column from one row to another.
pub fn remove(formulas: &mut Vec<Formula>, sheet: u8, col: u16, first: u32, last: u32) {
    formulas.retain(|formula| {
        let (s, c, row) = formula.place;
        s != sheet || c != col || row < first || last < row
    });
}

fn reads_one_of(formula: &Formula, area: &Part) -> bool {
    for part in &formula.reads {
        if meet(part, area) {
            return true;
        }
    }
    false
}

/// The cells that read a cell of the area, in order.
pub fn readers(
    alloc: Global,
    formulas: &[Formula],
    area: &Part,
) -> Result<Vec<Place>, std::alloc::AllocError> {
    let mut places = Vec::new(alloc);
    for formula in formulas {
        if reads_one_of(formula, area) {
            places.push(formula.place)?;
        }
    }
    places.sort_unstable();
    Ok(places)
}

/// Appends the formulas that read a cell of the area and aren't known yet, and knows them from then on.
fn push_readers(
    formulas: &[Formula],
    area: &Part,
    known: &mut Vec<bool>,
    places: &mut Vec<Place>,
) -> Result<(), std::alloc::AllocError> {
    for at in 0..formulas.len() {
        if let Some(is_known) = known.get_mut(at) {
            if !*is_known && reads_one_of(&formulas[at], area) {
                *is_known = true;
                places.push(formulas[at].place)?;
            }
        }
    }
    Ok(())
}

/// The cells that read a cell of the area, or one that reaches it so, in order.
pub fn reaching(
    alloc: Global,
    formulas: &[Formula],
    area: &Part,
) -> Result<Vec<Place>, std::alloc::AllocError> {
    let mut known = Vec::new(alloc);
    for _ in 0..formulas.len() {
        known.push(false)?;
    }
    let mut places: Vec<Place> = Vec::new(alloc);
    push_readers(formulas, area, &mut known, &mut places)?;
    for at in 0..formulas.len() {
        if let Some(place) = places.get(at).copied() {
            let (sheet, col, row) = place;
            let cell = (sheet, col, col, row, row);
            push_readers(formulas, &cell, &mut known, &mut places)?;
        }
    }
    places.sort_unstable();
    Ok(places)
}

/// The formulas of a column from one row to another, in order.
pub fn formulas_in(
    alloc: Global,
    formulas: &[Formula],
    sheet: u8,
    col: u16,
    first: u32,
    last: u32,
) -> Result<Vec<Formula>, std::alloc::AllocError> {
    let mut found = Vec::new(alloc);
    for formula in formulas {
        let (s, c, row) = formula.place;
        if s == sheet && c == col && first <= row && row <= last {
            found.push(formula.clone()?)?;
        }
    }
    found.sort_by_key(|formula: &Formula| formula.place)?;
    Ok(found)
}

/// Where the rows of an area are when others are inserted, by the rule of a sheet: all rows stay all rows,
/// and what leaves the sheet is cut off.
fn inserted(part: &Part, place: u32, count: u32) -> Option<Part> {
    let (sheet, left, right, first, last) = *part;
    if first == 1 && last == LAST {
        return Some(*part);
    }
    let first = if first < place {
        first
    } else {
        first.saturating_add(count)
    };
    let last = if last < place {
        last
    } else {
        last.saturating_add(count)
    };
    if first > LAST {
        return None;
    }
    Some((sheet, left, right, first, last.min(LAST)))
}

/// The same when rows are deleted: an end in them goes to the nearest row of the area that stays.
fn deleted(part: &Part, place: u32, count: u32) -> Option<Part> {
    let (sheet, left, right, first, last) = *part;
    if first == 1 && last == LAST {
        return Some(*part);
    }
    let after = place.saturating_add(count);
    if place <= first && last < after {
        return None;
    }
    let first = if first < place {
        first
    } else if first < after {
        place
    } else {
        first.saturating_sub(count)
    };
    let last = if last < place {
        last
    } else if last < after {
        place.saturating_sub(1)
    } else {
        last.saturating_sub(count)
    };
    Some((sheet, left, right, first, last))
}

/// The formulas after rows of a sheet were inserted or deleted.
pub fn edited(
    alloc: Global,
    formulas: &[Formula],
    insert: bool,
    sheet: u8,
    place: u32,
    count: u32,
) -> Result<Vec<Formula>, std::alloc::AllocError> {
    let mut moved = Vec::new(alloc);
    for formula in formulas {
        let (s, col, row) = formula.place;
        let row = if s != sheet || row < place {
            row
        } else if insert {
            row.saturating_add(count)
        } else if row < place.saturating_add(count) {
            0
        } else {
            row.saturating_sub(count)
        };
        let mut reads = Vec::new(alloc);
        for part in &formula.reads {
            let part = if part.0 != sheet {
                Some(*part)
            } else if insert {
                inserted(part, place, count)
            } else {
                deleted(part, place, count)
            };
            if let Some(part) = part {
                reads.push(part)?;
            }
        }
        if row > 0 {
            moved.push(Formula {
                place: (s, col, row),
                reads,
            })?;
        }
    }
    Ok(moved)
}
