//! What a workbook tells beside what a plain book says.
ghost use Rattle.std.specs.Prelude.{◌≡◌, ◌≤◌};

use crate::book::{Book, Held};
use crate::pieces::printed;
use crate::places::{LAST_COL, LAST_ROW, LAST_SHEET, Part, Place, area_of, cell_of};
use block_column::Kind;
use calc_model::Dependents;
use std::alloc::{AllocError, Global};
use workbook::Workbook;

/// What differs.
#[derive(Debug, Drop)]
pub(crate) enum Difference {
    /// The change is no edit, or can't be loaded.
    Change,
    /// Whether and why it is refused.
    Refusal,
    /// How many cells aren't empty.
    Count,
    /// The hub may not be asked.
    Spent,
    Formula(Place),
    Groups(u8, u16),
    Blocks(u8, u16),
    Readers(Part),
}

/// The runs of a column's formulas with one relative form.
fn groups(alloc: Global, column: &[(u32, &Held)]) -> Result<Vec<(u32, u32)>, AllocError> {
    let mut groups: Vec<(u32, u32)> = Vec::new(alloc);
    let mut form = String::new(alloc);
    for (row, held) in column {
        if held.is_formula() {
            let next = printed(alloc, &held.pieces, *row)?;
            match groups.last_mut() {
                Some(group)
                    if group.1.saturating_add(1) == *row && form.as_str() == next.as_str() => {
                    group.1 = *row;
                }
                _ => groups.push((*row, *row))?,
            }
            form = next;
        }
    }
    Ok(groups)
}

/// Appends rows of one kind, if there are any, to blocks that end in front of them.
fn push_rows(
    blocks: &mut Vec<(u32, u32, Kind)>,
    first: u32,
    last: u32,
    kind: Kind,
) -> Result<(), AllocError> {
    if first > last {
        return Ok(());
    }
    match blocks.last_mut() {
        Some(block) if block.2 == kind => {
            block.1 = last;
        }
        _ => blocks.push((first, last, kind))?,
    }
    Ok(())
}

/// The runs of a column's rows with one kind.
fn blocks(alloc: Global, column: &[(u32, &Held)]) -> Result<Vec<(u32, u32, Kind)>, AllocError> {
    let mut blocks = Vec::new(alloc);
    let mut next = 1;
    for (row, held) in column {
        push_rows(&mut blocks, next, row.saturating_sub(1), Kind::Empty)?;
        push_rows(&mut blocks, *row, *row, held.kind)?;
        next = row.saturating_add(1);
    }
    push_rows(&mut blocks, next, LAST_ROW, Kind::Empty)?;
    Ok(blocks)
}

/// Whether a cell holds a field.
fn holds(
    alloc: Global,
    workbook: &Workbook,
    place: &Place,
    held: Option<&Held>,
) -> Result<bool, AllocError> {
    let Some(cell) = cell_of(place) else {
        return Ok(false);
    };
    let mut told = Vec::new(alloc);
    workbook.formula(cell, &mut told)?;
    match held {
        Some(held) => Ok(told.as_slice() == held.field(alloc)?.as_bytes()),
        None => Ok(told.is_empty()),
    }
}

/// Whether the workbook has these groups in a column.
fn has_groups(workbook: &Workbook, sheet: u8, col: u16, wanted: &[(u32, u32)]) -> bool
    requires sheet { sheet ≤ 15 }
    requires from { 1 ≤ col }
    requires to { col ≤ 1024 }
{
    let told = workbook.groups(sheet, col);
    told.len() == wanted.len()
        && told.iter().zip(wanted.iter()).all(|(group, rows)| group.first == rows.0
            && group.last == rows.1)
}

/// Whether the workbook has these blocks in a column.
fn has_blocks(workbook: &Workbook, sheet: u8, col: u16, wanted: &[(u32, u32, Kind)]) -> bool
    requires sheet { sheet ≤ 15 }
    requires from { 1 ≤ col }
    requires to { col ≤ 1024 }
{
    let told = workbook.blocks(sheet, col);
    told.len() == wanted.len()
        && told.iter().zip(wanted.iter()).all(|(block, rows)| {
            block.first == rows.0 && block.last == rows.1 && block.kind == rows.2
        })
}

/// What differs in a column.
pub(crate) fn column_difference(
    alloc: Global,
    workbook: &Workbook,
    book: &Book,
    sheet: u8,
    col: u16,
) -> Result<Option<Difference>, AllocError> {
    if sheet > LAST_SHEET || col == 0 || col > LAST_COL {
        return Ok(Some(Difference::Change));
    }
    let column = book.column(alloc, sheet, col)?;
    for (row, held) in &column {
        let place = (sheet, col, *row);
        if !holds(alloc, workbook, &place, Some(*held))? {
            return Ok(Some(Difference::Formula(place)));
        }
    }
    if !has_groups(workbook, sheet, col, &groups(alloc, &column)?) {
        return Ok(Some(Difference::Groups(sheet, col)));
    }
    if !has_blocks(workbook, sheet, col, &blocks(alloc, &column)?) {
        return Ok(Some(Difference::Blocks(sheet, col)));
    }
    Ok(None)
}

/// What differs in an empty cell or another one.
pub(crate) fn cell_difference(
    alloc: Global,
    workbook: &Workbook,
    book: &Book,
    place: &Place,
) -> Result<Option<Difference>, AllocError> {
    if holds(alloc, workbook, place, book.held_at(place))? {
        return Ok(None);
    }
    Ok(Some(Difference::Formula(*place)))
}

/// What differs in who reads an area.
pub(crate) fn readers_difference(
    alloc: Global,
    workbook: &Workbook,
    book: &Book,
    part: &Part,
) -> Result<Option<Difference>, AllocError> {
    let Some(area) = area_of(part) else {
        return Ok(Some(Difference::Change));
    };
    let hub = workbook.hub();
    if hub.is_spent() {
        return Ok(Some(Difference::Spent));
    }
    let mut cells = Vec::new(alloc);
    hub.readers(area, &mut cells)?;
    let mut told = Vec::new(alloc);
    for cell in &cells {
        told.push((cell.sheet, cell.col, cell.row))?;
    }
    let wanted = book.readers(alloc, part)?;
    if told.as_slice() != wanted.as_slice() {
        return Ok(Some(Difference::Readers(*part)));
    }
    Ok(None)
}
