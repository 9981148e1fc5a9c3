//! Edits of a workbook.
ghost use Rattle.std.specs.Prelude.{◌≡◌, true, IfOk, IfSome};
ghost use Rattle.calc_model.specs.Step.{is_makeable};

use crate::book::{Book, Held};
use crate::change::Change;
use crate::places::{area_of, cell_of};
use crate::rows::RowEdit;
use book_parts::BookParts;
use calc_model::{Content, Edit, MOST_GENERATED_ROWS, Text};
use formula_reader::read_field;
use std::alloc::{AllocError, Global};
use workbook::Workbook;

fn content_of(alloc: Global, held: Option<&Held>) -> Result<Content, AllocError> {
    match held {
        Some(held) => {
            let field = held.field(alloc)?;
            read_field(alloc, field.as_bytes())
        }
        None => Ok(Content::Empty),
    }
}

fn text_of(alloc: Global, name: &str) -> Result<Text, AllocError> {
    Ok(Text::of(String::from_str(alloc, name)?))
}

fn row_edit(rows: &RowEdit) -> Edit {
    let RowEdit {
        inserts,
        sheet,
        place,
        count,
    } = *rows;
    if inserts {
        Edit::InsertRows {
            sheet,
            place,
            count,
        }
    } else {
        Edit::DeleteRows {
            sheet,
            place,
            count,
        }
    }
}

/// The edit of a workbook, if the change is one.
fn any_edit(alloc: Global, change: &Change) -> Result<Option<Edit>, AllocError> {
    match change {
        Change::Set { place, held } => {
            let content = content_of(alloc, held.as_ref())?;
            Ok(cell_of(place).map(|cell| Edit::Set { cell, content }))
        }
        Change::Clear { part } => Ok(area_of(part).map(|area| Edit::Clear { area })),
        Change::Copy { part, to } => match (area_of(part), cell_of(to)) {
            (Some(area), Some(to)) => Ok(Some(Edit::Copy { area, to })),
            _ => Ok(None),
        },
        Change::Fill { from, part } => match (cell_of(from), area_of(part)) {
            (Some(from), Some(area)) => Ok(Some(Edit::Fill { from, area })),
            _ => Ok(None),
        },
        Change::Rows { rows } => Ok(Some(row_edit(rows))),
        Change::Name { name, part } => {
            let name = text_of(alloc, name)?;
            Ok(area_of(part).map(|area| Edit::Name { name, area }))
        }
        Change::Unname { name } => {
            let name = text_of(alloc, name)?;
            Ok(Some(Edit::Unname { name }))
        }
        Change::Make { start, rows } => Ok(Some(Edit::Make {
            start: *start,
            rows: *rows,
        })),
        Change::Load => Ok(None),
    }
}

fn is_makeable(edit: &Edit) -> bool
    ensures { result ≡ is_makeable edit.now }
{
    match edit {
        Edit::Make { rows, .. } => *rows <= MOST_GENERATED_ROWS,
        _ => true,
    }
}

/// The edit of a workbook, if the change is one that may be made.
pub(crate) fn edit_of(alloc: Global, change: &Change) -> Result<Option<Edit>, AllocError>
    ensures { IfOk result (λ edit. IfSome edit (λ e. is_makeable e ≡ true)) }
{
    match any_edit(alloc, change)? {
        Some(edit) if is_makeable(&edit) => Ok(Some(edit)),
        _ => Ok(None),
    }
}

/// Puts the cells of a plain book into parts, and answers whether all were put.
fn put_cells(alloc: Global, book: &Book, parts: &mut BookParts) -> Result<bool, AllocError> {
    for held in &book.cells {
        let content = content_of(alloc, Some(&held.held))?;
        let Some(cell) = cell_of(&held.place) else {
            return Ok(false);
        };
        if !parts.has_room(cell, &content) {
            return Ok(false);
        }
        parts.set(alloc, cell, &content)?;
    }
    Ok(true)
}

/// Defines the names of a plain book, and answers whether all were defined.
fn put_names(alloc: Global, book: &Book, parts: &mut BookParts) -> Result<bool, AllocError> {
    for entry in &book.names {
        let name = text_of(alloc, entry.name)?;
        if let Some(area) = entry.part.as_ref().and_then(area_of) {
            if parts.define_name(&name, area).is_err() {
                return Ok(false);
            }
        }
    }
    Ok(true)
}

/// A workbook of what a plain book has, if all of it may stand there.
pub(crate) fn loaded(alloc: Global, book: &Book) -> Result<Option<Workbook>, AllocError> {
    let mut parts = BookParts::new(alloc)?;
    if !put_cells(alloc, book, &mut parts)? || !put_names(alloc, book, &mut parts)? {
        return Ok(None);
    }
    Ok(Some(Workbook::load(alloc, parts)?))
}
