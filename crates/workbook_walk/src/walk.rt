//! A walk of random edits of a workbook and of a plain book.
use crate::asked::{Difference, cell_difference, column_difference, readers_difference};
use crate::book::Book;
use crate::change::Change;
use crate::changes::change;
use crate::drawn::{column, part, place, sheet};
use crate::edits::{edit_of, loaded};
use crate::numbers::Numbers;
use crate::places::LAST_COL;
use calc_model::EditCause;
use std::alloc::{AllocError, Global};
use workbook::{EditFault, Workbook};

/// After how many edits each all columns are compared.
const ROUND: u32 = 100;

/// How many cells, columns and areas are compared after each edit.
const QUESTIONS: u32 = 4;

/// How many edits were made or refused, how many of them were refused, and what differs after the
/// last.
#[derive(Debug, Drop)]
pub(crate) struct Outcome {
    pub(crate) edits: u32,
    pub(crate) refused: u32,
    pub(crate) failure: Option<(Change, Difference)>,
}

/// Makes an edit of both, and gives why the plain book refuses it and what differs.
fn step(
    alloc: Global,
    workbook: &mut Workbook,
    book: &mut Book,
    change: &Change,
) -> Result<(Option<EditCause>, Option<Difference>), AllocError> {
    let refused = book.apply(alloc, change)?;
    if matches!(change, Change::Load) {
        let Some(loaded) = loaded(alloc, book)? else {
            return Ok((refused, Some(Difference::Change)));
        };
        *workbook = loaded;
        return Ok((refused, None));
    }
    let Some(edit) = edit_of(alloc, change)? else {
        return Ok((refused, Some(Difference::Change)));
    };
    let told = match workbook.edit(alloc, &edit) {
        Ok(()) => None,
        Err(EditFault::Refused(cause)) => Some(cause),
        Err(_) => return Err(AllocError),
    };
    if told != refused {
        return Ok((refused, Some(Difference::Refusal)));
    }
    Ok((refused, None))
}

/// What differs in some cells, columns and areas that are drawn.
fn some_difference(
    alloc: Global,
    numbers: &mut Numbers,
    workbook: &Workbook,
    book: &Book,
) -> Result<Option<Difference>, AllocError> {
    if workbook.cell_count() != book.cells.len() {
        return Ok(Some(Difference::Count));
    }
    for _ in 0..QUESTIONS {
        let place = place(numbers);
        if let Some(found) = cell_difference(alloc, workbook, book, &place)? {
            return Ok(Some(found));
        }
        let cell = (place.0, place.1, place.1, place.2, place.2);
        if let Some(found) = readers_difference(alloc, workbook, book, &cell)? {
            return Ok(Some(found));
        }
        let part = part(numbers);
        if let Some(found) = readers_difference(alloc, workbook, book, &part)? {
            return Ok(Some(found));
        }
        let asked = sheet(numbers);
        let col = column(numbers);
        if let Some(found) = column_difference(alloc, workbook, book, asked, col)? {
            return Ok(Some(found));
        }
    }
    Ok(None)
}

/// What differs in the columns of the sheets.
fn any_difference(
    alloc: Global,
    workbook: &Workbook,
    book: &Book,
) -> Result<Option<Difference>, AllocError> {
    for sheet in 0..=3 {
        for col in 1..=LAST_COL {
            if let Some(found) = column_difference(alloc, workbook, book, sheet, col)? {
                return Ok(Some(found));
            }
        }
    }
    Ok(None)
}

/// Makes so many edits, as long as nothing differs.
pub(crate) fn walk(alloc: Global, edits: u32) -> Result<Outcome, AllocError> {
    let mut numbers = Numbers { state: 16 };
    let mut workbook = Workbook::new(alloc)?;
    let mut book = Book::new(alloc);
    let mut refused: u32 = 0;
    for edit in 1..=edits {
        let change = change(alloc, &mut numbers, &book)?;
        let (cause, mut difference) = step(alloc, &mut workbook, &mut book, &change)?;
        if cause.is_some() {
            refused = refused.saturating_add(1);
        }
        if difference.is_none() {
            difference = some_difference(alloc, &mut numbers, &workbook, &book)?;
        }
        if difference.is_none() && edit % ROUND == 0 {
            difference = any_difference(alloc, &workbook, &book)?;
        }
        if let Some(found) = difference {
            return Ok(Outcome {
                edits: edit,
                refused,
                failure: Some((change, found)),
            });
        }
    }
    Ok(Outcome {
        edits,
        refused,
        failure: None,
    })
}
