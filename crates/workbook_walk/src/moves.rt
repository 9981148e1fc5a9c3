//! Formulas that move to other cells.
use crate::pieces::{End, Piece, Reference};
use crate::places::{LAST_COL, LAST_ROW, Place};
use calc_addr::Span;

/// An end after it moved as far as a column or row lies from another one, if it stays in the
/// sheet.
fn end_after(end: End, from: u32, to: u32, last: u32) -> Option<End> {
    if end.marked {
        return Some(end);
    }
    let at = i64::from(end.at) + i64::from(to) - i64::from(from);
    if at < 1 || i64::from(last) < at {
        return None;
    }
    Some(End {
        at: at as u32,
        marked: false,
    })
}

/// Both ends after they moved, in order.
fn ends_after(ends: (End, End), from: u32, to: u32, last: u32) -> Option<(End, End)> {
    let first = end_after(ends.0, from, to, last)?;
    let second = end_after(ends.1, from, to, last)?;
    if first.at > second.at {
        return Some((second, first));
    }
    Some((first, second))
}

fn reference_after(reference: &Reference, from: &Place, to: &Place) -> Option<Reference> {
    let mut cols = (reference.first_col, reference.last_col);
    let mut rows = (reference.first_row, reference.last_row);
    if !matches!(reference.span, Span::Rows) {
        cols = ends_after(
            cols,
            u32::from(from.1),
            u32::from(to.1),
            u32::from(LAST_COL),
        )?;
    }
    if !matches!(reference.span, Span::Columns) {
        rows = ends_after(rows, from.2, to.2, LAST_ROW)?;
    }
    Some(Reference {
        first_col: cols.0,
        last_col: cols.1,
        first_row: rows.0,
        last_row: rows.1,
        ..*reference
    })
}

/// A piece of a formula of one cell in another one.
pub(crate) fn piece_moved(piece: &Piece, from: &Place, to: &Place) -> Piece {
    match piece {
        Piece::Reference(reference) => match reference_after(reference, from, to) {
            Some(after) => Piece::Reference(after),
            None => Piece::Gone,
        },
        _ => *piece,
    }
}
