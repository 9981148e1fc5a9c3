//! What cells hold, and the edits, that are drawn.
use crate::book::Held;
use crate::drawn::part;
use crate::numbers::Numbers;
use crate::pieces::{End, Piece, Reference};
use crate::places::{LAST_COL, LAST_ROW};
use block_column::Kind;
use calc_addr::Span;
use std::alloc::{AllocError, Global};

/// Names, each in two spellings.
const NAMES: [&str; 6] = ["rate", "Rate", "sum_x", "SUM_X", "k.1", "K.1"];

/// Contents that are no formula.
const CONSTANTS: [(Kind, &str); 8] = [
    (Kind::Number, "1"),
    (Kind::Number, "-2.5"),
    (Kind::Words, "x"),
    (Kind::Words, "a longer text"),
    (Kind::Bad, "#N/A"),
    (Kind::Bad, "#DIV/0!"),
    (Kind::Raw, "=1+"),
    (Kind::Raw, "=SUM(A1:A3)"),
];

fn end(numbers: &mut Numbers, at: u32) -> End {
    End {
        at,
        marked: numbers.is_one_of(3),
    }
}

/// A reference to some cells, mostly near a row, with marks and a sheet or without.
fn reference(numbers: &mut Numbers, near: u32) -> Reference {
    let (other, left, right, top, bottom) = part(numbers);
    let (mut first, mut last) = (top, bottom);
    if numbers.is_one_of(2) {
        first = near.saturating_sub(numbers.below(4)).max(1);
        last = near.saturating_add(numbers.below(6)).min(LAST_ROW);
    }
    if first > last {
        last = first;
    }
    let mut reference = Reference {
        sheet: None,
        span: Span::Cells,
        first_col: end(numbers, u32::from(left)),
        last_col: end(numbers, u32::from(right)),
        first_row: end(numbers, first),
        last_row: end(numbers, last),
    };
    if numbers.is_one_of(3) {
        reference.sheet = Some(other);
    }
    spanned(numbers, reference)
}

/// The reference as one cell, whole columns, whole rows, or as it is.
fn spanned(numbers: &mut Numbers, reference: Reference) -> Reference {
    let plain = |at: u32| End { at, marked: false };
    match numbers.below(8) {
        0 | 1 | 2 => Reference {
            span: Span::One,
            last_col: reference.first_col,
            last_row: reference.first_row,
            ..reference
        },
        3 => Reference {
            span: Span::Columns,
            first_row: plain(1),
            last_row: plain(LAST_ROW),
            ..reference
        },
        4 => Reference {
            span: Span::Rows,
            first_col: plain(1),
            last_col: plain(u32::from(LAST_COL)),
            ..reference
        },
        _ => reference,
    }
}

pub(crate) fn name(numbers: &mut Numbers) -> &'static str {
    NAMES[numbers.below(6) as usize]
}

/// Puts a reference or a name at the end.
fn push_operand(
    numbers: &mut Numbers,
    pieces: &mut Vec<Piece>,
    near: u32,
) -> Result<(), AllocError> {
    if numbers.is_one_of(4) {
        pieces.push(Piece::Name(name(numbers)))?;
    } else {
        pieces.push(Piece::Reference(reference(numbers, near)))?;
    }
    Ok(())
}

/// A call, a sum of two operands, or a formula that reads nothing.
fn formula(alloc: Global, numbers: &mut Numbers, near: u32) -> Result<Vec<Piece>, AllocError> {
    let mut pieces = Vec::new(alloc);
    match numbers.below(8) {
        0 => pieces.push(Piece::Text("=1+2"))?,
        1 | 2 => {
            pieces.push(Piece::Text("="))?;
            push_operand(numbers, &mut pieces, near)?;
            pieces.push(Piece::Text("*2"))?;
        }
        3 => {
            pieces.push(Piece::Text("="))?;
            push_operand(numbers, &mut pieces, near)?;
            pieces.push(Piece::Text("-("))?;
            push_operand(numbers, &mut pieces, near)?;
            pieces.push(Piece::Text(")"))?;
        }
        4 => {
            pieces.push(Piece::Text("=IF("))?;
            push_operand(numbers, &mut pieces, near)?;
            pieces.push(Piece::Text(">0;\"a\";"))?;
            push_operand(numbers, &mut pieces, near)?;
            pieces.push(Piece::Text(")"))?;
        }
        _ => {
            pieces.push(Piece::Text("=SUM("))?;
            for _ in 0..numbers.below(3) {
                push_operand(numbers, &mut pieces, near)?;
                pieces.push(Piece::Text(";"))?;
            }
            push_operand(numbers, &mut pieces, near)?;
            pieces.push(Piece::Text(")"))?;
        }
    }
    Ok(pieces)
}

/// What a cell of a row is to hold: mostly a formula, else a constant, raw text or nothing.
pub(crate) fn held(
    alloc: Global,
    numbers: &mut Numbers,
    row: u32,
) -> Result<Option<Held>, AllocError> {
    match numbers.below(12) {
        0 => Ok(None),
        1 | 2 | 3 => {
            let (kind, text) = CONSTANTS[numbers.below(8) as usize];
            let pieces = vec![in alloc; Piece::Text(text)]?;
            Ok(Some(Held { kind, pieces }))
        }
        _ => Ok(Some(Held {
            kind: Kind::Formula,
            pieces: formula(alloc, numbers, row)?,
        })),
    }
}
