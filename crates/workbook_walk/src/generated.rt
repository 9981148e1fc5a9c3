//! The generated book.
use crate::book::{Book, Held, HeldCell};
use crate::pieces::{End, Piece, Reference};
use block_column::Kind;
use calc_addr::Span;
use std::alloc::{AllocError, Global};

fn end(at: u32) -> End {
    End { at, marked: false }
}

/// A reference without marks to rows of a column.
fn rows_of(col: u32, first: u32, last: u32) -> Piece {
    let span = if first == last {
        Span::One
    } else {
        Span::Cells
    };
    Piece::Reference(Reference {
        sheet: None,
        span,
        first_col: end(col),
        last_col: end(col),
        first_row: end(first),
        last_row: end(last),
    })
}

fn push(book: &mut Book, col: u16, row: u32, pieces: Vec<Piece>) -> Result<(), AllocError> {
    let kind = if col == 1 {
        Kind::Number
    } else {
        Kind::Formula
    };
    book.cells.push(HeldCell {
        place: (0, col, row),
        held: Held { kind, pieces },
    })?;
    Ok(())
}

/// The generated book of a start and a number of rows.
pub(crate) fn generated(alloc: Global, start: u32, rows: u32) -> Result<Book, AllocError> {
    let mut book = Book::new(alloc);
    for row in 1..=rows {
        let number = (u64::from(start) + 37 * u64::from(row)) % 1_000;
        let one = vec![in alloc; Piece::Number(number as u32)]?;
        push(&mut book, 1, row, one)?;
        let doubled = vec![in alloc; Piece::Text("="), rows_of(1, row, row), Piece::Text("*2")]?;
        push(&mut book, 2, row, doubled)?;
        let mut summed = vec![in alloc; Piece::Text("=")]?;
        if row > 1 {
            summed.push(rows_of(3, row - 1, row - 1))?;
            summed.push(Piece::Text("+"))?;
        }
        summed.push(rows_of(2, row, row))?;
        push(&mut book, 3, row, summed)?;
        if row >= 8 {
            let window = rows_of(1, row - 7, row);
            let all = vec![in alloc; Piece::Text("=SUM("), window, Piece::Text(")")]?;
            push(&mut book, 4, row, all)?;
        }
    }
    Ok(book)
}
