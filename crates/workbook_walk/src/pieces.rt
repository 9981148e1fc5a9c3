//! Fields as rows of pieces, and how these are printed.
use calc_addr::Span;
use std::alloc::{AllocError, Global};

/// A column or a row at which a reference ends, and whether it has a dollar sign.
#[derive(Clone, Copy, Debug)]
pub(crate) struct End {
    pub(crate) at: u32,
    pub(crate) marked: bool,
}

/// A reference, with the number of its sheet where one is written.
#[derive(Clone, Copy, Debug)]
pub(crate) struct Reference {
    pub(crate) sheet: Option<u8>,
    pub(crate) span: Span,
    pub(crate) first_col: End,
    pub(crate) last_col: End,
    pub(crate) first_row: End,
    pub(crate) last_row: End,
}

/// A piece of a field.
#[derive(Clone, Copy, Debug)]
pub(crate) enum Piece {
    Text(&'static str),
    Number(u32),
    /// A name, by its spelling.
    Name(&'static str),
    Reference(Reference),
    /// A reference that was deleted.
    Gone,
}

fn push_number(alloc: Global, text: &mut String, number: i64) -> Result<(), AllocError> {
    let digits = format!(in alloc; "{number}")?;
    text.push_str(digits.as_str())
}

fn push_letter(text: &mut String, number: u32) -> Result<(), AllocError> {
    text.push(char::from(b'A' + (number % 26) as u8))
}

/// Appends the letters of a column, at most three.
fn push_letters(text: &mut String, col: u32) -> Result<(), AllocError> {
    let before = col.saturating_sub(1);
    if before >= 702 {
        push_letter(text, (before - 702) / 676)?;
    }
    if before >= 26 {
        push_letter(text, before / 26 - 1)?;
    }
    push_letter(text, before)
}

fn push_col(text: &mut String, col: End) -> Result<(), AllocError> {
    if col.marked {
        text.push_str("$")?;
    }
    push_letters(text, col.at)
}

/// Appends a row, or its distance from another one where it isn't marked.
fn push_row(alloc: Global, text: &mut String, row: End, home: u32) -> Result<(), AllocError> {
    if row.marked {
        text.push_str("$")?;
        return push_number(alloc, text, i64::from(row.at));
    }
    push_number(alloc, text, i64::from(row.at) - i64::from(home))
}

fn push_reference(
    alloc: Global,
    text: &mut String,
    reference: &Reference,
    home: u32,
) -> Result<(), AllocError> {
    text.push_str("[")?;
    if let Some(sheet) = reference.sheet {
        text.push_str("$Sheet")?;
        push_number(alloc, text, i64::from(sheet) + 1)?;
    }
    text.push_str(".")?;
    if !matches!(reference.span, Span::Rows) {
        push_col(text, reference.first_col)?;
    }
    if !matches!(reference.span, Span::Columns) {
        push_row(alloc, text, reference.first_row, home)?;
    }
    if !matches!(reference.span, Span::One) {
        text.push_str(":.")?;
        if !matches!(reference.span, Span::Rows) {
            push_col(text, reference.last_col)?;
        }
        if !matches!(reference.span, Span::Columns) {
            push_row(alloc, text, reference.last_row, home)?;
        }
    }
    text.push_str("]")
}

/// The text of the pieces, with each row that isn't marked as its distance from another one: 0
/// gives the text of the field, and the row of a formula its relative form within a column.
pub(crate) fn printed(alloc: Global, pieces: &[Piece], home: u32) -> Result<String, AllocError> {
    let mut text = String::new(alloc);
    for piece in pieces {
        match piece {
            Piece::Text(word) | Piece::Name(word) => text.push_str(word)?,
            Piece::Number(number) => push_number(alloc, &mut text, i64::from(*number))?,
            Piece::Reference(reference) => push_reference(alloc, &mut text, reference, home)?,
            Piece::Gone => text.push_str("#REF!")?,
        }
    }
    Ok(text)
}
