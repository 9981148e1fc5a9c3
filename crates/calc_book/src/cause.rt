ghost use Rattle.calc_book.specs.Causes.{cause_text};
ghost use Rattle.std.specs.Prelude.{OnOk, ◌++◌, ◌≡◌};

use calc_addr::{Cell, NoMemory, write_cell};
use thiserror::Error;

/// Why a book is refused. The records are taken in order, and the first at fault gives the cause.
#[derive(Clone, Copy, Debug, PartialEq, Eq)]
pub enum BookCause {
    /// The book has more bytes than one may have.
    TooLarge,
    /// A record is past the last row.
    TooManyRows,
    /// The record of that row has more fields than there are columns.
    TooManyFields { row: u32 },
    /// The first field at fault of its record isn't UTF-8.
    NotUtf8(Cell),
    /// More fields have a byte than a book may have cells.
    CellsFull,
}

/// Why a book isn't loaded.
#[derive(Clone, Copy, Debug, PartialEq, Eq, Error)]
pub enum BookFault {
    #[error("the book is refused")]
    Refused(BookCause),
    #[error("memory was refused")]
    NoMemory(NoMemory),
}

/// Appends the words that are printed for the cause.
pub fn push_cause(cause: BookCause, out: &mut Vec<u8>) -> Result<(), NoMemory>
    ensures { OnOk result (out.new.items ≡ out.old.items ++ cause_text cause) }
{
    match cause {
        BookCause::TooLarge => out.extend_from_slice(b"too-large"),
        BookCause::TooManyRows => out.extend_from_slice(b"too-many-rows"),
        BookCause::TooManyFields { row: _ } => out.extend_from_slice(b"too-many-fields"),
        BookCause::NotUtf8(cell) => push_address(cell, out),
        BookCause::CellsFull => out.extend_from_slice(b"cells-full"),
    }
}

fn push_address(cell: Cell, out: &mut Vec<u8>) -> Result<(), NoMemory>
    ensures { OnOk result (out.new.items ≡ out.old.items ++ cause_text (BookCause.NotUtf8 cell)) }
{
    out.extend_from_slice(b"not-utf8 ")?;
    out.extend_from_slice(write_cell(cell).bytes())
}
