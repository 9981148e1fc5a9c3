//! The records of a book, each one tested as it is read.
ghost use Rattle.calc_book.specs.BookCells.{bad_cell, first_fault, record_fault, records_in};
ghost use Rattle.calc_book.specs.Growing.{Grows};
ghost use Rattle.calc_book.specs.Loads.{FindsFault};
ghost use Rattle.calc_addr.specs.declared.cell.TheConstants.{LAST_COL, LAST_ROW};
ghost use Rattle.csv.specs.Records.{fields_of};
ghost use Rattle.std.specs.Prelude.{OnOk, [], length, ℕ, ◌+◌, ◌≡◌, ◌≤◌};

use crate::cause::{BookCause, BookFault};
use crate::growing::GrowingBook;
use calc_addr::{Cell, LAST_COL, LAST_ROW};
use calc_model::is_utf8;
use csv::{ByteRecord, ReaderBuilder};
use std::alloc::{AllocError, Global};
use std::thread::Threads;

/// Takes the records of the bytes into a book, up to the first that has a fault.
pub(crate) fn take_records<T: Threads + Sync>(
    rt: &T,
    alloc: Global,
    bytes: &[u8],
    book: &mut GrowingBook,
) -> Result<(), BookFault>
    requires { Grows book.old 1 (records_in bytes.now) (records_in bytes.now) }
    ensures grows { OnOk result ((row : ℕ) × Grows book.new row [] (records_in bytes.now)) }
    ensures fault { FindsFault result (first_fault 1 (records_in bytes.now)) }
{
    let reader = ReaderBuilder::new()
        .has_headers(false)
        .flexible(true)
        .from_reader(alloc, bytes);
    let mut row = 1;
    for record in reader.into_byte_records() {
        let Ok(record) = record else {
            return Err(BookFault::NoMemory(AllocError));
        };
        if let Some(cause) = record_fault(row, &record) {
            return Err(BookFault::Refused(cause));
        }
        let Ok(()) = book.take(rt, alloc, record) else {
            return Err(BookFault::NoMemory(AllocError));
        };
        row += 1;
    }
    Ok(())
}

/// Why the record can't be that row.
fn record_fault(row: u32, fields: &ByteRecord) -> Option<BookCause>
    requires { 1 ≤ row }
    ensures { result ≡ record_fault row (fields_of fields.now) }
{
    if row > LAST_ROW {
        return Some(BookCause::TooManyRows);
    }
    if fields.len() > usize::from(LAST_COL) {
        return Some(BookCause::TooManyFields { row });
    }
    match bad_cell(row, fields) {
        Some(cell) => Some(BookCause::NotUtf8(cell)),
        None => None,
    }
}

/// The cell of the row's first field that isn't UTF-8.
fn bad_cell(row: u32, fields: &ByteRecord) -> Option<Cell>
    requires first { 1 ≤ row }
    requires last { row ≤ LAST_ROW }
    requires few { length (fields_of fields.now) ≤ LAST_COL }
    ensures { result ≡ bad_cell row 1 (fields_of fields.now) }
{
    let mut col = 1;
    for field in fields {
        if !is_utf8(field) {
            return Some(Cell { sheet: 0, col, row });
        }
        col += 1;
    }
    None
}
