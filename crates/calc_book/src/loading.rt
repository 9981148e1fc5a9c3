//! A book of bytes.
ghost use Rattle.calc_book.specs.BookCells.{book_fault, book_read, records_fault, records_in};
ghost use Rattle.calc_book.specs.Loads.{FindsFault};
ghost use Rattle.calc_model.specs.OverFields.{ReadsOver};
ghost use Rattle.formula_reader.specs.Fields.{field_of};
ghost use Rattle.std.specs.Prelude.{IfOk, ◌≡◌};

use crate::cause::{BookCause, BookFault};
use crate::growing::GrowingBook;
use crate::limits::MOST_BYTES;
use crate::rows::take_records;
use book_parts::BookParts;
use std::alloc::{AllocError, Global};
use std::thread::Threads;

/// The book of these bytes. Its records are the rows of the first sheet, from row 1 on, and the fields
/// of a record its columns, from column 1 on. Fields are read by as many threads as there are
/// processors. Linear in the bytes, beside what the setting of its cells costs.
pub fn load<T: Threads + Sync>(rt: &T, alloc: Global, bytes: &[u8]) -> Result<BookParts, BookFault>
    ensures book { ReadsOver result (λ field. book_read field bytes.now) }
    ensures fault { FindsFault result (book_fault bytes.now) }
{
    if bytes.len() > MOST_BYTES {
        return Err(BookFault::Refused(BookCause::TooLarge));
    }
    read_book(rt, alloc, bytes)
}

/// The same of bytes that are few enough.
fn read_book<T: Threads + Sync>(rt: &T, alloc: Global, bytes: &[u8]) -> Result<BookParts, BookFault>
    ensures book { IfOk result (λ book. book ≡ book_read field_of bytes.now) }
    ensures fault { FindsFault result (records_fault (records_in bytes.now)) }
{
    let Ok(mut book) = GrowingBook::new(alloc) else {
        return Err(BookFault::NoMemory(AllocError));
    };
    take_records(rt, alloc, bytes, &mut book)?;
    book.finish(rt, alloc)
}
