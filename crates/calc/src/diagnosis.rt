//! What a user is told on standard error of a run that the output doesn't explain.

use calc_book::{BookCause, BookFault, MOST_BYTES, load};
use calc_cli::{BOOK_REFUSED, DESK_FAILED, message};
use calc_model::Text;
use calc_words::read_words;
use std::fs;
use std::io::{self, Eprint, ErrorKind, Read};
use std::rt::Files;
use std::thread::Threads;

/// Says what went wrong in a run of these words that ended with this status, in one line.
pub(crate) fn explain<R: Files + Eprint + AllocGlobal + Threads + Sync>(
    rt: &R,
    words: &[Text],
    status: u8,
) {
    let book = match read_words(rt.alloc(), words) {
        Ok(Some(said)) => said.book,
        _ => Text::of(String::new(rt.alloc())),
    };
    let _ = match status {
        DESK_FAILED => explain_inputs(rt, book.as_str()),
        BOOK_REFUSED => explain_refusal(rt, book.as_str()),
        _ => explain_status(rt, status),
    };
}

fn explain_status<R: Eprint>(rt: &R, status: u8) -> io::Result<()> {
    let told = message(status);
    if told.is_empty() {
        return Ok(());
    }
    eprintln!(rt; "{told}")
}

/// Says which input can't be read: the book, if that still holds of it, or else the script.
fn explain_inputs<R: Files + Eprint + AllocGlobal>(rt: &R, book: &str) -> io::Result<()> {
    match first_bytes(rt, book, 1) {
        Ok(_) => eprintln!(rt; "calc: the script can't be read"),
        Err(error) => eprintln!(rt; "calc: {book}: {}", reason(error.kind())),
    }
}

fn reason(kind: ErrorKind) -> &'static str {
    match kind {
        ErrorKind::NotFound => "there is no such file",
        ErrorKind::PermissionDenied => "it can't be read: permission denied",
        ErrorKind::IsADirectory => "it is a folder",
        _ => "it can't be read",
    }
}

/// Says why the book is refused, and where, by reading it again.
fn explain_refusal<R: Files + Eprint + AllocGlobal + Threads + Sync>(
    rt: &R,
    book: &str,
) -> io::Result<()> {
    let bytes = first_bytes(rt, book, MOST_BYTES + 1)?;
    match load(rt, rt.alloc(), bytes.as_slice()) {
        Err(BookFault::Refused(cause)) => explain_cause(rt, book, cause),
        _ => eprintln!(rt; "calc: {book}: it is refused"),
    }
}

fn explain_cause<R: Eprint>(rt: &R, book: &str, cause: BookCause) -> io::Result<()> {
    match cause {
        BookCause::TooLarge => eprintln!(rt; "calc: {book}: it has more than 67,108,864 bytes"),
        BookCause::TooManyRows => eprintln!(rt; "calc: {book}: it has more than 1,048,576 records"),
        BookCause::TooManyFields { row } => {
            eprintln!(rt; "calc: {book}: the record of row {row} has more than 1,024 fields")
        }
        BookCause::NotUtf8(cell) => {
            let (row, field) = (cell.row, cell.col);
            eprintln!(rt; "calc: {book}: field {field} of row {row} isn't UTF-8")
        }
        BookCause::CellsFull => {
            eprintln!(rt; "calc: {book}: more than 4,194,304 fields aren't empty")
        }
    }
}

/// The first bytes of a file, at most so many.
fn first_bytes<R: Files + AllocGlobal>(rt: &R, name: &str, most: usize) -> io::Result<Vec<u8>> {
    let mut bytes = Vec::new(rt.alloc());
    fs::open(rt, name)?
        .take(most as u64)
        .read_to_end(&mut bytes)?;
    Ok(bytes)
}
