//! A book that takes its records one after the other.
ghost use Rattle.calc_addr.specs.declared.cell.TheConstants.{LAST_COL, LAST_ROW};
ghost use Rattle.calc_book.specs.BookCells.{Records, full_fault, has_bytes, with_records};
ghost use Rattle.calc_book.specs.Growing.{Grown, Grows};
ghost use Rattle.calc_book.specs.Loads.{FindsFault};
ghost use Rattle.calc_model.specs.declared.limits.TheConstants.{MOST_CELLS};
ghost use Rattle.csv.specs.Records.{AllText, fields_of};
ghost use Rattle.formula_reader.specs.Fields.{field_of};
ghost use Rattle.std.specs.Prelude.{IfOk, OnOk, Some, [], ◌∷◌, count_by, length, ℕ, ◌+◌, ◌≡◌, ◌≤◌};

use crate::cause::{BookCause, BookFault};
use crate::contents::read_contents;
use crate::filled::filled_in;
use crate::limits::CHUNK_FIELDS;
use crate::placing::place_rows;
use book_parts::BookParts;
use calc_addr::NoMemory;
use calc_model::MOST_CELLS;
use csv::ByteRecord;
use std::alloc::{AllocError, Global};
use std::thread::Threads;

/// A book, and the records that it took and doesn't hold yet, which never have many fields.
#[derive(Drop)]
pub(crate) struct GrowingBook {
    book: BookParts,
    rows: Vec<ByteRecord>,
    // how many fields the records have
    field_count: usize,
    // the row of the first record
    row: u32,
    // how many more fields may have a byte, or nothing where too many had one
    room: Option<usize>,
}

impl GrowingBook {
    /// A book that took no record.
    pub(crate) fn new(alloc: Global) -> Result<GrowingBook, NoMemory>
        ensures { (all : Records) → IfOk result (λ book. Grows book 1 all all) }
    {
        Ok(GrowingBook {
            book: BookParts::new(alloc)?,
            rows: Vec::new(alloc),
            field_count: 0,
            row: 1,
            room: Some(MOST_CELLS),
        })
    }

    /// Takes the next record. Once the records have the fields of a chunk, they are put into the book.
    pub(crate) fn take<T: Threads + Sync>(
        &mut self,
        rt: &T,
        alloc: Global,
        fields: ByteRecord,
    ) -> Result<(), NoMemory>
        requires few { length (fields_of fields) ≤ LAST_COL }
        requires text { AllText (fields_of fields) }
        requires grows { (row : ℕ) × (rest : Records) × (all : Records) × (row ≤ LAST_ROW)
            × Grows self.old row (fields_of fields ∷ rest) all }
        ensures { (row : ℕ) (rest all : Records) → row ≤ LAST_ROW
            → Grows self.old row (fields_of fields ∷ rest) all
            → OnOk result (Grows self.new (row + 1) rest all) }
    {
        let Some(room) = self.room else {
            return Ok(());
        };
        let more = filled_in(&fields);
        if more > room {
            self.room = None;
            return Ok(());
        }
        self.hold(fields, room - more)?;
        if self.field_count < CHUNK_FIELDS {
            return Ok(());
        }
        self.place(rt, alloc)
    }

    /// Holds one record more, behind which the book has that room.
    fn hold(&mut self, fields: ByteRecord, room: usize) -> Result<(), NoMemory>
        requires few { length (fields_of fields) ≤ LAST_COL }
        requires text { AllText (fields_of fields) }
        ensures grown { (row : ℕ) (rest all : Records) → row ≤ LAST_ROW
            → Grown self.old (room + count_by has_bytes (fields_of fields)) row
            (fields_of fields ∷ rest) all
            → OnOk result (Grown self.new room (row + 1) rest all) }
        ensures room { OnOk result (self.new.room ≡ Some room) }
    {
        self.field_count = self.field_count.saturating_add(fields.len());
        self.rows.push(fields)?;
        self.room = Some(room);
        Ok(())
    }

    /// Puts the records that it holds into the book.
    fn place<T: Threads + Sync>(&mut self, rt: &T, alloc: Global) -> Result<(), NoMemory>
        requires { (room : ℕ) × (row : ℕ) × (rest : Records) × (all : Records)
            × Grown self.old room row rest all }
        ensures grown { (room row : ℕ) (rest all : Records) → Grown self.old room row rest all
            → OnOk result (Grown self.new room row rest all) }
        ensures placed { OnOk result (self.new.rows.items ≡ []) }
        ensures room { self.new.room ≡ self.old.room }
    {
        let contents = read_contents(rt, alloc, &self.rows, self.field_count)?;
        self.rows.clear();
        self.field_count = 0;
        self.row = place_rows(alloc, &mut self.book, self.row, contents)?;
        Ok(())
    }

    /// The book with all records, unless too many of their fields have a byte.
    pub(crate) fn finish<T: Threads + Sync>(
        mut self,
        rt: &T,
        alloc: Global,
    ) -> Result<BookParts, BookFault>
        requires { (row : ℕ) × (all : Records) × Grows self row [] all }
        ensures cells { (row : ℕ) (all : Records) → Grows self row [] all
            → IfOk result (λ book. book.cells ≡ with_records field_of 1 [] all) }
        ensures names { (row : ℕ) (all : Records) → Grows self row [] all
            → IfOk result (λ book. book.names ≡ []) }
        ensures fault { (row : ℕ) (all : Records) → Grows self row [] all
            → FindsFault result (full_fault all) }
    {
        let Some(_room) = self.room else {
            return Err(BookFault::Refused(BookCause::CellsFull));
        };
        let Ok(()) = self.place(rt, alloc) else {
            return Err(BookFault::NoMemory(AllocError));
        };
        let GrowingBook { book, .. } = self;
        Ok(book)
    }
}
