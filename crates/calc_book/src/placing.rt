//! Contents that are put into the cells of a book, row by row.
ghost use Rattle.calc_addr.specs.declared.cell.TheConstants.{LAST_COL, LAST_ROW};
ghost use Rattle.calc_book.specs.Placed.{held_in, with_contents, with_rows};
ghost use Rattle.calc_model.specs.Books.{with_content};
ghost use Rattle.calc_model.specs.declared.limits.TheConstants.{MOST_CELLS};
ghost use Rattle.std.specs.List.{All};
ghost use Rattle.std.specs.Prelude.{IfOk, OnOk, length, map, sum_by, ◌+◌, ◌≡◌, ◌≤◌};

use book_parts::BookParts;
use calc_addr::{Cell, NoMemory};
use calc_model::Content;
use std::alloc::Global;

/// Puts contents into the cells of neighbouring rows, from that one on. Gives the row behind them.
pub(crate) fn place_rows(
    alloc: Global,
    book: &mut BookParts,
    first: u32,
    rows: Vec<Vec<Content>>,
) -> Result<u32, NoMemory>
    requires from { 1 ≤ first }
    requires to { first + length (map (λ row. row.items) rows.items) ≤ LAST_ROW + 1 }
    requires cols { All (λ row. length row ≤ LAST_COL) (map (λ row. row.items) rows.items) }
    requires room { length book.old.cells + sum_by held_in (map (λ row. row.items) rows.items)
        ≤ MOST_CELLS }
    ensures cells { OnOk result (book.new.cells
        ≡ with_rows first book.old.cells (map (λ row. row.items) rows.items)) }
    ensures names { OnOk result (book.new.names ≡ book.old.names) }
    ensures behind { IfOk result (λ row. row
        ≡ first + length (map (λ row. row.items) rows.items)) }
    ensures room { OnOk result (length book.new.cells
        ≤ length book.old.cells + sum_by held_in (map (λ row. row.items) rows.items)) }
{
    let mut row = first;
    for contents in rows {
        place_row(alloc, book, row, contents)?;
        row += 1;
    }
    Ok(row)
}

/// Puts contents into the cells of a row.
fn place_row(
    alloc: Global,
    book: &mut BookParts,
    row: u32,
    contents: Vec<Content>,
) -> Result<(), NoMemory>
    requires first { 1 ≤ row }
    requires last { row ≤ LAST_ROW }
    requires few { length contents.items ≤ LAST_COL }
    requires room { length book.old.cells + held_in contents.items ≤ MOST_CELLS }
    ensures cells { OnOk result (book.new.cells
        ≡ with_contents row 1 book.old.cells contents.items) }
    ensures names { OnOk result (book.new.names ≡ book.old.names) }
    ensures room { OnOk result (length book.new.cells
        ≤ length book.old.cells + held_in contents.items) }
{
    let mut col = 1;
    for content in contents {
        set(alloc, book, Cell { sheet: 0, col, row }, content)?;
        col += 1;
    }
    Ok(())
}

/// Puts a content into a cell.
fn set(alloc: Global, book: &mut BookParts, cell: Cell, content: Content) -> Result<(), NoMemory>
    requires room { length (with_content book.old.cells cell content) ≤ MOST_CELLS }
    ensures cells { OnOk result (book.new.cells ≡ with_content book.old.cells cell content) }
    ensures names { OnOk result (book.new.names ≡ book.old.names) }
{
    book.set(alloc, cell, &content)
}
