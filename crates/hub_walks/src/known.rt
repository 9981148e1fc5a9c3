//! Formulas of books whose readers are known.
ghost use Rattle.std.specs.Prelude.{◌≡◌, ◌≤◌, false};

use crate::book::Book;
use calc_addr::{Area, Cell, NoMemory, Run};
use calc_model::{Dependents, Ear};
use listener_hub::Hub;
use std::alloc::Global;
use std::test::Fail;

/// An area of the first sheet, of which both ends go with the row.
fn ear(col: u16, first: u32, last: u32) -> Ear
    requires from { 1 ≤ col }
    requires to { col ≤ 10 }
    requires first { 1 ≤ first }
    requires order { first ≤ last }
    requires last { last ≤ 100000 }
{
    Ear {
        area: Area {
            sheet: 0,
            first_col: col,
            last_col: col,
            first_row: first,
            last_row: last,
        },
        first_moves: true,
        last_moves: true,
    }
}

fn rows(col: u16, first: u32, last: u32) -> Run
    requires from { 1 ≤ col }
    requires to { col ≤ 10 }
    requires first { 1 ≤ first }
    requires order { first ≤ last }
    requires last { last ≤ 200000 }
{
    Run {
        sheet: 0,
        col,
        first,
        last,
    }
}

/// The rows of the cells that read a cell of column A.
fn told(alloc: Global, hub: &Hub, row: u32) -> Result<Vec<u32>, NoMemory>
    requires ready { hub.now.spent ≡ false }
    requires from { 1 ≤ row }
    requires to { row ≤ 100000 }
{
    let mut cells: Vec<Cell> = Vec::new(alloc);
    let cell = Cell {
        sheet: 0,
        col: 1,
        row,
    };
    hub.dependents(cell, &mut cells)?;
    let mut rows = Vec::new(alloc);
    for cell in &cells {
        rows.push(cell.row)?;
    }
    Ok(rows)
}

/// The first and the last row of what a cell of column B reads.
fn reads(alloc: Global, hub: &Hub, row: u32) -> Result<Vec<(u32, u32)>, NoMemory>
    requires ready { hub.now.spent ≡ false }
    requires from { 1 ≤ row }
    requires to { row ≤ 100000 }
{
    let mut areas: Vec<Area> = Vec::new(alloc);
    let cell = Cell {
        sheet: 0,
        col: 2,
        row,
    };
    hub.reads(cell, &mut areas)?;
    let mut rows = Vec::new(alloc);
    for area in &areas {
        rows.push((area.first_row, area.last_row))?;
    }
    Ok(rows)
}

/// `=[.A1]*2` in ten thousand rows.
#[test]
fn a_filled_column_is_one_registration(rt: HostRuntime) -> Result<(), Fail> {
    let mut book = Book::new(rt.alloc());
    book.attach(rows(2, 1, 10_000), &[ear(1, 1, 1)])?;
    let hub = book.hub()?;
    assert_eq!(rt; hub.registrations(), 1);
    assert_eq!(rt;
        told(rt.alloc(), hub, 9_000)?.as_slice(),
        [9_000].as_slice()
    );
    Ok(())
}

/// `=[.A3]` in B1:B6, and a row inserted at 5.
#[test]
fn a_run_is_cut_where_a_row_comes(rt: HostRuntime) -> Result<(), Fail> {
    let alloc = rt.alloc();
    let mut book = Book::new(alloc);
    book.attach(rows(2, 1, 6), &[ear(1, 3, 3)])?;
    book.insert(0, 5, 1)?;
    let hub = book.hub()?;
    assert_eq!(rt; hub.registrations(), 3);
    assert_eq!(rt; told(alloc, hub, 4)?.as_slice(), [2].as_slice());
    assert!(rt; told(alloc, hub, 5)?.is_empty());
    assert_eq!(rt; told(alloc, hub, 6)?.as_slice(), [3].as_slice());
    assert_eq!(rt; reads(alloc, hub, 7)?.as_slice(), [(9, 9)].as_slice());
    Ok(())
}

/// `=SUM([.A2:.A5])` in B1, of which the rows go, and `=SUM([.A1:.A3])` in B1:B4.
#[test]
fn sums_lose_rows(rt: HostRuntime) -> Result<(), Fail> {
    let alloc = rt.alloc();
    let mut book = Book::new(alloc);
    book.attach(rows(2, 1, 1), &[ear(1, 2, 5)])?;
    book.attach(rows(3, 20, 20), &[])?;
    assert!(rt; book.delete(0, 4, 3)?);
    assert_eq!(rt;
        reads(alloc, book.hub()?, 1)?.as_slice(),
        [(2, 3)].as_slice()
    );
    assert!(rt; book.delete(0, 2, 2)?);
    assert!(rt; reads(alloc, book.hub()?, 1)?.is_empty());

    book.attach(rows(2, 1, 4), &[ear(1, 1, 3)])?;
    assert!(rt; book.delete(0, 3, 1)?);
    let hub = book.hub()?;
    assert_eq!(rt; told(alloc, hub, 2)?.as_slice(), [1, 2].as_slice());
    assert_eq!(rt; told(alloc, hub, 3)?.as_slice(), [2, 3].as_slice());
    assert_eq!(rt; reads(alloc, hub, 3)?.as_slice(), [(3, 5)].as_slice());
    Ok(())
}

/// A1 doubled, a chain and sums over eight rows, in 100,000 rows each.
#[test]
fn inserted_rows_that_go_again_leave_the_registrations(rt: HostRuntime) -> Result<(), Fail> {
    let mut book = Book::new(rt.alloc());
    book.attach(rows(2, 1, 100_000), &[ear(1, 1, 1)])?;
    book.attach(rows(3, 2, 100_001), &[ear(3, 1, 1), ear(2, 2, 2)])?;
    book.attach(rows(4, 8, 100_007), &[ear(1, 1, 8)])?;
    assert_eq!(rt; book.hub()?.registrations(), 4);
    book.insert(0, 500, 1)?;
    book.insert(0, 500, 3)?;
    assert!(rt; book.hub()?.registrations() > 4);
    book.delete(0, 500, 4)?;
    assert_eq!(rt; book.hub()?.registrations(), 4);
    Ok(())
}
