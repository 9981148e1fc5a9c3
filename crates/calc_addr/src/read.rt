ghost use Rattle.calc_addr.specs.Spelling.{after_sheet, both, sheet_part, spanned, spelled_address, spelled_area, spelled_cell, spelled_col, spelled_corners, spelled_row};
ghost use Rattle.std.specs.Prelude.{◌≡◌};

use crate::cell::{Area, Cell};
use crate::pieces::{cell_parts, read_column, read_row_number, read_sheet, undollared};
use byte_cuts::split_once;

/// What a word of a script spells.
#[derive(Clone, Copy, Debug, PartialEq, Eq)]
pub enum Spelled<T> {
    Is(T),
    /// Of the form, but outside the sheets.
    Outside,
    /// Not of the form.
    Not,
}

/// A cell's address, as `B2`, `$b$2` or `Sheet3.B2`. Linear in the text.
pub fn read_cell(text: &[u8]) -> Spelled<Cell>
    ensures { result ≡ spelled_cell text.now }
{
    let (sheet, rest) = read_front(text);
    match both(sheet, read_address(rest)) {
        Spelled::Is((sheet, cell)) => Spelled::Is(Cell { sheet, ..cell }),
        Spelled::Outside => Spelled::Outside,
        Spelled::Not => Spelled::Not,
    }
}

/// An area, as `B2` or `Sheet3.B2:A1`, with its corners in any order. Linear in the text.
pub fn read_area(text: &[u8]) -> Spelled<Area>
    ensures { result ≡ spelled_area text.now }
{
    let (sheet, rest) = read_front(text);
    match both(sheet, read_corners(rest)) {
        Spelled::Is((sheet, area)) => Spelled::Is(Area { sheet, ..area }),
        Spelled::Outside => Spelled::Outside,
        Spelled::Not => Spelled::Not,
    }
}

/// A column by its letters, as `B`, `$b` or `Sheet3.B`, and its sheet before it. Linear in the text.
pub fn read_col(text: &[u8]) -> Spelled<(u8, u16)>
    ensures { result ≡ spelled_col text.now }
{
    let (sheet, rest) = read_front(text);
    both(sheet, read_column(undollared(rest)))
}

/// A row by its number, as `2`, `$2` or `Sheet3.2`, and its sheet before it. Linear in the text.
pub fn read_row(text: &[u8]) -> Spelled<(u8, u32)>
    ensures { result ≡ spelled_row text.now }
{
    let (sheet, rest) = read_front(text);
    both(sheet, read_row_number(undollared(rest)))
}

/// An area on the first sheet.
fn read_corners(text: &[u8]) -> Spelled<Area>
    ensures { result ≡ spelled_corners text.now }
{
    let (first, last) = split_once(text, b':').unwrap_or((text, text));
    match both(read_address(first), read_address(last)) {
        Spelled::Is((first, last)) => Spelled::Is(spanned(first, last)),
        Spelled::Outside => Spelled::Outside,
        Spelled::Not => Spelled::Not,
    }
}

fn spanned(first: Cell, last: Cell) -> Area
    ensures { result ≡ spanned first last }
{
    Area {
        sheet: first.sheet,
        first_col: first.col.min(last.col),
        last_col: first.col.max(last.col),
        first_row: first.row.min(last.row),
        last_row: first.row.max(last.row),
    }
}

fn both<A: Drop, B: Drop>(first: Spelled<A>, second: Spelled<B>) -> Spelled<(A, B)>
    ensures { result ≡ both (λ a b. (a, b)) first second }
{
    match (first, second) {
        (Spelled::Not, _) | (_, Spelled::Not) => Spelled::Not,
        (Spelled::Outside, _) | (_, Spelled::Outside) => Spelled::Outside,
        (Spelled::Is(a), Spelled::Is(b)) => Spelled::Is((a, b)),
    }
}

/// A cell's address without a sheet, as `B2` or `$b$2`, on the first sheet. Linear in the text.
pub fn read_address(text: &[u8]) -> Spelled<Cell>
    ensures { result ≡ spelled_address text.now }
{
    let (col, row) = cell_parts(text);
    match both(
        read_column(undollared(col)),
        read_row_number(undollared(row)),
    ) {
        Spelled::Is((col, row)) => Spelled::Is(Cell { sheet: 0, col, row }),
        Spelled::Outside => Spelled::Outside,
        Spelled::Not => Spelled::Not,
    }
}

/// The sheet of the word before the first point, if there is one, and the text without both.
fn read_front(text: &[u8]) -> (Spelled<u8>, &[u8])
    ensures sheet { result.0 ≡ sheet_part text.now }
    ensures rest { result.1.now ≡ after_sheet text.now }
{
    match split_once(text, b'.') {
        Some((word, rest)) => (read_sheet(undollared(word)), rest),
        None => (Spelled::Is(0), text),
    }
}
