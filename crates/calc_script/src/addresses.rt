ghost use Rattle.calc_addr.specs.Spelling.{are_digits, both, row_of, spelled_area, spelled_cell, spelled_row};
ghost use Rattle.calc_addr.specs.ValidReferences.{is_rectangle};
ghost use Rattle.calc_model.specs.CellEdits.{area_at};
ghost use Rattle.calc_script.specs.Commands.{address_of, area_of, col_of, few_cells, no_more, of_one_sheet, on_one_sheet, rows_of, sizes_of, start_of, tested, two_addresses, within_limits};
ghost use Rattle.std.specs.Char.{is_ascii_digit};
ghost use Rattle.std.specs.List.{list_all};
ghost use Rattle.std.specs.Prelude.{◌≡◌};

use crate::command::Cause;
use crate::words::LineWords;
use calc_addr::{
    Area, Cell, LAST_COL, LAST_ROW, Spelled, read_area, read_cell, read_col, read_row,
};
use calc_model::{EditCause, MOST_GENERATED_ROWS, MOST_START};

/// The area of words that are one area.
#[tactic(auto, unfolding(crate::specs::Commands::area_of))]
pub(crate) fn read_only_area(mut words: LineWords<'_>) -> Result<Area, Cause>
    ensures { result ≡ area_of words.entry }
{
    match (words.next(), words.next()) {
        (Some(word), None) => address(read_area(word)),
        _ => Err(Cause::BadCommand),
    }
}

/// The same of an area that has at most so many cells.
pub(crate) fn read_few_cells(words: LineWords<'_>, most: u64) -> Result<Area, Cause>
    ensures { result ≡ few_cells most (area_of words.entry) }
{
    let area = read_only_area(words)?;
    if area.cell_count() > most {
        return Err(Cause::TooLarge);
    }
    Ok(area)
}

/// The column of words that are one column, with its sheet.
#[tactic(auto, unfolding(crate::specs::Commands::col_of))]
pub(crate) fn read_only_col(mut words: LineWords<'_>) -> Result<(u8, u16), Cause>
    ensures { result ≡ col_of words.entry }
{
    match (words.next(), words.next()) {
        (Some(word), None) => address(read_col(word)),
        _ => Err(Cause::BadCommand),
    }
}

/// An area, and a cell of its sheet where another of its size can begin.
pub(crate) fn read_copied(words: LineWords<'_>) -> Result<(Area, Cell), Cause>
    ensures { result ≡ tested on_one_sheet (two_addresses spelled_area spelled_cell words.entry) }
{
    let (area, to) = read_area_and_cell(words)?;
    if to.sheet == area.sheet && fits(area, to) {
        Ok((area, to))
    } else {
        Err(Cause::Edit(EditCause::OffSheet))
    }
}

/// Whether an area of that size that begins at the cell lies in its sheet.
fn fits(area: Area, to: Cell) -> bool
    ensures { result ≡ is_rectangle (area_at area to) }
{
    to.col + (area.last_col - area.first_col) <= LAST_COL
        && to.row + (area.last_row - area.first_row) <= LAST_ROW
}

/// A cell, and an area of its sheet.
pub(crate) fn read_filled(words: LineWords<'_>) -> Result<(Cell, Area), Cause>
    ensures { result ≡ tested of_one_sheet (two_addresses spelled_cell spelled_area words.entry) }
{
    let (from, area) = read_cell_and_area(words)?;
    if from.sheet == area.sheet {
        Ok((from, area))
    } else {
        Err(Cause::Edit(EditCause::OffSheet))
    }
}

/// A sheet, a row of it, and how many rows from there on.
#[tactic(auto, unfolding(crate::specs::Commands::rows_of))]
pub(crate) fn read_rows(words: LineWords<'_>) -> Result<((u8, u32), u32), Cause>
    ensures { result ≡ rows_of words.entry }
{
    let ((sheet, row), count) = read_row_and_count(words)?;
    if u64::from(row) + u64::from(count) <= u64::from(LAST_ROW) + 1 {
        Ok(((sheet, row), count))
    } else {
        Err(Cause::Edit(EditCause::OffSheet))
    }
}

/// What words that are an area and a cell spell.
#[tactic(auto, unfolding(crate::specs::Commands::two_addresses))]
fn read_area_and_cell(mut words: LineWords<'_>) -> Result<(Area, Cell), Cause>
    ensures { result ≡ two_addresses spelled_area spelled_cell words.entry }
{
    match (words.next(), words.next(), words.next()) {
        (Some(area), Some(cell), None) => both(read_area(area), read_cell(cell)),
        _ => Err(Cause::BadCommand),
    }
}

/// What words that are a cell and an area spell.
#[tactic(auto, unfolding(crate::specs::Commands::two_addresses))]
fn read_cell_and_area(mut words: LineWords<'_>) -> Result<(Cell, Area), Cause>
    ensures { result ≡ two_addresses spelled_cell spelled_area words.entry }
{
    match (words.next(), words.next(), words.next()) {
        (Some(cell), Some(area), None) => both(read_cell(cell), read_area(area)),
        _ => Err(Cause::BadCommand),
    }
}

/// The sheet and the row, and the count, of words that are a row and a number of rows.
#[tactic(auto, unfolding(crate::specs::Commands::two_addresses))]
fn read_row_and_count(mut words: LineWords<'_>) -> Result<((u8, u32), u32), Cause>
    ensures { result ≡ two_addresses spelled_row row_of words.entry }
{
    match (words.next(), words.next(), words.next()) {
        (Some(row), Some(count), None) => both(read_row(row), read_count(count)),
        _ => Err(Cause::BadCommand),
    }
}

/// A number of rows, which is spelled as that of a row without its sheet.
fn read_count(word: &[u8]) -> Spelled<u32>
    ensures { result ≡ row_of word.now }
{
    if !are_digits(word) {
        return Spelled::Not;
    }
    match read_row(word) {
        Spelled::Is((_, count)) => Spelled::Is(count),
        Spelled::Outside => Spelled::Outside,
        Spelled::Not => Spelled::Not,
    }
}

/// The start and the number of rows of a book that is made.
#[tactic(auto, unfolding(crate::specs::Commands::sizes_of))]
pub(crate) fn read_sizes(mut words: LineWords<'_>) -> Result<(u32, u32), Cause>
    ensures { result ≡ sizes_of words.entry }
{
    match (words.next(), words.next(), words.next()) {
        (Some(start), Some(rows), None) => {
            within_limits(read_start(start), read_count_to(rows, MOST_GENERATED_ROWS))
        }
        _ => Err(Cause::BadCommand),
    }
}

/// The number from which a book is made.
fn read_start(word: &[u8]) -> Spelled<u32>
    ensures { result ≡ start_of word.now }
{
    if word == b"0".as_slice() {
        return Spelled::Is(0);
    }
    read_count_to(word, MOST_START)
}

/// A number of rows that is no more than the most.
fn read_count_to(word: &[u8], most: u32) -> Spelled<u32>
    ensures { result ≡ no_more most (row_of word.now) }
{
    match read_count(word) {
        Spelled::Is(count) if count > most => Spelled::Outside,
        count => count,
    }
}

/// Two numbers: first both must have their form, and then both must be within their limits.
fn within_limits(first: Spelled<u32>, second: Spelled<u32>) -> Result<(u32, u32), Cause>
    ensures { result ≡ within_limits (both (λ a b. (a, b)) first second) }
{
    match (first, second) {
        (Spelled::Not, _) | (_, Spelled::Not) => Err(Cause::BadCommand),
        (Spelled::Outside, _) | (_, Spelled::Outside) => Err(Cause::TooLarge),
        (Spelled::Is(first), Spelled::Is(second)) => Ok((first, second)),
    }
}

/// Whether the word is digits without a leading zero.
fn are_digits(word: &[u8]) -> bool
    ensures { result ≡ are_digits word.now }
{
    match word.split_first() {
        Some((first, rest)) => *first != b'0' && first.is_ascii_digit() && are_all_digits(rest),
        None => false,
    }
}

fn are_all_digits(bytes: &[u8]) -> bool
    ensures { result ≡ list_all is_ascii_digit bytes.now }
{
    bytes.iter().all(|byte| byte.is_ascii_digit())
}

/// What two words spell: first both must have their form, and then both must lie in the sheets.
fn both<A: Drop, B: Drop>(first: Spelled<A>, second: Spelled<B>) -> Result<(A, B), Cause>
    ensures { result ≡ address_of (both (λ a b. (a, b)) first second) }
{
    match (first, second) {
        (Spelled::Not, _) | (_, Spelled::Not) => Err(Cause::BadCommand),
        (Spelled::Outside, _) | (_, Spelled::Outside) => Err(Cause::Edit(EditCause::OffSheet)),
        (Spelled::Is(first), Spelled::Is(second)) => Ok((first, second)),
    }
}

/// An address, which must have its form, and then lie in the sheets.
fn address<A: Drop>(word: Spelled<A>) -> Result<A, Cause>
    ensures { result ≡ address_of word }
{
    match word {
        Spelled::Is(address) => Ok(address),
        Spelled::Outside => Err(Cause::Edit(EditCause::OffSheet)),
        Spelled::Not => Err(Cause::BadCommand),
    }
}
