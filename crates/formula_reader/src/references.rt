//! References in brackets. One without a sheet, to a cell or to the cells between two, is read as its bytes come;
//! any other one once its bracket is found.
ghost use Rattle.calc_addr.specs.Bracketed.{with_dollar};
ghost use Rattle.calc_addr.specs.Letters.{column_number};
ghost use Rattle.calc_addr.specs.Spelling.{are_digits, are_letters};
ghost use Rattle.calc_addr.specs.declared.cell.TheConstants.{LAST_COL, LAST_ROW};
ghost use Rattle.calc_model.specs.declared.tree.Tree.TheVariants as t;
ghost use Rattle.formula_reader.specs.Corners.{AreCorners, IsCorner, IsEnd, IsInFront, IsNumbered, cell_reference, corners_reference, in_order, reference_of};
ghost use Rattle.formula_reader.specs.Leaves.{reference_at, token_taken};
ghost use Rattle.formula_reader.specs.Unread.{Gives};
ghost use Rattle.std.specs.Char.{is_ascii_alphabetic, is_ascii_digit};
ghost use Rattle.std.specs.Prelude.{IfSome, Some, ◌∷◌, ◌≡◌};
ghost use Rattle.std.specs.Str.Parse.{digits_value};

use crate::cursor::{Cursor, Stop};
use byte_cuts::split_once;
use calc_addr::{Area, LAST_COL, LAST_ROW, Marks, Ref, Span, read_ref};
use calc_model::Tree;
use sqlite_items::Boxed;
use std::alloc::Global;

/// Coordinates of this size and more aren't told apart while they are read.
const FAR: u32 = 100_000_000;

/// A reference, behind its bracket.
pub(crate) fn reference<'a>(
    alloc: Global,
    bytes: &'a [u8],
    cursor: &mut Cursor<'a>,
) -> Result<Boxed<Tree>, Stop>
    ensures { Gives result cursor.new (token_taken cursor.old.tokens (reference_at bytes.now)) }
{
    match plain_corners(bytes) {
        Some((corners, rest)) => {
            cursor.past(rest)?;
            Ok(Boxed::new(alloc, Tree::Ref(reference_of(corners)))?)
        }
        None => any_reference(alloc, bytes, cursor),
    }
}

/// The same, by its closing bracket.
#[cold]
#[inline(never)]
fn any_reference<'a>(
    alloc: Global,
    bytes: &'a [u8],
    cursor: &mut Cursor<'a>,
) -> Result<Boxed<Tree>, Stop>
    ensures { Gives result cursor.new (token_taken cursor.old.tokens (reference_at bytes.now)) }
{
    let Some((inside, rest)) = split_once(bytes, b']') else {
        return Err(Stop::Unspelled);
    };
    let Some(reference) = read_ref(inside) else {
        return Err(Stop::Unspelled);
    };
    cursor.past(rest)?;
    Ok(Boxed::new(alloc, Tree::Ref(reference))?)
}

/// The corners of a reference without a sheet to a cell, or to the cells between two, and what stands
/// behind its closing bracket. None for any other text.
fn plain_corners(bytes: &[u8]) -> Option<(Corners, &[u8])>
    ensures read { IfSome result (λ found. reference_at bytes.now
        ≡ Some (t.Ref (reference_of found.0), found.1.now)) }
    ensures inside { IfSome result (λ found. AreCorners found.0) }
{
    let (first, rest) = corner_in_front(behind_byte(bytes, b'.')?)?;
    if let Some(rest) = behind_byte(rest, b']') {
        return Some((Corners::One(first), rest));
    }
    let rest = behind_byte(behind_byte(rest, b':')?, b'.')?;
    let (last, rest) = corner_in_front(rest)?;
    Some((Corners::Two(first, last), behind_byte(rest, b']')?))
}

/// What stands behind a byte that is next.
fn behind_byte(bytes: &[u8], byte: u8) -> Option<&[u8]>
    ensures { IfSome result (λ rest. bytes.now ≡ byte ∷ rest.now) }
{
    match bytes {
        [first, rest @ ..] if *first == byte => Some(rest),
        _ => None,
    }
}

/// One coordinate of a corner, and whether a dollar sign marks it.
#[derive(Clone, Copy)]
pub(crate) struct End {
    pub at: u32,
    pub marked: bool,
}

/// A cell's column and row.
#[derive(Clone, Copy)]
pub(crate) struct Corner {
    pub col: End,
    pub row: End,
}

/// One corner, or two in any order.
#[derive(Clone, Copy)]
pub(crate) enum Corners {
    One(Corner),
    Two(Corner, Corner),
}

fn reference_of(corners: Corners) -> Ref
    requires { AreCorners corners }
    ensures { result ≡ reference_of corners }
{
    match corners {
        Corners::One(corner) => cell_reference(corner),
        Corners::Two(first, last) => corners_reference(first, last),
    }
}

fn cell_reference(corner: Corner) -> Ref
    requires { IsCorner corner }
    ensures { result ≡ cell_reference corner }
{
    Ref {
        area: Area {
            sheet: 0,
            first_col: corner.col.at as u16,
            last_col: corner.col.at as u16,
            first_row: corner.row.at,
            last_row: corner.row.at,
        },
        span: Span::One,
        marks: Marks {
            sheet: false,
            first_col: corner.col.marked,
            first_row: corner.row.marked,
            last_col: corner.col.marked,
            last_row: corner.row.marked,
        },
    }
}

fn corners_reference(first: Corner, last: Corner) -> Ref
    requires first { IsCorner first }
    requires last { IsCorner last }
    ensures { result ≡ corners_reference first last }
{
    let (first_col, last_col) = in_order(first.col, last.col);
    let (first_row, last_row) = in_order(first.row, last.row);
    Ref {
        area: Area {
            sheet: 0,
            first_col: first_col.at as u16,
            last_col: last_col.at as u16,
            first_row: first_row.at,
            last_row: last_row.at,
        },
        span: Span::Cells,
        marks: Marks {
            sheet: false,
            first_col: first_col.marked,
            first_row: first_row.marked,
            last_col: last_col.marked,
            last_row: last_row.marked,
        },
    }
}

fn in_order(first: End, last: End) -> (End, End)
    ensures { result ≡ in_order first last }
{
    if first.at <= last.at {
        (first, last)
    } else {
        (last, first)
    }
}

/// The corner in front, and what stands behind it. None where there is no corner in the sheet.
#[inline(always)]
fn corner_in_front(bytes: &[u8]) -> Option<(Corner, &[u8])>
    ensures spelled { IfSome result (λ found. IsInFront bytes.now found.0 found.1.now) }
    ensures inside { IfSome result (λ found. IsCorner found.0) }
{
    let (col, rest) = column_in_front(bytes)?;
    let (row, rest) = row_in_front(rest)?;
    Some((Corner { col, row }, rest))
}

fn column_in_front(bytes: &[u8]) -> Option<(End, &[u8])>
    ensures { IfSome result (λ found.
        IsEnd are_letters column_number LAST_COL bytes.now found.0 found.1.now) }
{
    let (marked, bytes) = split_dollar(bytes);
    let (count, at) = read_letters(bytes);
    if 0 < at && at <= LAST_COL as u32 {
        Some((End { at, marked }, &bytes[count..]))
    } else {
        None
    }
}

fn row_in_front(bytes: &[u8]) -> Option<(End, &[u8])>
    ensures { IfSome result (λ found.
        IsEnd are_digits (digits_value 10) LAST_ROW bytes.now found.0 found.1.now) }
{
    let (marked, bytes) = split_dollar(bytes);
    let (count, at) = read_digits(bytes);
    if 0 < at && at <= LAST_ROW && bytes[0] != b'0' {
        Some((End { at, marked }, &bytes[count..]))
    } else {
        None
    }
}

/// Whether a dollar sign is in front, and what stands behind it.
fn split_dollar(bytes: &[u8]) -> (bool, &[u8])
    ensures { with_dollar result.0 result.1.now ≡ bytes.now }
{
    match bytes {
        [b'$', rest @ ..] => (true, rest),
        _ => (false, bytes),
    }
}

/// How many letters stand in front, and the column that they name.
fn read_letters(bytes: &[u8]) -> (usize, u32)
    ensures { IsNumbered is_ascii_alphabetic column_number bytes.now result.0 result.1 }
{
    let mut number = 0;
    for (count, byte) in bytes.iter().enumerate() {
        if !byte.is_ascii_alphabetic() {
            return (count, number);
        }
        number = (26 * number + u32::from(*byte % 32)).min(FAR);
    }
    (bytes.len(), number)
}

/// How many digits stand in front, and the number that they write.
fn read_digits(bytes: &[u8]) -> (usize, u32)
    ensures { IsNumbered is_ascii_digit (digits_value 10) bytes.now result.0 result.1 }
{
    let mut number = 0;
    for (count, byte) in bytes.iter().enumerate() {
        if !byte.is_ascii_digit() {
            return (count, number);
        }
        number = (10 * number + u32::from(*byte - b'0')).min(FAR);
    }
    (bytes.len(), number)
}
