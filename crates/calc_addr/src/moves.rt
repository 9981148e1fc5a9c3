ghost use Rattle.calc_addr.specs.Ends.{AreEnds, cols_of, rows_of};
ghost use Rattle.calc_addr.specs.Moves.{at_distance, moved_cols, moved_end, moved_ends, moved_reference, moved_rows, with_ends};
ghost use Rattle.calc_addr.specs.References.{IsSpanned};
ghost use Rattle.std.specs.Prelude.{IfSome, ◌≡◌, ◌≤◌};

use crate::cell::{Area, LAST_COL, LAST_ROW};
use crate::ends::{End, Ends, cols_of, in_order, rows_of};
use crate::reference::{Marks, Ref, Span};

fn at_distance(at: u32, distance: i32, last: u32) -> Option<u32>
    ensures { result ≡ at_distance last distance at }
{
    match at.checked_add_signed(distance) {
        Some(to) if 1 <= to && to <= last => Some(to),
        _ => None,
    }
}

fn moved_end(end: End, distance: i32, last: u32) -> Option<End>
    requires from { 1 ≤ end.at }
    requires to { end.at ≤ last }
    ensures end { result ≡ moved_end last distance end }
    ensures from { IfSome result (λ to. 1 ≤ to.at) }
    ensures to { IfSome result (λ to. to.at ≤ last) }
{
    if end.marked {
        return Some(end);
    }
    let at = at_distance(end.at, distance, last)?;
    Some(End { at, ..end })
}

fn moved_ends(ends: Ends, distance: i32, last: u32) -> Option<Ends>
    requires { AreEnds last ends }
    ensures ends { result ≡ moved_ends last distance ends }
    ensures inside { IfSome result (AreEnds last) }
{
    let first = moved_end(ends.first, distance, last)?;
    Some(in_order(first, moved_end(ends.last, distance, last)?))
}

fn moved_cols(r: Ref, distance: i32) -> Option<Ends>
    ensures ends { result ≡ moved_cols r.span distance (cols_of r) }
    ensures inside { IfSome result (AreEnds LAST_COL) }
{
    let ends = cols_of(r);
    match r.span {
        Span::Rows => Some(ends),
        Span::One | Span::Cells | Span::Columns => moved_ends(ends, distance, u32::from(LAST_COL)),
    }
}

fn moved_rows(r: Ref, distance: i32) -> Option<Ends>
    ensures ends { result ≡ moved_rows r.span distance (rows_of r) }
    ensures inside { IfSome result (AreEnds LAST_ROW) }
{
    let ends = rows_of(r);
    match r.span {
        Span::Columns => Some(ends),
        Span::One | Span::Cells | Span::Rows => moved_ends(ends, distance, LAST_ROW),
    }
}

/// A reference after its formula moved by columns and rows, or None where a coordinate without a
/// mark leaves the sheet.
pub fn move_ref(r: Ref, cols: i32, rows: i32) -> Option<Ref>
    ensures { result ≡ moved_reference cols rows r }
{
    let cols = moved_cols(r, cols)?;
    let rows = moved_rows(r, rows)?;
    Some(with_ends(r, cols, rows))
}

fn with_ends(r: Ref, cols: Ends, rows: Ends) -> Ref
    requires cols { AreEnds LAST_COL cols }
    requires rows { AreEnds LAST_ROW rows }
    requires span { IsSpanned r.span r.area r.marks
        → IsSpanned r.span (with_ends r cols rows).area (with_ends r cols rows).marks }
    ensures { result ≡ with_ends r cols rows }
{
    let area = Area {
        first_col: cols.first.at as u16,
        last_col: cols.last.at as u16,
        first_row: rows.first.at,
        last_row: rows.last.at,
        ..r.area
    };
    let marks = Marks {
        first_col: cols.first.marked,
        first_row: rows.first.marked,
        last_col: cols.last.marked,
        last_row: rows.last.marked,
        ..r.marks
    };
    Ref { area, marks, ..r }
}
