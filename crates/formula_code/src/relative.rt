ghost use Rattle.std.specs.Prelude.{◌≡◌, ◌≤◌, ◌&&◌, ◌↔◌, IsTrue, not};
ghost use Rattle.calc_addr.specs.References.{IsValidReference};
ghost use Rattle.formula_code.specs.Digests.{reference_digest};
ghost use Rattle.formula_code.specs.Relative.{absolute_reference, from_distance, has_cols, has_rows, relative_reference, to_distance};

use crate::digest::mix;
use calc_addr::{Area, Cell, LAST_COL, LAST_ROW, Marks, Ref, Span};
use std::marker::Model;

/// A reference of a formula in which each coordinate without a mark is its distance from the formula's
/// cell. Contracts see it as the reference with these numbers.
#[derive(Clone, Copy)]
pub struct RelativeRef {
    sheet: u8,
    first_col: u16,
    last_col: u16,
    first_row: u32,
    last_row: u32,
    span: Span,
    marks: Marks,
}

impl Model for RelativeRef {
    ghost use Rattle.calc_addr.specs.References.{Reference};

    ghost Value = { Reference };

    ghost view = { λ r.
        record {
          area = record {
            sheet = r.sheet;
            first_col = r.first_col;
            last_col = r.last_col;
            first_row = r.first_row;
            last_row = r.last_row;
          };
          span = r.span;
          marks = r.marks;
        } };

    ghost inverse = { λ r.
        record {
          sheet = r.area.sheet;
          first_col = r.area.first_col;
          last_col = r.area.last_col;
          first_row = r.area.first_row;
          last_row = r.area.last_row;
          span = r.span;
          marks = r.marks;
        } };
}

impl RelativeRef {
    /// The form of a reference of a formula at `home`.
    pub(crate) fn of(r: Ref, home: Cell) -> RelativeRef
        ensures { result ≡ relative_reference home r }
    {
        let cols = has_cols(r.span);
        let rows = has_rows(r.span);
        RelativeRef {
            sheet: r.area.sheet,
            first_col: col_distance(moves(cols, r.marks.first_col), home, r.area.first_col),
            last_col: col_distance(moves(cols, r.marks.last_col), home, r.area.last_col),
            first_row: row_distance(moves(rows, r.marks.first_row), home, r.area.first_row),
            last_row: row_distance(moves(rows, r.marks.last_row), home, r.area.last_row),
            span: r.span,
            marks: r.marks,
        }
    }

    pub(crate) fn is_same(self, other: RelativeRef) -> bool
        ensures { IsTrue result ↔ (self ≡ other) }
    {
        self.has_same_area(other) && self.span == other.span && is_same(self.marks, other.marks)
    }

    fn has_same_area(self, other: RelativeRef) -> bool
        ensures { IsTrue result ↔ (self.area ≡ other.area) }
    {
        self.sheet == other.sheet
            && self.first_col == other.first_col
            && self.last_col == other.last_col
            && self.first_row == other.first_row
            && self.last_row == other.last_row
    }

    pub(crate) fn digest(self) -> u64
        ensures { result ≡ reference_digest self }
    {
        let sheet = mix(4, u64::from(self.sheet));
        let first_col = mix(sheet, u64::from(self.first_col));
        let last_col = mix(first_col, u64::from(self.last_col));
        mix(
            mix(last_col, u64::from(self.first_row)),
            u64::from(self.last_row),
        )
    }

    /// The reference of that form of a formula at `home`.
    #[inline(always)]
    pub(crate) fn at(self, home: Cell) -> Ref
        requires { IsValidReference (absolute_reference home self) }
        ensures { result ≡ absolute_reference home self }
    {
        let cols = has_cols(self.span);
        let rows = has_rows(self.span);
        Ref {
            area: Area {
                sheet: self.sheet,
                first_col: col_at(moves(cols, self.marks.first_col), home, self.first_col),
                last_col: col_at(moves(cols, self.marks.last_col), home, self.last_col),
                first_row: row_at(moves(rows, self.marks.first_row), home, self.first_row),
                last_row: row_at(moves(rows, self.marks.last_row), home, self.last_row),
            },
            span: self.span,
            marks: self.marks,
        }
    }
}

fn col_distance(moves: bool, home: Cell, at: u16) -> u16
    requires { at ≤ LAST_COL }
    ensures { result ≡ to_distance moves LAST_COL home.col at }
{
    if moves { LAST_COL + at - home.col } else { at }
}

fn row_distance(moves: bool, home: Cell, at: u32) -> u32
    requires { at ≤ LAST_ROW }
    ensures { result ≡ to_distance moves LAST_ROW home.row at }
{
    if moves { LAST_ROW + at - home.row } else { at }
}

fn col_at(moves: bool, home: Cell, distance: u16) -> u16
    requires from { 1 ≤ from_distance moves LAST_COL home.col distance }
    requires to { from_distance moves LAST_COL home.col distance ≤ LAST_COL }
    ensures { result ≡ from_distance moves LAST_COL home.col distance }
{
    if moves {
        home.col + distance - LAST_COL
    } else {
        distance
    }
}

fn row_at(moves: bool, home: Cell, distance: u32) -> u32
    requires from { 1 ≤ from_distance moves LAST_ROW home.row distance }
    requires to { from_distance moves LAST_ROW home.row distance ≤ LAST_ROW }
    ensures { result ≡ from_distance moves LAST_ROW home.row distance }
{
    if moves {
        home.row + distance - LAST_ROW
    } else {
        distance
    }
}

fn is_same(marks: Marks, other: Marks) -> bool
    ensures { IsTrue result ↔ (marks ≡ other) }
{
    marks.sheet == other.sheet
        && marks.first_col == other.first_col
        && marks.first_row == other.first_row
        && marks.last_col == other.last_col
        && marks.last_row == other.last_row
}

fn has_cols(span: Span) -> bool
    ensures { result ≡ has_cols span }
{
    !matches!(span, Span::Rows)
}

pub(crate) fn has_rows(span: Span) -> bool
    ensures { result ≡ has_rows span }
{
    !matches!(span, Span::Columns)
}

/// Whether a coordinate moves with the formula's cell.
fn moves(is_coordinate: bool, is_marked: bool) -> bool
    ensures { result ≡ (is_coordinate && not is_marked) }
{
    is_coordinate && !is_marked
}
