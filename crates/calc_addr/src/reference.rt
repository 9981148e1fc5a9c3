ghost use Rattle.std.specs.Prelude.{◌≡◌};

use crate::cell::{Area, Cell};
use std::marker::Model;

/// How a reference was spelled.
#[derive(Clone, Copy, Debug, PartialEq, Eq)]
pub enum Span {
    /// One cell, as `.A1`.
    One,
    /// Two cells, as `.A1:.B2`.
    Cells,
    /// Whole columns, as `.A:.B`.
    Columns,
    /// Whole rows, as `.1:.2`.
    Rows,
}

/// What was marked in a reference's spelling: a dollar sign, but for `sheet`.
#[derive(Clone, Copy, Debug, PartialEq, Eq)]
pub struct Marks {
    /// A sheet was written. Without it the reference lies on the sheet of its formula's cell.
    pub sheet: bool,
    pub first_col: bool,
    pub first_row: bool,
    pub last_col: bool,
    pub last_row: bool,
}

/// A reference of a formula. Where no sheet was written, the area's sheet is 0 and stands for the
/// sheet of the formula's cell.
#[derive(Clone, Copy, Debug, PartialEq, Eq)]
pub struct Ref {
    pub area: Area,
    pub span: Span,
    pub marks: Marks,
}

impl Model for Ref {
    ghost use Rattle.calc_addr.specs.References.{Reference, IsReference};

    ghost Value = { Reference };

    ghost view = { λ r. record { area = r.area; span = r.span; marks = r.marks } };

    ghost invariant = { λ r.
        IsReference (record { area = r.area; span = r.span; marks = r.marks }) };

    ghost inverse = { λ r. record { area = r.area; span = r.span; marks = r.marks } };
}

impl Ref {
    ghost use Rattle.calc_addr.specs.References.{here};

    /// The area for a formula at `home`.
    pub fn here(self, home: Cell) -> Area
        ensures { result ≡ here self home }
    {
        if self.marks.sheet {
            self.area
        } else {
            Area {
                sheet: home.sheet,
                ..self.area
            }
        }
    }
}
