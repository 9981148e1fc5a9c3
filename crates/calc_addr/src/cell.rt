use std::marker::Model;

/// The last sheet's number; the first is 0.
pub const LAST_SHEET: u8 = 15;

/// The last column's number, that of AMJ; the first is 1.
pub const LAST_COL: u16 = 1_024;

/// The last row's number; the first is 1.
pub const LAST_ROW: u32 = 1_048_576;

/// One cell of one sheet.
#[derive(Clone, Copy, Debug, PartialEq, Eq, PartialOrd, Ord)]
pub struct Cell {
    /// 0 to 15.
    pub sheet: u8,
    /// 1 to 1,024.
    pub col: u16,
    /// 1 to 1,048,576.
    pub row: u32,
}

impl Model for Cell {
    ghost use Rattle.calc_addr.specs.Places.{Place, IsPlace};

    ghost Value = { Place };

    ghost view = { λ c. record { sheet = c.sheet; col = c.col; row = c.row } };

    ghost invariant = { λ c. IsPlace (record { sheet = c.sheet; col = c.col; row = c.row }) };

    ghost inverse = { λ p. record { sheet = p.sheet; col = p.col; row = p.row } };
}

/// A rectangle of one sheet, with both ends in it.
#[derive(Clone, Copy, Debug, PartialEq, Eq)]
pub struct Area {
    /// 0 to 15.
    pub sheet: u8,
    /// At most `last_col`.
    pub first_col: u16,
    /// At most 1,024.
    pub last_col: u16,
    /// At most `last_row`.
    pub first_row: u32,
    /// At most 1,048,576.
    pub last_row: u32,
}

impl Model for Area {
    ghost use Rattle.calc_addr.specs.Places.{Rectangle, IsRectangle};

    ghost Value = { Rectangle };

    ghost view = { λ a.
        record {
          sheet = a.sheet;
          first_col = a.first_col;
          last_col = a.last_col;
          first_row = a.first_row;
          last_row = a.last_row;
        } };

    ghost invariant = { λ a.
        IsRectangle (record {
          sheet = a.sheet;
          first_col = a.first_col;
          last_col = a.last_col;
          first_row = a.first_row;
          last_row = a.last_row;
        }) };

    ghost inverse = { λ r.
        record {
          sheet = r.sheet;
          first_col = r.first_col;
          last_col = r.last_col;
          first_row = r.first_row;
          last_row = r.last_row;
        } };
}

/// Neighbouring rows of one column.
#[derive(Clone, Copy, Debug, PartialEq, Eq)]
pub struct Run {
    /// 0 to 15.
    pub sheet: u8,
    /// 1 to 1,024.
    pub col: u16,
    /// At most `last`.
    pub first: u32,
    /// At most 1,048,576.
    pub last: u32,
}

impl Model for Run {
    ghost use Rattle.calc_addr.specs.Places.{Rows, IsRows};

    ghost Value = { Rows };

    ghost view = { λ r. record { sheet = r.sheet; col = r.col; first = r.first; last = r.last } };

    ghost invariant = { λ r.
        IsRows (record {
          sheet = r.sheet;
          col = r.col;
          first = r.first;
          last = r.last;
        }) };

    ghost inverse = { λ r.
        record {
          sheet = r.sheet;
          col = r.col;
          first = r.first;
          last = r.last;
        } };
}

impl Area {
    ghost use Rattle.calc_addr.specs.Places.{cell_count, covers};
    ghost use Rattle.std.specs.Prelude.{◌≡◌};

    /// Whether the cell is one of the area's.
    pub fn covers(self, cell: Cell) -> bool
        ensures { result ≡ covers self cell }
    {
        cell.sheet == self.sheet
            && self.first_col <= cell.col
            && cell.col <= self.last_col
            && self.first_row <= cell.row
            && cell.row <= self.last_row
    }

    /// How many cells it has.
    pub fn cell_count(self) -> u64
        ensures { result ≡ cell_count self }
    {
        let cols = u64::from(self.last_col) + 1 - u64::from(self.first_col);
        let rows = u64::from(self.last_row) + 1 - u64::from(self.first_row);
        cols * rows
    }
}
