ghost use Rattle.std.specs.Prelude.{◌≡◌, ◌<◌, ◌≤◌, ◌+◌, ℕ, false, slice_get};
ghost use Rattle.std.specs.List.{filter, list_any};
ghost use Rattle.calc_addr.specs.Places.{IsRows, column_places};
ghost use Rattle.calc_model.specs.declared.value.Value.TheVariants as value;
ghost use Rattle.calc_model.specs.UsedCells.{is_circle, is_past, is_used};
ghost use Rattle.calc_model.specs.ValueTexts.{lent};
ghost use Rattle.value_column.specs.Sheets.{IsColumn, cell_values, is_sought};

use crate::sheets::ValueSheets;
use calc_addr::{Area, Cell};
use calc_model::{Fault, Piece, Seen, Values};

impl ValueSheets {
    /// A row of a column behind which each is blank.
    fn reach(&self, sheet: u8, col: u16) -> u32
        requires { IsColumn sheet col }
        ensures { (row : ℕ) → result < row → cell_values self.now
            (record { sheet = sheet; col = col; row = row }) ≡ value.Blank }
    {
        match self.column(sheet, col) {
            Some(column) => column.reach(),
            None => 0,
        }
    }

    /// The first cell of some rows behind `after` that shows something.
    fn next_in_column(
        &self,
        sheet: u8,
        col: u16,
        first: u32,
        last: u32,
        after: &Option<Cell>,
    ) -> Option<Cell>
        requires { IsRows (record { sheet = sheet; col = col; first = first; last = last }) }
        ensures { result ≡ slice_get (filter (is_sought (cell_values self.now) after.now)
            (column_places sheet col first last)) 0 }
    {
        let end = self.reach(sheet, col).min(last);
        let from = first_past(sheet, col, first, last, after);
        for row in from..end + 1 {
            let cell = Cell { sheet, col, row };
            if self.is_used(cell) && is_past(after, cell) {
                return Some(cell);
            }
        }
        None
    }

    /// Whether one of some rows shows a circle.
    fn circle_in_column(&self, sheet: u8, col: u16, first: u32, last: u32) -> bool
        requires { IsRows (record { sheet = sheet; col = col; first = first; last = last }) }
        ensures { result ≡ list_any (λ q. is_circle (cell_values self.now q))
            (column_places sheet col first last) }
    {
        let end = self.reach(sheet, col).min(last);
        for row in first..end + 1 {
            if self.is_circle(Cell { sheet, col, row }) {
                return true;
            }
        }
        false
    }

    /// What a cell shows.
    fn seen(&self, cell: Cell) -> Seen<'_>
        ensures { lent result ≡ cell_values self.now cell }
    {
        match self.column(cell.sheet, cell.col) {
            Some(column) => column.look(cell.row),
            None => Seen::Blank,
        }
    }

    fn is_used(&self, cell: Cell) -> bool
        ensures { result ≡ is_used (cell_values self.now cell) }
    {
        match self.seen(cell) {
            Seen::Number(_number) => true,
            Seen::Words(_text) => true,
            Seen::Bad(_) => true,
            Seen::Blank => false,
        }
    }

    fn is_circle(&self, cell: Cell) -> bool
        ensures { result ≡ is_circle (cell_values self.now cell) }
    {
        match self.seen(cell) {
            Seen::Bad(fault) => fault == Fault::Circular,
            Seen::Number(_number) => false,
            Seen::Words(_text) => false,
            Seen::Blank => false,
        }
    }
}

/// Whether the cell comes behind that one, if there is one.
fn is_past(after: &Option<Cell>, cell: Cell) -> bool
    ensures { result ≡ is_past after.now cell }
{
    match after {
        Some(after) => *after < cell,
        None => true,
    }
}

/// The first of some rows whose cells may come behind that one, if there is one, or the row behind
/// the last.
fn first_past(sheet: u8, col: u16, first: u32, last: u32, after: &Option<Cell>) -> u32
    requires { IsRows (record { sheet = sheet; col = col; first = first; last = last }) }
    ensures from { first ≤ result }
    ensures to { result ≤ last + 1 }
    ensures skipped { (r : ℕ) → first ≤ r → r < result
        → is_past after.now (record { sheet = sheet; col = col; row = r }) ≡ false }
{
    match after {
        None => first,
        Some(after) => {
            let row = first;
            let top = Cell { sheet, col, row };
            if *after < top {
                first
            } else if after.sheet == sheet && after.col == col {
                (after.row.min(last) + 1).max(first)
            } else {
                last + 1
            }
        }
    }
}

impl Values for ValueSheets {
    ghost use Rattle.value_column.specs.Sheets.{cell_values};

    ghost values = { cell_values };

    /// It takes constant time.
    fn look(&self, cell: Cell) -> Seen<'_> {
        self.seen(cell)
    }

    /// Linear in the area's columns, and in the rows of those that are used.
    fn next_used(&self, area: Area, after: Option<Cell>) -> Option<Cell> {
        for col in area.first_col..area.last_col + 1 {
            let (first, last) = (area.first_row, area.last_row);
            match self.next_in_column(area.sheet, col, first, last, &after) {
                Some(cell) => return Some(cell),
                None => {}
            }
        }
        None
    }

    /// Linear in the area's columns, and in the rows of those that are used.
    fn any_circular(&self, area: Area) -> bool {
        for col in area.first_col..area.last_col + 1 {
            if self.circle_in_column(area.sheet, col, area.first_row, area.last_row) {
                return true;
            }
        }
        false
    }

    /// Linear in the rows that the piece says.
    fn piece(&self, sheet: u8, col: u16, first: u32, last: u32) -> Piece<'_> {
        match self.column(sheet, col) {
            Some(column) => column.piece(first, last),
            None => Piece::Blank {
                count: last + 1 - first,
            },
        }
    }
}
