ghost use Rattle.calc_addr.specs.Places.{IsInArea, below_first, corner, covers, place_after, places, places_from, row_at, rows_from, rows_of};
ghost use Rattle.std.specs.Iterator.{YieldsFirst, item_count};
ghost use Rattle.std.specs.Prelude.{◌≡◌, ◌≤◌, true};

use crate::cell::{Area, Cell};
use std::marker::Model;

/// The cells of an area that are still to come, in area order. Contracts see them as their list.
#[derive(Clone, Debug, Drop)]
pub struct AreaCells {
    area: Area,
    next: Option<Cell>,
}

impl Model for AreaCells {
    ghost use Rattle.calc_addr.specs.Places.{IsInArea, Place, places_from};
    ghost use Rattle.std.specs.Prelude.{List};

    ghost Value = { List Place };

    ghost view = { λ cells. places_from cells.area cells.next };

    ghost invariant = { λ cells. IsInArea cells.area cells.next };
}

/// The rows of an area that are still to come, downwards. Contracts see them as their list.
#[derive(Clone, Debug, Drop)]
pub struct AreaRows {
    rest: Option<Area>,
}

impl Model for AreaRows {
    ghost use Rattle.calc_addr.specs.Places.{Rectangle, rows_from};
    ghost use Rattle.std.specs.Prelude.{List};

    ghost Value = { List Rectangle };

    ghost view = { λ rows. rows_from rows.rest };
}

impl Area {
    /// Its rows, downwards, each as an area.
    pub fn rows(self) -> AreaRows
        ensures { result ≡ rows_of self }
    {
        AreaRows { rest: Some(self) }
    }

    /// The first row, and what is below it.
    fn cut_row(self) -> (Area, Option<Area>)
        ensures first { result.0 ≡ row_at self self.first_row }
        ensures rest { result.1 ≡ below_first self }
        ensures in_order { self.first_row ≤ self.last_row }
    {
        let first = Area {
            last_row: self.first_row,
            ..self
        };
        if self.first_row < self.last_row {
            let rest = Area {
                first_row: self.first_row + 1,
                ..self
            };
            (first, Some(rest))
        } else {
            (first, None)
        }
    }

    /// Its cells in area order: column by column, downwards.
    pub fn cells(self) -> AreaCells
        ensures { result ≡ places self }
    {
        AreaCells {
            area: self,
            next: Some(self.corner()),
        }
    }

    /// The first cell in area order.
    pub fn corner(self) -> Cell
        ensures first { result ≡ corner self }
        ensures in_area { covers self result ≡ true }
    {
        Cell {
            sheet: self.sheet,
            col: self.first_col,
            row: self.first_row,
        }
    }

    /// The cell of the area behind this one in area order, if there is one.
    fn after(self, cell: Cell) -> Option<Cell>
        requires { covers self cell ≡ true }
        ensures next { result ≡ place_after self cell }
        ensures in_area { IsInArea self result }
    {
        if cell.row < self.last_row {
            Some(Cell {
                row: cell.row + 1,
                ..cell
            })
        } else if cell.col < self.last_col {
            Some(Cell {
                col: cell.col + 1,
                row: self.first_row,
                ..cell
            })
        } else {
            None
        }
    }
}

impl Iterator for AreaCells {
    type Item = Cell;

    ghost next_gives = { YieldsFirst (λ cells. cells) };

    ghost remaining = { item_count (λ cells. cells) };

    fn next(&mut self) -> Option<Cell> {
        let cell = self.next?;
        self.next = self.area.after(cell);
        Some(cell)
    }
}

impl Iterator for AreaRows {
    type Item = Area;

    ghost next_gives = { YieldsFirst (λ rows. rows) };

    ghost remaining = { item_count (λ rows. rows) };

    fn next(&mut self) -> Option<Area> {
        let (row, rest) = self.rest?.cut_row();
        self.rest = rest;
        Some(row)
    }
}
