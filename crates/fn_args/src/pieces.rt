ghost use Rattle.std.specs.Prelude.{◌≡◌, ◌+◌, ◌-◌, ◌≤◌, true};
ghost use Rattle.calc_addr.specs.Places.{covers};
ghost use Rattle.calc_model.specs.Meanings.{values_in};
ghost use Rattle.calc_model.specs.UsedCells.{IsFront};
ghost use Rattle.fn_args.specs.Pieces.{IsBehind, YieldsPiece, rows_below};
ghost use Rattle.std.specs.Iterator.{at_most};
ghost use Rattle.std.specs.Prelude.{length};

use calc_addr::{Area, Cell};
use calc_model::{Piece, Values};
use std::marker::Model;

/// The values of an area that are still to come, piece by piece: column by column, downwards. Contracts see
/// their list.
#[derive(Drop)]
pub struct Pieces<'a, V: Values> {
    values: &'a V,
    area: Area,
    next: Option<Cell>,
}

impl<'a, V: Values> Model for Pieces<'a, V> {
    ghost use Rattle.std.specs.Prelude.{List, map};
    ghost use Rattle.calc_addr.specs.Places.{IsInArea, places_from};
    ghost use Rattle.calc_model.specs.declared.value.Value.{Value as CellValue};

    ghost Value = { List CellValue };

    ghost view = { λ p. map (V.values p.values.now) (places_from p.area p.next) };

    ghost invariant = { λ p. IsInArea p.area p.next };
}

impl<'a, V: Values> Pieces<'a, V> {
    /// The values of an area.
    pub fn of(area: Area, values: &'a V) -> Pieces<'a, V>
        ensures { result ≡ values_in (V.values values.entry.now) area }
    {
        Pieces {
            values,
            area,
            next: Some(area.corner()),
        }
    }
}

impl<'a, V: Values> Iterator for Pieces<'a, V> {
    type Item = Piece<'a>;

    ghost next_gives = { YieldsPiece };

    ghost remaining = { λ values. at_most (length values) };

    fn next(&mut self) -> Option<Piece<'a>> {
        let cell = self.next?;
        let piece = piece_at(self.values, self.area, cell);
        self.next = behind(self.area, cell, piece.len());
        Some(piece)
    }
}

/// A piece of a column from one of the area's cells down.
pub(crate) fn piece_at<V: Values>(values: &V, area: Area, cell: Cell) -> Piece<'_>
    requires { covers area cell ≡ true }
    ensures { IsFront (V.values values.now) (rows_below area cell) result }
{
    values.piece(cell.sheet, cell.col, cell.row, area.last_row)
}

/// The cell so many rows below one of the area's, or the top of the next column.
pub(crate) fn behind(area: Area, cell: Cell, count: usize) -> Option<Cell>
    requires covered { covers area cell ≡ true }
    requires within { count ≤ area.last_row + 1 - cell.row }
    ensures { IsBehind area cell count result }
{
    let left = area.last_row - cell.row;
    if count <= left as usize {
        Some(Cell {
            row: cell.row + count as u32,
            ..cell
        })
    } else if cell.col < area.last_col {
        Some(Cell {
            col: cell.col + 1,
            row: area.first_row,
            ..cell
        })
    } else {
        None
    }
}
