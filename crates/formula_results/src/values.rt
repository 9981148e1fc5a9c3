ghost use Rattle.std.specs.Prelude.{◌≡◌};
ghost use Rattle.calc_model.specs.Results.{shown_by};
ghost use Rattle.calc_model.specs.UsedCells.{is_circle, is_past, is_used};
ghost use Rattle.formula_results.specs.Results.{results_of};

use crate::results::FormulaResults;
use crate::show::shown;
use book_parts::BookParts;
use calc_addr::{Area, Cell};
use calc_model::{Fault, Piece, Seen, Values};

/// What the cells of a map show by some results.
#[derive(Clone, Copy)]
pub struct ShownCells<'a> {
    cells: &'a BookParts,
    results: &'a FormulaResults,
}

impl<'a> ShownCells<'a> {
    ghost use Rattle.formula_results.specs.ShownCells.{shown_values};

    pub fn of(cells: &'a BookParts, results: &'a FormulaResults) -> ShownCells<'a>
        ensures { shown_values result ≡ shown_by cells.entry.now (results_of results.entry.now) }
    {
        ShownCells { cells, results }
    }

    fn is_used(&self, cell: Cell) -> bool
        ensures { result ≡ is_used (shown_values self.now cell) }
    {
        match shown(self.cells, self.results, cell) {
            Seen::Number(_number) => true,
            Seen::Words(_text) => true,
            Seen::Bad(_) => true,
            Seen::Blank => false,
        }
    }

    fn is_circle(&self, cell: Cell) -> bool
        ensures { result ≡ is_circle (shown_values self.now cell) }
    {
        match shown(self.cells, self.results, cell) {
            Seen::Bad(fault) => fault == Fault::Circular,
            Seen::Number(_number) => false,
            Seen::Words(_text) => false,
            Seen::Blank => false,
        }
    }
}

/// Whether the cell comes behind that one, if there is one.
fn is_past(after: &Option<Cell>, cell: Cell) -> bool
    ensures { result ≡ is_past after.now cell }
{
    match after {
        Some(after) => *after < cell,
        None => true,
    }
}

impl Values for ShownCells<'_> {
    ghost use Rattle.formula_results.specs.ShownCells.{shown_values};

    ghost values = { shown_values };

    /// It takes the logarithm of the maps.
    fn look(&self, cell: Cell) -> Seen<'_> {
        shown(self.cells, self.results, cell)
    }

    /// Linear in the area's cells.
    #[tactic(auto, unfolding(calc_model::specs::UsedCells::used_past))]
    fn next_used(&self, area: Area, after: Option<Cell>) -> Option<Cell> {
        for cell in area.cells() {
            if self.is_used(cell) && is_past(&after, cell) {
                return Some(cell);
            }
        }
        None
    }

    /// Linear in the area's cells.
    #[tactic(auto, unfolding(calc_model::specs::UsedCells::has_circle))]
    fn any_circular(&self, area: Area) -> bool {
        for cell in area.cells() {
            if self.is_circle(cell) {
                return true;
            }
        }
        false
    }

    /// It takes the logarithm of the maps.
    #[tactic(auto, unfolding(calc_model::specs::UsedCells::column_values))]
    fn piece(&self, sheet: u8, col: u16, first: u32, last: u32) -> Piece<'_> {
        let row = first;
        let start = Cell { sheet, col, row };
        let count = self.cells.empty_rows(start, last);
        if count == 0 {
            Piece::One(self.look(start))
        } else {
            Piece::Blank { count }
        }
    }
}
