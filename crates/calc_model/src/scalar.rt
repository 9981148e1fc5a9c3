ghost use Rattle.std.specs.Prelude.{◌≡◌};
ghost use Rattle.calc_model.specs.Scalars.{if_covered, scalar_at};
ghost use Rattle.calc_model.specs.ValueTexts.{lent};

use crate::fault::Fault;
use crate::value::Seen;
use crate::values::Values;
use calc_addr::{Area, Cell};

/// What an area gives a formula at `home` in a place that takes one value: its cell where it has one; where
/// it has one column, the cell in the formula's row; where it has one row, the cell in the formula's
/// column. It is `BadValue` where that cell isn't in it, or where it has several rows and columns
/// (OpenFormula, 6.3.3).
pub fn scalar_at<V: Values>(area: Area, home: Cell, values: &V) -> Seen<'_>
    ensures { lent result ≡ scalar_at area home (V.values values.now) }
{
    let one_col = area.first_col == area.last_col;
    let one_row = area.first_row == area.last_row;
    let corner = area.corner();
    if one_col && one_row {
        values.look(corner)
    } else if one_col {
        let row = home.row;
        look_in(area, Cell { row, ..corner }, values)
    } else if one_row {
        let col = home.col;
        look_in(area, Cell { col, ..corner }, values)
    } else {
        Seen::Bad(Fault::BadValue)
    }
}

/// The cell's value where the area has the cell.
fn look_in<V: Values>(area: Area, cell: Cell, values: &V) -> Seen<'_>
    ensures { lent result ≡ if_covered area cell (V.values values.now) }
{
    if area.covers(cell) {
        values.look(cell)
    } else {
        Seen::Bad(Fault::BadValue)
    }
}
