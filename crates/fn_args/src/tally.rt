ghost use Rattle.std.specs.Prelude.{◌≡◌, ◌+◌, ◌*◌, ℕ, fold, length};
ghost use Rattle.calc_addr.specs.Places.{IsRectangle};
ghost use Rattle.calc_model.specs.Lists.{number_in_cell, number_of_scalar};
ghost use Rattle.calc_model.specs.Meanings.{values_in};
ghost use Rattle.calc_model.specs.UsedCells.{values_of};
ghost use Rattle.calc_model.specs.ValueTexts.{lent};
ghost use Rattle.fn_args.specs.Tallies.{IsTallied, MOST_IN_AREA, numbers_in_cells, numbers_of_arg, numbers_of_args};

use crate::pieces::Pieces;
use calc_addr::Area;
use calc_model::{Arg, Fault, Piece, Seen, Value, Values};
use calc_num::Num;

/// What takes the numbers of a list one after the other. Contracts see the state after each number, and for
/// how many more there is room.
pub trait Tally {
    ghost use Rattle.std.specs.Prelude.{◌≡◌, ◌+◌, ℕ, ℤ, fold, length};

    ghost step: { Self → ℤ → Self };

    ghost room: { Self → ℕ → Type 0 };

    /// Takes one number.
    fn take(&mut self, number: Num)
        requires { room self.old 1 }
        ensures taken { self.new ≡ step self.old number }
        ensures left { (k : ℕ) → room self.old (1 + k) → room self.new k };

    ghost room_behind: { (s : Self) (j k : ℕ) → room s (j + k) → room s k };
}

/// Gives a tally the numbers of a list, up to the first error: a text in a cell and a blank value are passed
/// over, a text that is no cell's is no number.
pub fn tally_list<V: Values, T: Tally>(args: &[Arg], values: &V, taker: &mut T) -> Result<(), Fault>
    requires { T.room taker.old (length args.now * MOST_IN_AREA) }
    ensures { IsTallied T.step T.room (length args.now * MOST_IN_AREA) taker.old
        (numbers_of_args (V.values values.now) args.now) taker.new result }
{
    for arg in args {
        tally_arg(arg, values, taker)?;
    }
    Ok(())
}

/// Gives a tally the numbers of a parameter.
fn tally_arg<V: Values, T: Tally>(arg: &Arg, values: &V, taker: &mut T) -> Result<(), Fault>
    requires { T.room taker.old MOST_IN_AREA }
    ensures { IsTallied T.step T.room MOST_IN_AREA taker.old
        (numbers_of_arg (V.values values.now) arg.now) taker.new result }
{
    match arg {
        Arg::Scalar(value) => tally_scalar(value, taker),
        Arg::Area(area) => {
            lies_in_sheet(*area);
            tally_area(*area, values, taker)
        }
    }
}

/// An area lies in a sheet, so it has no more cells than one. The call does nothing.
pub fn lies_in_sheet(area: Area)
    ensures { IsRectangle area }
{
    let _row = area.first_row;
}

/// Gives a tally the number of a value that is no cell's.
fn tally_scalar<T: Tally>(value: &Value, taker: &mut T) -> Result<(), Fault>
    requires { T.room taker.old 1 }
    ensures { IsTallied T.step T.room 1 taker.old (number_of_scalar value.now) taker.new result }
{
    match value {
        Value::Number(number) => {
            taker.take(*number);
            Ok(())
        }
        Value::Words(_) => Err(Fault::BadValue),
        Value::Bad(fault) => Err(*fault),
        Value::Blank => Ok(()),
    }
}

/// Gives a tally the numbers of an area's cells, up to the first error.
fn tally_area<V: Values, T: Tally>(area: Area, values: &V, taker: &mut T) -> Result<(), Fault>
    requires { T.room taker.old (length (values_in (V.values values.now) area)) }
    ensures { IsTallied T.step T.room (length (values_in (V.values values.now) area)) taker.old
        (numbers_in_cells (values_in (V.values values.now) area)) taker.new result }
{
    for piece in Pieces::of(area, values) {
        tally_piece(&piece, taker)?;
    }
    Ok(())
}

/// Gives a tally the numbers of a piece, up to the first error.
pub(crate) fn tally_piece<T: Tally>(piece: &Piece<'_>, taker: &mut T) -> Result<(), Fault>
    requires { T.room taker.old (length (values_of piece.now)) }
    ensures { IsTallied T.step T.room (length (values_of piece.now)) taker.old
        (numbers_in_cells (values_of piece.now)) taker.new result }
{
    match piece {
        Piece::Small { items } => {
            tally_small(items, taker);
            Ok(())
        }
        Piece::Blank { .. } => Ok(()),
        Piece::One(seen) => tally_cell(seen, taker),
    }
}

/// Gives a tally the numbers with these raw numbers.
fn tally_small<T: Tally>(items: &[i64], taker: &mut T)
    requires { T.room taker.old (length items.now) }
    ensures taken { taker.new ≡ fold T.step taker.old items.now }
    ensures left { (k : ℕ) → T.room taker.old (length items.now + k) → T.room taker.new k }
{
    for item in items {
        taker.take(small(*item));
    }
}

/// The number with a raw number of 64 bits.
pub fn small(raw: i64) -> Num
    ensures { result ≡ raw }
{
    Num::from_raw(i128::from(raw)).unwrap()
}

/// Gives a tally the number of a cell.
fn tally_cell<T: Tally>(seen: &Seen<'_>, taker: &mut T) -> Result<(), Fault>
    requires { T.room taker.old 1 }
    ensures { IsTallied T.step T.room 1 taker.old (number_in_cell (lent seen.now))
        taker.new result }
{
    match seen {
        Seen::Number(number) => {
            taker.take(*number);
            Ok(())
        }
        Seen::Words(_text) => Ok(()),
        Seen::Bad(fault) => Err(*fault),
        Seen::Blank => Ok(()),
    }
}
