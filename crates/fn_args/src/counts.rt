//! How many values pass a test.
ghost use Rattle.std.specs.Prelude.{◌≡◌, ◌≤◌, ◌*◌, length};
ghost use Rattle.std.specs.List.{count_by};
ghost use Rattle.calc_model.specs.Meanings.{values_in};
ghost use Rattle.calc_model.specs.declared.limits.TheConstants.{MOST_PARAMETERS};
ghost use Rattle.calc_model.specs.UsedCells.{values_of};
ghost use Rattle.calc_model.specs.declared.value.Value.TheVariants as value;
ghost use Rattle.fn_args.specs.Counts.{values_of_arg, values_of_args};
ghost use Rattle.fn_args.specs.Tallies.{MOST_IN_AREA};

use crate::pieces::Pieces;
use crate::tally::lies_in_sheet;
use calc_addr::Area;
use calc_model::{Arg, Piece, Seen, Values};

/// A test of values.
pub trait Test {
    ghost use Rattle.std.specs.Prelude.{◌≡◌, Bool};
    ghost use Rattle.calc_model.specs.declared.value.Value.{Value};
    ghost use Rattle.calc_model.specs.declared.value.Value.TheVariants.{Number};
    ghost use Rattle.calc_model.specs.ValueTexts.{lent};

    ghost test: { Self → Value → Bool };

    /// Whether the value passes.
    fn passes(&self, seen: &Seen<'_>) -> bool
        ensures { result ≡ test self.now (lent seen.now) };

    /// Whether the number with that raw number passes.
    fn passes_number(&self, raw: i64) -> bool
        ensures { result ≡ test self.now (Number raw) };
}

/// How many values of a list pass, blank ones too.
pub fn count_list<V: Values, T: Test>(args: &[Arg], values: &V, test: &T) -> u64
    requires few { length args.now ≤ MOST_PARAMETERS }
    ensures count { result
        ≡ count_by (T.test test.now) (values_of_args (V.values values.now) args.now) }
    ensures few { result ≤ length args.now * MOST_IN_AREA }
{
    let mut count = 0;
    for arg in args {
        count += count_arg(arg, values, test);
    }
    count
}

/// How many values of a parameter pass.
fn count_arg<V: Values, T: Test>(arg: &Arg, values: &V, test: &T) -> u64
    ensures count { result
        ≡ count_by (T.test test.now) (values_of_arg (V.values values.now) arg.now) }
    ensures few { result ≤ MOST_IN_AREA }
{
    match arg {
        Arg::Scalar(value) => u64::from(test.passes(&value.seen())),
        Arg::Area(area) => count_area(*area, values, test),
    }
}

/// How many values of an area pass, blank ones too.
pub fn count_area<V: Values, T: Test>(area: Area, values: &V, test: &T) -> u64
    ensures count { result ≡ count_by (T.test test.now) (values_in (V.values values.now) area) }
    ensures few { result ≤ MOST_IN_AREA }
{
    lies_in_sheet(area);
    let mut count = 0;
    for piece in Pieces::of(area, values) {
        count += count_piece(&piece, test) as u64;
    }
    count
}

/// How many values of a piece pass.
fn count_piece<T: Test>(piece: &Piece<'_>, test: &T) -> usize
    ensures { result ≡ count_by (T.test test.now) (values_of piece.now) }
{
    match piece {
        Piece::Small { items } => count_small(items, test),
        Piece::Blank { count } => {
            if test.passes(&Seen::Blank) {
                *count as usize
            } else {
                0
            }
        }
        Piece::One(seen) => usize::from(test.passes(seen)),
    }
}

/// How many of the numbers with these raw numbers pass.
fn count_small<T: Test>(items: &[i64], test: &T) -> usize
    ensures { result ≡ count_by (λ n. T.test test.now (value.Number n)) items.now }
{
    let mut count = 0;
    for item in items {
        count += usize::from(test.passes_number(*item));
    }
    count
}
