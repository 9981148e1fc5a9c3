//! The numbers of an area at the places whose cells in another area pass a test.
ghost use Rattle.std.specs.Prelude.{◌≡◌, ◌≤◌, ◌+◌, ℕ, fold, length, map, if◌then◌else◌};
ghost use Rattle.std.specs.List.{zip};
ghost use Rattle.calc_model.specs.Meanings.{values_in};
ghost use Rattle.calc_model.specs.UsedCells.{values_of};
ghost use Rattle.calc_model.specs.declared.value.Value.TheVariants as value;
ghost use Rattle.fn_args.specs.Picks.{if_picked, picked_by, where_passes};
ghost use Rattle.fn_args.specs.Tallies.{IsTallied, MOST_IN_AREA, numbers_in_cells};

use crate::counts::Test;
use crate::pairs::{PiecePair, PiecePairs};
use crate::tally::{Tally, lies_in_sheet, small, tally_piece};
use calc_addr::Area;
use calc_model::{Fault, Piece, Seen, Values};

/// Gives a tally the numbers of an area at the places where the values of another one pass, up to the first
/// error.
pub fn tally_picked<V: Values, C: Test, T: Tally>(
    tested: Area,
    summed: Area,
    values: &V,
    test: &C,
    taker: &mut T,
) -> Result<(), Fault>
    requires { T.room taker.old MOST_IN_AREA }
    ensures { IsTallied T.step T.room MOST_IN_AREA taker.old (numbers_in_cells (picked_by
        (C.test test.now) (values_in (V.values values.now) tested)
        (values_in (V.values values.now) summed))) taker.new result }
{
    lies_in_sheet(tested);
    tally_pairs(tested, summed, values, test, taker)
}

/// The same with as much room as the shorter area needs.
fn tally_pairs<V: Values, C: Test, T: Tally>(
    tested: Area,
    summed: Area,
    values: &V,
    test: &C,
    taker: &mut T,
) -> Result<(), Fault>
    requires { T.room taker.old (length (zip (values_in (V.values values.now) tested)
        (values_in (V.values values.now) summed))) }
    ensures { IsTallied T.step T.room (length (zip (values_in (V.values values.now) tested)
        (values_in (V.values values.now) summed))) taker.old (numbers_in_cells (picked_by
        (C.test test.now) (values_in (V.values values.now) tested)
        (values_in (V.values values.now) summed))) taker.new result }
{
    for pair in PiecePairs::of(tested, summed, values) {
        tally_pair(&pair, test, taker)?;
    }
    Ok(())
}

/// Gives a tally the numbers of one piece at the places where the values of another pass.
fn tally_pair<C: Test, T: Tally>(pair: &PiecePair<'_>, test: &C, taker: &mut T) -> Result<(), Fault>
    requires same { length (values_of pair.now.first) ≡ length (values_of pair.now.second) }
    requires some { 1 ≤ length (values_of pair.now.second) }
    requires room { T.room taker.old (length (values_of pair.now.second)) }
    ensures { IsTallied T.step T.room (length (values_of pair.now.second)) taker.old
        (numbers_in_cells (picked_by (C.test test.now) (values_of pair.now.first)
        (values_of pair.now.second))) taker.new result }
{
    match &pair.first {
        Piece::Small { items } => tally_by_numbers(items, &pair.second, test, taker),
        Piece::Blank { .. } => tally_if(test.passes(&Seen::Blank), &pair.second, taker),
        Piece::One(seen) => tally_if(test.passes(seen), &pair.second, taker),
    }
}

/// Gives a tally the numbers of a piece, or none.
fn tally_if<T: Tally>(picked: bool, piece: &Piece<'_>, taker: &mut T) -> Result<(), Fault>
    requires { T.room taker.old (length (values_of piece.now)) }
    ensures { IsTallied T.step T.room (length (values_of piece.now)) taker.old
        (numbers_in_cells (if_picked picked (values_of piece.now))) taker.new result }
{
    if picked {
        tally_piece(piece, taker)
    } else {
        Ok(())
    }
}

/// Gives a tally the numbers of a piece at the places where the numbers with other raw numbers pass.
fn tally_by_numbers<C: Test, T: Tally>(
    keys: &[i64],
    piece: &Piece<'_>,
    test: &C,
    taker: &mut T,
) -> Result<(), Fault>
    requires same { length keys.now ≡ length (values_of piece.now) }
    requires some { 1 ≤ length keys.now }
    requires room { T.room taker.old (length (values_of piece.now)) }
    ensures { IsTallied T.step T.room (length (values_of piece.now)) taker.old
        (numbers_in_cells (picked_by (C.test test.now) (map value.Number keys.now)
        (values_of piece.now))) taker.new result }
{
    match piece {
        Piece::Small { items } => {
            tally_where(keys, items, test, taker);
            Ok(())
        }
        Piece::Blank { .. } => Ok(()),
        Piece::One(_) => tally_if(test.passes_number(keys[0]), piece, taker),
    }
}

/// Gives a tally the numbers with these raw numbers at the places where those with other ones pass.
fn tally_where<C: Test, T: Tally>(keys: &[i64], items: &[i64], test: &C, taker: &mut T)
    requires same { length keys.now ≡ length items.now }
    requires room { T.room taker.old (length items.now) }
    ensures taken { taker.new ≡ fold T.step taker.old (where_passes
        (λ n. C.test test.now (value.Number n)) keys.now items.now) }
    ensures left { (k : ℕ) → T.room taker.old (length items.now + k) → T.room taker.new k }
{
    for place in 0..keys.len() {
        take_if(test.passes_number(keys[place]), items[place], taker);
    }
}

/// Gives a tally a number, or none.
fn take_if<T: Tally>(picked: bool, item: i64, taker: &mut T)
    requires { T.room taker.old 1 }
    ensures taken { taker.new ≡ (if picked then T.step taker.old item else taker.old) }
    ensures left { (k : ℕ) → T.room taker.old (1 + k) → T.room taker.new k }
{
    if picked {
        taker.take(small(item));
    }
}
