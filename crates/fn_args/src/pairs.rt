//! Walks over the values of two areas in step.
ghost use Rattle.std.specs.Prelude.{◌≡◌, ◌≤◌, length, take, min};
ghost use Rattle.std.specs.List.{zip};
ghost use Rattle.calc_model.specs.Meanings.{values_in};
ghost use Rattle.calc_model.specs.UsedCells.{values_of};
ghost use Rattle.calc_model.specs.ValueTexts.{lent};
ghost use Rattle.fn_args.specs.Pairs.{YieldsPair};
ghost use Rattle.std.specs.Iterator.{at_most};

use crate::pieces::{behind, piece_at};
use calc_addr::{Area, Cell};
use calc_model::{Piece, Seen, Values};
use std::marker::Model;

/// Pieces of two areas with as many values, which stand at the same places.
#[derive(Drop)]
pub(crate) struct PiecePair<'a> {
    pub first: Piece<'a>,
    pub second: Piece<'a>,
}

/// The pairs of values of two areas that are still to come, in area order. Contracts see their list, which is
/// as long as the shorter area.
#[derive(Drop)]
pub(crate) struct PiecePairs<'a, V: Values> {
    values: &'a V,
    first: Area,
    second: Area,
    first_next: Option<Cell>,
    second_next: Option<Cell>,
}

impl<'a, V: Values> Model for PiecePairs<'a, V> {
    ghost use Rattle.std.specs.Prelude.{List, map};
    ghost use Rattle.std.specs.List.{zip};
    ghost use Rattle.calc_addr.specs.Places.{IsInArea, places_from};
    ghost use Rattle.calc_model.specs.declared.value.Value.{Value as CellValue};

    ghost Value = { List (CellValue × CellValue) };

    ghost view = { λ p. zip (map (V.values p.values.now) (places_from p.first p.first_next))
        (map (V.values p.values.now) (places_from p.second p.second_next)) };

    ghost invariant = { λ p. IsInArea p.first p.first_next × IsInArea p.second p.second_next };
}

impl<'a, V: Values> PiecePairs<'a, V> {
    /// The pairs of values of two areas.
    pub fn of(first: Area, second: Area, values: &'a V) -> PiecePairs<'a, V>
        ensures { result ≡ zip (values_in (V.values values.entry.now) first)
            (values_in (V.values values.entry.now) second) }
    {
        PiecePairs {
            values,
            first,
            second,
            first_next: Some(first.corner()),
            second_next: Some(second.corner()),
        }
    }
}

impl<'a, V: Values> Iterator for PiecePairs<'a, V> {
    type Item = PiecePair<'a>;

    ghost next_gives = { YieldsPair };

    ghost remaining = { λ pairs. at_most (length pairs) };

    fn next(&mut self) -> Option<PiecePair<'a>> {
        let first_cell = self.first_next?;
        let second_cell = self.second_next?;
        let first = piece_at(self.values, self.first, first_cell);
        let second = piece_at(self.values, self.second, second_cell);
        let count = lesser(first.len(), second.len());
        self.first_next = behind(self.first, first_cell, count);
        self.second_next = behind(self.second, second_cell, count);
        Some(PiecePair {
            first: front(&first, count),
            second: front(&second, count),
        })
    }
}

fn lesser(a: usize, b: usize) -> usize
    ensures { result ≡ min a b }
{
    if a <= b { a } else { b }
}

/// So many values from the front of a piece.
fn front<'a>(piece: &Piece<'a>, count: usize) -> Piece<'a>
    requires some { 1 ≤ count }
    requires within { count ≤ length (values_of piece.now) }
    ensures { values_of result ≡ take count (values_of piece.now) }
{
    match piece {
        Piece::Small { items } => Piece::Small {
            items: &items[..count],
        },
        Piece::Blank { count: len } => {
            let _len = *len;
            Piece::Blank {
                count: count as u32,
            }
        }
        Piece::One(seen) => Piece::One(lent_on(seen)),
    }
}

/// The same value, lent.
fn lent_on<'a>(seen: &Seen<'a>) -> Seen<'a>
    ensures { lent result ≡ lent seen.now }
{
    match seen {
        Seen::Number(number) => Seen::Number(*number),
        Seen::Words(text) => Seen::Words(text),
        Seen::Bad(fault) => Seen::Bad(*fault),
        Seen::Blank => Seen::Blank,
    }
}
