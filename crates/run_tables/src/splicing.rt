ghost use Rattle.std.specs.Prelude.{◌≡◌, ◌≤◌, ◌<◌, ◌+◌, ◌-◌, ◌^◌, ◌++◌, List, Option, length, map, take, drop, vec_len, OnOk, OnErr, IsOk};
ghost use Rattle.std.specs.List.{All};
ghost use Rattle.std.specs.Option.{option_map, option_to_list};
ghost use Rattle.std.specs.Vec.{vec_capacity};
ghost use Rattle.run_tables.specs.Rows.{spliced};
ghost use Rattle.run_tables.specs.Runs.{Rises, moved, runs_of};
ghost use Rattle.run_tables.specs.Edges.{HasSmallRows, IsPast, filled_run, past, run_before, right_run, up_to};

use crate::edges::{meet_pieces, move_pieces, moved_piece};
use crate::piece::Piece;
use crate::search::{first_ending_past, first_past};
use std::alloc::AllocError;

/// The run in front of a place, without its rows past `row`.
fn left_part<P: Piece>(table: &[P], place: usize, row: u32) -> Option<P>
    requires { place ≤ length table.now }
    ensures { option_map P.run result
        ≡ option_map (up_to row) (run_before (map P.run table.now) place) }
{
    if place == 0 {
        return None;
    }
    let piece = table[place - 1];
    Some(piece.placed(piece.first(), piece.last().min(row)))
}

/// The run at a place, without its rows up to `row`, when the rows past it go on past `to`.
fn right_part<P: Piece>(table: &[P], place: usize, row: u32, to: u32) -> Option<P>
    requires small { All (λ p. HasSmallRows (P.run p)) table.now }
    requires from { row + 1 < 2 ^ 31 }
    requires to { to < 2 ^ 31 }
    ensures { option_map P.run result ≡ right_run row to (map P.run table.now) place }
{
    if place >= table.len() {
        return None;
    }
    let piece = table[place];
    let rest = piece.placed(piece.first().max(row + 1), piece.last());
    Some(moved_piece(rest, row, to))
}

/// The rows behind `row` that hold the key of a piece.
fn fill_part<P: Piece>(row: u32, rows: u32, key: Option<P>) -> Option<P>
    requires { row + rows < 2 ^ 31 }
    ensures { option_map P.run result
        ≡ filled_run row rows (option_map (λ p. (P.run p).key) key) }
{
    let piece = key?;
    if rows == 0 {
        return None;
    }
    Some(piece.placed(row + 1, row + rows))
}

/// Puts a piece over the first of the places from `from` to `to`, or in front of them where there
/// is none.
fn put<P: Piece>(table: &mut Vec<P>, from: usize, to: usize, piece: Option<P>) -> (usize, usize)
    requires order { from ≤ to }
    requires within { to ≤ vec_len table.old }
    requires room { vec_len table.old < vec_capacity table.old }
    ensures front { take result.0 table.new.items
        ≡ take from table.old.items ++ option_to_list piece }
    ensures back { drop result.1 table.new.items ≡ drop to table.old.items }
    ensures order { result.0 ≤ result.1 }
    ensures within { result.1 ≤ vec_len table.new }
    ensures len { vec_len table.new ≤ vec_len table.old + 1 }
    ensures capacity { vec_capacity table.old ≤ vec_capacity table.new }
{
    match piece {
        None => (from, to),
        Some(piece) => {
            if from < to {
                table[from] = piece;
                (from + 1, to)
            } else {
                let _ = table.insert(from, piece);
                (from + 1, from + 1)
            }
        }
    }
}

/// Takes out the places from `from` to `to`.
fn cut_out<P: Piece>(table: &mut Vec<P>, from: usize, to: usize)
    requires order { from ≤ to }
    requires within { to ≤ vec_len table.old }
    ensures items { table.new.items ≡ take from table.old.items ++ drop to table.old.items }
    ensures len { vec_len table.new ≤ vec_len table.old }
    ensures capacity { vec_capacity table.new ≡ vec_capacity table.old }
{
    if from < to {
        let rest = table.len() - (to - from);
        table[from..].rotate_left(to - from);
        table.truncate(rest);
    }
}

/// Puts up to three pieces in the places from `from` to `to`.
fn replace<P: Piece>(
    table: &mut Vec<P>,
    from: usize,
    to: usize,
    first: Option<P>,
    second: Option<P>,
    third: Option<P>,
)
    requires order { from ≤ to }
    requires within { to ≤ vec_len table.old }
    requires room { vec_len table.old + 3 ≤ vec_capacity table.old }
    ensures items { table.new.items
        ≡ take from table.old.items
        ++ (option_to_list first ++ (option_to_list second ++ (option_to_list third
        ++ drop to table.old.items))) }
    ensures len { vec_len table.new ≤ vec_len table.old + 3 }
    ensures capacity { vec_capacity table.old ≤ vec_capacity table.new }
{
    let (from, to) = put(table, from, to, first);
    let (from, to) = put(table, from, to, second);
    let (from, to) = put(table, from, to, third);
    cut_out(table, from, to);
}

/// The runs from a place on are of rows past `from`, which go on past `to`.
fn move_tail<P: Piece>(table: &mut Vec<P>, place: usize, from: u32, to: u32)
    requires within { place ≤ vec_len table.old }
    requires small { All (λ p. HasSmallRows (P.run p)) table.old.items }
    requires past { All (λ p. IsPast from (P.run p)) (drop place table.old.items) }
    requires to { to < 2 ^ 31 }
    ensures front { take place table.new.items ≡ take place table.old.items }
    ensures back { map P.run (drop place table.new.items)
        ≡ map (moved from to) (map P.run (drop place table.old.items)) }
    ensures len { vec_len table.new ≡ vec_len table.old }
    ensures capacity { vec_capacity table.new ≡ vec_capacity table.old }
{
    if from != to {
        move_pieces(&mut table[place..], from, to);
    }
}

/// The rows from the one behind `from` to `to` become `rows` rows that hold the key of a piece, or
/// none.
///
/// At most three places more are taken. It is logarithmic in the runs, and linear in those behind
/// the rows where their number changes, or the number of runs does.
pub fn splice<P: Piece>(
    table: &mut Vec<P>,
    from: u32,
    to: u32,
    rows: u32,
    key: Option<P>,
) -> Result<(), AllocError>
    requires order { from ≤ to }
    requires in_order { Rises 1 (map P.run table.old.items) }
    requires small { All (λ p. HasSmallRows (P.run p)) table.old.items }
    requires to { to + 1 < 2 ^ 31 }
    requires rows { from + rows < 2 ^ 31 }
    ensures done { OnOk result ((s : List (Option P.Key)) → to ≤ length s →
        map P.run table.old.items ≡ runs_of P.same s → map P.run table.new.items
        ≡ runs_of P.same (spliced from to rows (option_map (λ p. (P.run p).key) key) s)) }
    ensures kept { OnErr result (table.new.items ≡ table.old.items) }
    ensures len { vec_len table.new ≤ vec_len table.old + 3 }
    ensures capacity { vec_capacity table.old ≤ vec_capacity table.new }
    ensures succeeds { vec_len table.old + 3 ≤ vec_capacity table.old → IsOk result }
{
    table.reserve(3)?;
    let runs = table.as_slice();
    let low = first_past(runs, from);
    let high = first_ending_past(runs, to);
    let left = left_part(runs, low, from);
    let right = right_part(runs, high, to, from + rows);
    let (middle, third) = meet_pieces(fill_part(from, rows, key), right);
    let (first, second) = meet_pieces(left, middle);
    let start = low.saturating_sub(1);
    let end = runs.len().min(high + 1);
    move_tail(table, end, to, from + rows);
    replace(table, start, end, first, second, third);
    Ok(())
}
