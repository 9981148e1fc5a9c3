ghost use Rattle.std.specs.Prelude.{◌≡◌, ◌≤◌, length, map, IfSome};
ghost use Rattle.std.specs.List.{Contains};
ghost use Rattle.std.specs.Option.{option_map};
ghost use Rattle.run_tables.specs.Runs.{Rises, entry};
ghost use Rattle.run_tables.specs.Edges.{IsFirstPast, IsFirstEndingPast};

use crate::piece::Piece;

/// The place of the first run that begins past a row, or the number of runs. It takes logarithmic
/// time.
pub fn first_past<P: Piece>(table: &[P], row: u32) -> usize
    ensures within { result ≤ length table.now }
    ensures place { IsFirstPast row (map P.run table.now) result }
{
    let mut low = 0;
    let mut high = table.len();
    while low < high {
        let middle = low + (high - low) / 2;
        if table[middle].first() <= row {
            low = middle + 1;
        } else {
            high = middle;
        }
    }
    low
}

/// The place of the first run that ends past a row, or the number of runs. It takes logarithmic
/// time.
pub fn first_ending_past<P: Piece>(table: &[P], row: u32) -> usize
    ensures within { result ≤ length table.now }
    ensures place { IsFirstEndingPast row (map P.run table.now) result }
{
    let mut low = 0;
    let mut high = table.len();
    while low < high {
        let middle = low + (high - low) / 2;
        if table[middle].last() <= row {
            low = middle + 1;
        } else {
            high = middle;
        }
    }
    low
}

/// The run that has a row, if there is one. It takes logarithmic time.
pub fn piece_at<P: Piece>(table: &[P], row: u32) -> Option<P>
    requires { Rises 1 (map P.run table.now) }
    ensures key { option_map (λ p. (P.run p).key) result ≡ entry row (map P.run table.now) }
    ensures held { IfSome result (Contains table.now) }
    ensures from { IfSome result (λ p. (P.run p).first ≤ row) }
    ensures to { IfSome result (λ p. row ≤ (P.run p).last) }
{
    let place = first_past(table, row);
    if place == 0 {
        return None;
    }
    let piece = table[place - 1];
    if piece.last() < row {
        return None;
    }
    Some(piece)
}
