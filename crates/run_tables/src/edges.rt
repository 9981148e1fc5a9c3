ghost use Rattle.std.specs.Prelude.{◌≡◌, ◌≤◌, ◌<◌, ◌^◌, length, map};
ghost use Rattle.std.specs.List.{All};
ghost use Rattle.std.specs.Option.{option_map};
ghost use Rattle.run_tables.specs.Runs.{moved};
ghost use Rattle.run_tables.specs.Edges.{HasSmallRows, IsMet};

use crate::piece::Piece;

/// Two neighbours, joined where the second goes on with the key of the first.
pub(crate) fn meet_pieces<P: Piece>(left: Option<P>, right: Option<P>) -> (Option<P>, Option<P>)
    ensures { IsMet P.same (option_map P.run left) (option_map P.run right)
        (option_map P.run result.0) (option_map P.run result.1) }
{
    match (left, right) {
        (Some(left), Some(right)) => {
            let next = right.first();
            if next > 0 && left.last() == next - 1 && left.is_like(&right) {
                (Some(left.placed(left.first(), right.last())), None)
            } else {
                (Some(left), Some(right))
            }
        }
        (Some(left), None) => (Some(left), None),
        (None, right) => (right, None),
    }
}

/// A run of rows past `from`, when these go on past `to`.
pub(crate) fn moved_piece<P: Piece>(piece: P, from: u32, to: u32) -> P
    requires small { HasSmallRows (P.run piece) }
    requires place { to < 2 ^ 31 }
    ensures { P.run result ≡ moved from to (P.run piece) }
{
    let first = piece.first().saturating_sub(from) + to;
    let last = piece.last().saturating_sub(from) + to;
    piece.placed(first, last)
}

/// The runs of rows past `from` go on past `to`. It is linear in the runs.
pub(crate) fn move_pieces<P: Piece>(pieces: &mut [P], from: u32, to: u32)
    requires small { All (λ p. HasSmallRows (P.run p)) pieces.old }
    requires place { to < 2 ^ 31 }
    ensures { map P.run pieces.new ≡ map (moved from to) (map P.run pieces.old) }
{
    for piece in pieces.iter_mut() {
        *piece = moved_piece(*piece, from, to);
    }
}
