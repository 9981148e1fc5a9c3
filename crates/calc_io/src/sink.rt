ghost use Rattle.std.specs.Prelude.{◌≡◌, ◌<◌, ◌≤◌, length, IsOk, IfOk, OnErr, MatchResult};
ghost use Rattle.std.specs.Io.{WritesAtMost};
ghost use Rattle.std.specs.Io.KnownBytes.{WriteAppends};
ghost use Rattle.calc_io.specs.Faults.{Rose};
ghost use Rattle.calc_io.specs.Sink.{HasRoom, RoomFalls};

use crate::faults::Failed;

/// Where the output goes.
///
/// A call counts its own failure in `faults` and answers `Failed` for no other reason.
pub trait Sink {
    ghost use Rattle.std.specs.Prelude.{ℕ, List, Option};

    /// The bytes that were written, where they are told.
    ghost written: { Self → Option (List ℕ) };

    /// How many more bytes it is sure to take, where that is told.
    ghost room: { Self → Option ℕ };

    /// How many calls have failed, up to 2^64 - 1.
    ghost faults: { Self → ℕ };

    /// Takes bytes from the front of `piece`, and answers how many: at least one, unless `piece` is
    /// empty.
    fn write(&mut self, piece: &[u8]) -> Result<usize, Failed>
        ensures bound { WritesAtMost result piece.now }
        ensures some { IfOk result (λ taken. 0 < length piece.now → 0 < taken) }
        ensures bytes { WriteAppends (written self.old) (written self.new) result piece.now }

        ensures room { MatchResult result (λ taken. RoomFalls (room self.old) (room self.new) taken)
            (λ _. RoomFalls (room self.old) (room self.new) 0) }
        ensures fits { HasRoom (room self.old) (length piece.now) → IsOk result }

        ensures later { faults self.old ≤ faults self.new }
        ensures cause { OnErr result (Rose (faults self.old) (faults self.new)) }
        ensures no_fault { HasRoom (room self.old) (length piece.now)
            → faults self.new ≡ faults self.old };
}
