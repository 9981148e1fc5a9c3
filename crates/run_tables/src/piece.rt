ghost use Rattle.std.specs.Prelude.{◌≡◌, Bool};
ghost use Rattle.std.specs.Bool.{Decides};
ghost use Rattle.run_tables.specs.Runs.{Run};

/// A run of neighbouring rows that hold one key, as an entry of a table.
pub trait Piece: Copy {
    /// What the rows hold.
    type Key;

    ghost run: { Self → Run Self.Key };

    ghost same: { Self.Key → Self.Key → Bool };

    /// The first row.
    fn first(&self) -> u32
        ensures { result ≡ (run self.now).first };

    /// The last row.
    fn last(&self) -> u32
        ensures { result ≡ (run self.now).last };

    /// Whether the keys are equal.
    fn is_like(&self, other: &Self) -> bool
        ensures { result ≡ same (run self.now).key (run other.now).key };

    /// The run of the same key from one row to another.
    fn placed(&self, first: u32, last: u32) -> Self
        ensures { run result ≡ record { first = first; last = last; key = (run self.now).key } };

    ghost decides: { (k l : Self.Key) → Decides (same k l) (k ≡ l) };
}
