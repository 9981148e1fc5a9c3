// What contracts see in a pass of either board, and how passes are split and joined.
use atomic_table::{Join, Split};
use std::collections::LinkedList;

/// What contracts see in a pass. No value of it is made.
pub struct PassView {
    /// How many units or bits the board has.
    pub size: u64,
    /// How many passes may still be split off.
    pub rights: u64,
    /// How many passes it holds: itself, and those that were joined into it.
    pub passes: u64,
    /// The units that it drew or the bits that it marked first, and those of the passes joined into
    /// it, in the order of these calls.
    pub listed: LinkedList<u64>,
    /// The bits that it found marked, and those of the passes joined into it, in the same order. A
    /// draw pass has the number of units here, once for each of its draws that was answered None. It
    /// is closed where there is one.
    pub missed: LinkedList<u64>,
}

pub struct Splits;

pub struct Joins;

impl Split<PassView> for Splits {
    ghost use Rattle.work_board.specs.Views.{one_right_less, new_view};

    ghost left = { one_right_less };

    ghost right = { λ v. new_view v.size };
}

impl Join<PassView> for Joins {
    ghost use Rattle.work_board.specs.Views.{both, spent_view};

    ghost both = { both };

    ghost spent = { spent_view };
}
