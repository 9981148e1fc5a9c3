ghost use Rattle.calc_addr.specs.Ends.{AreEnds, cols_of, in_order, rows_of, whole};
ghost use Rattle.std.specs.Prelude.{false, ◌≡◌};

use crate::cell::{LAST_COL, LAST_ROW};
use crate::reference::Ref;

/// One coordinate of a reference, and whether a dollar sign marks it.
#[derive(Clone, Copy)]
pub(crate) struct End {
    pub(crate) at: u32,
    pub(crate) marked: bool,
}

/// The ends of a reference on one axis.
#[derive(Clone, Copy)]
pub(crate) struct Ends {
    pub(crate) first: End,
    pub(crate) last: End,
}

impl End {
    /// A coordinate without a mark.
    pub(crate) fn plain(at: u32) -> End
        ensures at { result.at ≡ at }
        ensures marked { result.marked ≡ false }
    {
        End { at, marked: false }
    }
}

impl Ends {
    /// The unmarked ends of a whole axis.
    pub(crate) fn whole(last: u32) -> Ends
        ensures { result ≡ whole last }
    {
        Ends {
            first: End::plain(1),
            last: End::plain(last),
        }
    }
}

pub(crate) fn in_order(first: End, last: End) -> Ends
    ensures { result ≡ in_order first last }
{
    if first.at <= last.at {
        Ends { first, last }
    } else {
        Ends {
            first: last,
            last: first,
        }
    }
}

/// The ends of a reference on the axis of columns.
pub(crate) fn cols_of(r: Ref) -> Ends
    ensures ends { result ≡ cols_of r }
    ensures inside { AreEnds LAST_COL result }
{
    Ends {
        first: End {
            at: u32::from(r.area.first_col),
            marked: r.marks.first_col,
        },
        last: End {
            at: u32::from(r.area.last_col),
            marked: r.marks.last_col,
        },
    }
}

/// The ends of a reference on the axis of rows.
pub(crate) fn rows_of(r: Ref) -> Ends
    ensures ends { result ≡ rows_of r }
    ensures inside { AreEnds LAST_ROW result }
{
    Ends {
        first: End {
            at: r.area.first_row,
            marked: r.marks.first_row,
        },
        last: End {
            at: r.area.last_row,
            marked: r.marks.last_row,
        },
    }
}
