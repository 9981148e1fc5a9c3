ghost use Rattle.std.specs.Iterator.{at_most};
ghost use Rattle.std.specs.Prelude.{◌≡◌, ◌+◌, ◌-◌, ◌≤◌, length};
ghost use Rattle.calc_addr.specs.declared.cell.TheConstants.{LAST_ROW};
ghost use Rattle.value_column.specs.Rows.{AreLanes};
ghost use Rattle.value_column.specs.Spans.{YieldsSpan, rows_left};

use crate::lanes::Lanes;
use crate::span::ValueSpan;
use std::marker::Model;

/// Rows of a column that are still to come, span by span. Contracts see the number of the first and
/// the list of their values.
#[derive(Drop)]
pub struct Spans<'a> {
    lanes: &'a Lanes,
    next: usize,
    end: usize,
}

impl<'a> Model for Spans<'a> {
    ghost use Rattle.std.specs.Prelude.{◌+◌, ◌-◌, ◌≤◌};
    ghost use Rattle.calc_addr.specs.declared.cell.TheConstants.{LAST_ROW};
    ghost use Rattle.value_column.specs.Spans.{RowsLeft, rows_left};
    ghost use Rattle.value_column.specs.Rows.{AreLanes};

    ghost Value = { RowsLeft };

    ghost view = { λ s.
        record {
          first = s.next + 1;
          values = rows_left s.lanes.now s.next (s.end - s.next);
        } };

    ghost invariant = { λ s. AreLanes s.lanes.now × (s.end ≤ LAST_ROW) };
}

impl<'a> Spans<'a> {
    /// The rows from the first to the one in front of the end.
    pub(crate) fn of(lanes: &'a Lanes, first: usize, end: usize) -> Spans<'a>
        requires lanes { AreLanes lanes.now }
        requires end { end ≤ LAST_ROW }
        ensures first { result.first ≡ first + 1 }
        ensures values { result.values ≡ rows_left lanes.entry.now first (end - first) }
    {
        Spans {
            lanes,
            next: first,
            end,
        }
    }
}

impl<'a> Iterator for Spans<'a> {
    type Item = ValueSpan<'a>;

    ghost next_gives = { YieldsSpan };

    ghost remaining = { λ rows. at_most (length rows.values) };

    fn next(&mut self) -> Option<ValueSpan<'a>> {
        if self.next >= self.end {
            return None;
        }
        let span = self.lanes.span(self.next, self.end);
        self.next += span.len();
        Some(span)
    }
}
