ghost use Rattle.std.specs.Prelude.{◌≡◌, length};
ghost use Rattle.value_column.specs.Spans.{span_values};

use calc_model::{Fault, Text};

/// The values of neighbouring rows of one kind, lent from their list.
#[derive(Clone, Copy, Debug)]
pub enum ValueSpan<'a> {
    /// Numbers, by their raw numbers.
    Small { first: u32, items: &'a [i64] },
    /// Numbers whose raw numbers need more than 64 bits.
    Wide { first: u32, items: &'a [i128] },
    Words { first: u32, items: &'a [Text] },
    Faults { first: u32, items: &'a [Fault] },
    Blank { first: u32, count: u32 },
}

impl ValueSpan<'_> {
    /// How many rows it has.
    pub fn len(&self) -> usize
        ensures { result ≡ length (span_values self.now) }
    {
        match self {
            ValueSpan::Small { first: _, items } => items.len(),
            ValueSpan::Wide { first: _, items } => items.len(),
            ValueSpan::Words { first: _, items } => items.len(),
            ValueSpan::Faults { first: _, items } => items.len(),
            ValueSpan::Blank { first: _, count } => *count as usize,
        }
    }
}
