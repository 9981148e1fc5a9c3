ghost use Rattle.std.specs.Prelude.{◌≡◌, ◌+◌, ◌<◌, ◌≤◌, ◌^◌};
ghost use Rattle.block_column.specs.Counting.{counted, no_items, total};

use crate::block::Kind;

/// How many items of each kind there are.
#[derive(Clone, Copy, Debug)]
pub(crate) struct Counts {
    pub(crate) numbers: u32,
    pub(crate) words: u32,
    pub(crate) bad: u32,
    pub(crate) raw: u32,
    pub(crate) codes: u32,
}

impl Counts {
    pub(crate) fn none() -> Counts
        ensures { result ≡ no_items }
    {
        Counts {
            numbers: 0,
            words: 0,
            bad: 0,
            raw: 0,
            codes: 0,
        }
    }

    /// With so many more of a kind.
    pub(crate) fn with(self, kind: Kind, rows: u32) -> Counts
        requires { total self + rows < 2 ^ 31 }
        ensures { result ≡ counted kind rows self }
    {
        match kind {
            Kind::Empty => self,
            Kind::Number => Counts {
                numbers: self.numbers + rows,
                ..self
            },
            Kind::Words => Counts {
                words: self.words + rows,
                ..self
            },
            Kind::Bad => Counts {
                bad: self.bad + rows,
                ..self
            },
            Kind::Raw => Counts {
                raw: self.raw + rows,
                ..self
            },
            Kind::Formula => Counts {
                codes: self.codes + rows,
                ..self
            },
        }
    }
}
