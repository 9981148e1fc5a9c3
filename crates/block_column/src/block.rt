ghost use Rattle.std.specs.Prelude.{◌≡◌};
ghost use Rattle.block_column.specs.Kinds.{kind_of, kind_text, same_kind};

use crate::slot::Slot;
use run_tables::Piece;

/// The kind of what a row holds.
#[derive(Clone, Copy, Debug, PartialEq, Eq)]
pub enum Kind {
    Empty,
    Number,
    Words,
    Bad,
    Raw,
    Formula,
}

impl Kind {
    /// The word that a list of blocks is printed with.
    pub fn word(self) -> &'static str
        ensures { result.now ≡ kind_text self }
    {
        match self {
            Kind::Empty => "empty",
            Kind::Number => "number",
            Kind::Words => "text",
            Kind::Bad => "error",
            Kind::Raw => "raw",
            Kind::Formula => "formula",
        }
    }

    pub(crate) fn is(self, other: Kind) -> bool
        ensures { result ≡ same_kind self other }
    {
        self == other
    }
}

impl Slot {
    pub fn kind(&self) -> Kind
        ensures { result ≡ kind_of self.now }
    {
        match self {
            Slot::Empty => Kind::Empty,
            Slot::Number(_number) => Kind::Number,
            Slot::Words(_text) => Kind::Words,
            Slot::Bad(_fault) => Kind::Bad,
            Slot::Raw(_text) => Kind::Raw,
            Slot::Formula(_id) => Kind::Formula,
        }
    }
}

/// Neighbouring rows that hold slots of one kind.
#[derive(Clone, Copy, Debug, PartialEq, Eq)]
pub struct Block {
    pub first: u32,
    pub last: u32,
    pub kind: Kind,
}

impl Piece for Block {
    ghost use Rattle.block_column.specs.Kinds.{same_kind};
    ghost use Rattle.block_column.specs.KindTests.{kinds-decided};

    type Key = Kind;

    ghost run = { λ b. record { first = b.first; last = b.last; key = b.kind } };

    ghost same = { same_kind };

    ghost decides = { kinds-decided };

    fn first(&self) -> u32 {
        self.first
    }

    fn last(&self) -> u32 {
        self.last
    }

    fn is_like(&self, other: &Self) -> bool {
        self.kind.is(other.kind)
    }

    fn placed(&self, first: u32, last: u32) -> Self {
        Block {
            first,
            last,
            kind: self.kind,
        }
    }
}
