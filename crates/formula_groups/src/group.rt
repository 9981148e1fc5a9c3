use calc_model::CodeId;
use run_tables::Piece;

/// Neighbouring rows whose formulas have one code.
#[derive(Clone, Copy, Debug, PartialEq, Eq)]
pub struct Group {
    pub first: u32,
    pub last: u32,
    pub code: CodeId,
}

impl Piece for Group {
    ghost use Rattle.std.specs.Prelude.{◌==◌};
    ghost use Rattle.std.proofs.lemmas.Bool.Decides.{Decides-eqb};

    type Key = CodeId;

    ghost run = { λ g. record { first = g.first; last = g.last; key = g.code } };

    ghost same = { λ k l. k == l };

    ghost decides = { λ k l. Decides-eqb k l };

    fn first(&self) -> u32 {
        self.first
    }

    fn last(&self) -> u32 {
        self.last
    }

    fn is_like(&self, other: &Self) -> bool {
        self.code == other.code
    }

    fn placed(&self, first: u32, last: u32) -> Self {
        Group {
            first,
            last,
            code: self.code,
        }
    }
}
