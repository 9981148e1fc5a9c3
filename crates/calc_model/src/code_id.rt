ghost use Rattle.std.specs.Prelude.{◌≡◌, ◌<◌, ◌^◌};

use std::marker::Model;

/// The number of a code in a table of codes. Contracts see it as that number, which is below 2^24.
#[derive(Clone, Copy, Debug, PartialEq, Eq)]
pub struct CodeId {
    number: u32,
}

impl Model for CodeId {
    ghost use Rattle.std.specs.Prelude.{ℕ, ◌<◌, ◌^◌};

    ghost Value = { ℕ };

    ghost view = { λ id. id.number };

    ghost invariant = { λ id. id.number < 2 ^ 24 };

    ghost inverse = { λ n. record { number = n } };
}

impl CodeId {
    /// How many numbers there are.
    pub const COUNT: u32 = 1 << 24;

    pub fn of(number: u32) -> CodeId
        requires { number < 2 ^ 24 }
        ensures { result ≡ number }
    {
        CodeId { number }
    }

    pub fn number(self) -> u32
        ensures value { result ≡ self }
        ensures below { result < 2 ^ 24 }
    {
        self.number
    }
}
