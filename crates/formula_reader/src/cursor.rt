ghost use Rattle.byte_cuts.specs.Fronts.{behind};
ghost use Rattle.calc_model.specs.Tokens.{is_blank};
ghost use Rattle.formula_reader.specs.Unread.{Leaves, next_is, past, skip, token_at, unread_of};
ghost use Rattle.std.specs.List.{prefix_len};
ghost use Rattle.std.specs.Prelude.{length, ◌≡◌, ◌≤◌};

use calc_addr::NoMemory;
use std::alloc::AllocFailed;

/// Why reading stops.
#[derive(Clone, Copy)]
pub(crate) enum Stop {
    NoMemory,
    /// No formula is spelled within the limits.
    Unspelled,
}

impl From<NoMemory> for Stop {
    ghost use Rattle.std.specs.Prelude.{◌≡◌};
    ghost use Rattle.formula_reader.specs.declared.cursor.Stop.TheVariants as stops;

    ghost from_gives = { λ _ stop. stop ≡ stops.NoMemory };

    fn from(_refused: NoMemory) -> Stop {
        Stop::NoMemory
    }
}

impl<T: Drop> From<AllocFailed<T>> for Stop {
    ghost use Rattle.std.specs.Prelude.{◌≡◌};
    ghost use Rattle.formula_reader.specs.declared.cursor.Stop.TheVariants as stops;

    ghost from_gives = { λ _ stop. stop ≡ stops.NoMemory };

    fn from(_refused: AllocFailed<T>) -> Stop {
        Stop::NoMemory
    }
}

/// What is left to read.
#[derive(Drop)]
pub(crate) struct Cursor<'a> {
    /// The bytes that aren't read, without blanks in front.
    pub bytes: &'a [u8],
    /// How many tokens may still be taken.
    pub tokens: usize,
}

impl<'a> Cursor<'a> {
    /// Takes a token that these bytes stand behind, and the blanks behind it.
    pub fn past(&mut self, rest: &'a [u8]) -> Result<(), Stop>
        ensures { Leaves result self.new (past self.old.tokens rest.now) }
    {
        if self.tokens == 0 {
            return Err(Stop::Unspelled);
        }
        self.bytes = skip(rest);
        self.tokens -= 1;
        Ok(())
    }

    /// Takes a token of this one byte.
    pub fn token(&mut self, byte: u8) -> Result<(), Stop>
        ensures { Leaves result self.new (token_at byte (unread_of self.old)) }
    {
        match self.bytes {
            [first, rest @ ..] if *first == byte => self.past(rest),
            _ => Err(Stop::Unspelled),
        }
    }

    /// Whether the next byte is this one.
    pub fn next_is(&self, byte: u8) -> bool
        ensures { result ≡ next_is byte self.now.bytes.now }
    {
        match self.bytes.split_first() {
            Some((first, _)) => *first == byte,
            None => false,
        }
    }
}

/// The bytes without the blanks in front.
pub(crate) fn skip(bytes: &[u8]) -> &[u8]
    ensures { result.now ≡ skip bytes.now }
{
    &bytes[blanks_len(bytes)..]
}

fn blanks_len(bytes: &[u8]) -> usize
    ensures within { result ≤ length bytes.now }
    ensures blanks { result ≡ prefix_len is_blank bytes.now }
{
    bytes.iter().take_while(|byte| is_blank(**byte)).count()
}

/// Whether the byte may stand between tokens.
fn is_blank(byte: u8) -> bool
    ensures { result ≡ is_blank byte }
{
    byte <= b' ' && matches!(byte, b' ' | b'\t' | b'\n' | b'\r')
}
