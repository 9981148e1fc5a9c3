ghost use Rattle.byte_cuts.specs.Fronts.{behind};
ghost use Rattle.calc_model.specs.Grammar.{in_capitals};
ghost use Rattle.calc_model.specs.Tokens.{is_in_identifier};
ghost use Rattle.formula_reader.specs.Operands.{name_of};
ghost use Rattle.formula_reader.specs.Unread.{Makes};
ghost use Rattle.std.specs.List.{prefix_len, take_while};
ghost use Rattle.std.specs.Prelude.{IfOk, length, ◌≡◌, ◌≤◌};
ghost use Rattle.std.specs.Str.{IsUtf8};

use crate::constant::to_text;
use crate::cursor::Stop;
use calc_addr::NoMemory;
use calc_model::{Text, Tree, is_in_identifier, is_name};
use sqlite_items::Boxed;
use std::alloc::Global;
use std::str;

/// The bytes of a word in front, and what stands behind.
pub(crate) fn split_word(bytes: &[u8]) -> (&[u8], &[u8])
    ensures word { result.0.now ≡ take_while is_in_identifier bytes.now }
    ensures rest { result.1.now ≡ behind is_in_identifier bytes.now }
{
    bytes.split_at(word_len(bytes))
}

fn word_len(bytes: &[u8]) -> usize
    ensures within { result ≤ length bytes.now }
    ensures word { result ≡ prefix_len is_in_identifier bytes.now }
{
    bytes
        .iter()
        .take_while(|byte| is_in_identifier(**byte))
        .count()
}

/// A name by its word.
pub(crate) fn name(alloc: Global, word: &[u8]) -> Result<Boxed<Tree>, Stop>
    ensures { Makes (λ tree. tree) result (name_of word.now) }
{
    if !is_name(word) {
        return Err(Stop::Unspelled);
    }
    Ok(Boxed::new(alloc, Tree::Name(to_text(alloc, word)?))?)
}

/// The word in capitals of ASCII.
pub(crate) fn capitals(alloc: Global, word: &[u8]) -> Result<Text, NoMemory>
    requires { IsUtf8 word.now }
    ensures { IfOk result (λ name. name ≡ in_capitals word.now) }
{
    let word = unsafe { str::from_utf8_unchecked(word) };
    let mut name = String::from_str(alloc, word)?;
    name.make_ascii_uppercase();
    Ok(Text::of(name))
}
