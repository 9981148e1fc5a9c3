ghost use Rattle.calc_script.specs.Words.{behind_space, is_idle, is_space, up_to_space, without_return, without_spaces, words_of};
ghost use Rattle.std.specs.Iterator.{YieldsFirstBy, item_count};
ghost use Rattle.std.specs.List.{list_all, prefix_len};
ghost use Rattle.std.specs.Prelude.{IfSome, MatchOption, [], length, ◌∷◌, ◌≡◌, ◌≤◌};
ghost use Rattle.std.specs.Str.{IsUtf8};

use byte_cuts::cut;
use std::marker::Model;

/// The words of a text that are still to come. Contracts see them as their list.
#[derive(Drop)]
pub(crate) struct LineWords<'a> {
    rest: &'a [u8],
}

impl<'a> Model for LineWords<'a> {
    ghost use Rattle.std.specs.Prelude.{List, ℕ};
    ghost use Rattle.calc_script.specs.Words.{words_of};

    ghost Value = { List (List ℕ) };

    ghost view = { λ words. words_of words.rest.now };
}

/// The words of a text in order.
pub(crate) fn words(text: &[u8]) -> LineWords<'_>
    ensures { result ≡ words_of text.now }
{
    LineWords { rest: text }
}

impl<'a> Iterator for LineWords<'a> {
    type Item = &'a [u8];

    ghost next_gives = { YieldsFirstBy (λ word. word.now) (λ words. words) };

    ghost remaining = { item_count (λ words. words) };

    fn next(&mut self) -> Option<&'a [u8]> {
        let (word, rest) = first_word(self.rest)?;
        self.rest = rest;
        Some(word)
    }
}

/// The first word of a text, and what follows the space behind it.
pub(crate) fn first_word(text: &[u8]) -> Option<(&[u8], &[u8])>
    ensures words { MatchOption result (words_of text.now ≡ [])
        (λ parts. words_of text.now ≡ parts.0.now ∷ words_of parts.1.now) }
    ensures text { IsUtf8 text.now → IfSome result (λ parts. IsUtf8 parts.0.now) }
{
    let text = without_spaces(text);
    if text.is_empty() {
        return None;
    }
    Some(cut_word(text))
}

/// What stands before the first space, or all, and what stands after it, or nothing.
pub(crate) fn cut_word(text: &[u8]) -> (&[u8], &[u8])
    ensures word { result.0.now ≡ up_to_space text.now }
    ensures rest { result.1.now ≡ behind_space text.now }
{
    cut(text, b' ')
}

/// The text without the spaces at its front.
pub(crate) fn without_spaces(text: &[u8]) -> &[u8]
    ensures { result.now ≡ without_spaces text.now }
{
    &text[count_spaces(text)..]
}

/// How many spaces stand at the text's front.
fn count_spaces(text: &[u8]) -> usize
    ensures within { result ≤ length text.now }
    ensures spaces { result ≡ prefix_len is_space text.now }
{
    text.iter().take_while(|byte| **byte == b' ').count()
}

/// The line without the carriage return at its end.
pub(crate) fn without_return(line: &[u8]) -> &[u8]
    ensures { result.now ≡ without_return line.now }
{
    match line.last() {
        Some(b'\r') => &line[..line.len() - 1],
        _ => line,
    }
}

/// Whether a line does nothing: it is empty, has spaces alone, or is a comment.
pub(crate) fn is_idle(text: &[u8]) -> bool
    ensures { result ≡ is_idle text.now }
{
    text.starts_with(b"#") || are_spaces(text)
}

fn are_spaces(text: &[u8]) -> bool
    ensures { result ≡ list_all is_space text.now }
{
    text.iter().all(|byte| *byte == b' ')
}
