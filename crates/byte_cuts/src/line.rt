ghost use Rattle.std.specs.Iterator.{YieldsFirstBy, item_count};
ghost use Rattle.std.specs.Prelude.{[], ◌∷◌, ◌≡◌, ◌≢◌};
ghost use Rattle.byte_cuts.specs.Lines.{lines_of};

use crate::place::cut;
use std::marker::Model;

/// The byte that ends a line.
pub const LINE_FEED: u8 = b'\n';

/// The lines of a text that are still to come. Contracts see them as their list.
#[derive(Drop)]
pub struct TextLines<'a> {
    rest: &'a [u8],
}

impl<'a> Model for TextLines<'a> {
    ghost use Rattle.std.specs.Prelude.{List, ℕ};
    ghost use Rattle.byte_cuts.specs.Lines.{lines_of};

    ghost Value = { List (List ℕ) };

    ghost view = { λ lines. lines_of lines.rest.now };
}

/// The lines of a text in order, without their line feeds. What follows the last line feed is a line
/// where it isn't empty.
pub fn lines(text: &[u8]) -> TextLines<'_>
    ensures { result ≡ lines_of text.now }
{
    TextLines { rest: text }
}

impl<'a> Iterator for TextLines<'a> {
    type Item = &'a [u8];

    ghost next_gives = { YieldsFirstBy (λ line. line.now) (λ lines. lines) };

    ghost remaining = { item_count (λ lines. lines) };

    fn next(&mut self) -> Option<&'a [u8]> {
        if self.rest.is_empty() {
            return None;
        }
        let (line, rest) = cut_line(self.rest);
        self.rest = rest;
        Some(line)
    }
}

/// The first line of a text that isn't empty, and what follows its line feed.
fn cut_line(text: &[u8]) -> (&[u8], &[u8])
    requires { text.now ≢ [] }
    ensures { lines_of text.now ≡ result.0.now ∷ lines_of result.1.now }
{
    cut(text, LINE_FEED)
}
