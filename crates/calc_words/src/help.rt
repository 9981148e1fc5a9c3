//! What `--help` and `--version` ask for.
ghost use Rattle.calc_words.specs.Words.{IsEither, words_of};
ghost use Rattle.std.specs.Prelude.{◌≡◌, ◌⊎◌, IfSome, IsSome, None, codes};

use calc_model::Text;

/// The answer to `--help`.
pub const HELP: &str = "Usage: calc [--workers N] BOOK < SCRIPT

Calculates a book of comma-separated values by the commands of a script, and prints what they ask for.

  BOOK         the file of the book; a field of it that begins with = is a formula
  --workers N  the number of workers, from 1 to 64; without it 4
  --help       this text, and --version the number of the version

A script has one command on a line, and what it prints comes before the next line is looked at:
  set B2 =[.A2]*2   clear B2:B9   copy A1:B2 D1   fill B2 B3:B9      cells
  insert 3 2   delete 3 2   name PRICES B2:B9   unname PRICES        rows and names
  calc   print A1:D9   formulas A1:D9                                values and formulas
  watch A1:D9   told   unwatch                                       what changed
docs/formats.md beside the sources describes books, formulas, scripts and every refusal.
";

/// The answer to `--version`.
pub const VERSION: &str = "calc 0.1.0
";

/// The answer to the words, where one of `--help`, `-h`, `--version` and `-V` is all that they are. None of
/// these is of the command.
pub fn answer(words: &[Text]) -> Option<&'static str>
    ensures refused { IsSome result → words_of words.now ≡ None }
    ensures help { IsEither (codes "--help") (codes "-h") words.now
        → IfSome result (λ text. text.now ≡ HELP.now) }
    ensures version { IsEither (codes "--version") (codes "-V") words.now
        → IfSome result (λ text. text.now ≡ VERSION.now) }
    ensures only { IsSome result → IsEither (codes "--help") (codes "-h") words.now
        ⊎ IsEither (codes "--version") (codes "-V") words.now }
{
    match words {
        [word] => match word.as_str() {
            "--help" | "-h" => Some(HELP),
            "--version" | "-V" => Some(VERSION),
            _ => None,
        },
        _ => None,
    }
}
