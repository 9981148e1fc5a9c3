ghost use Rattle.std.specs.Prelude.{◌≡◌, IfOk};
ghost use Rattle.calc_model.specs.Arguments.{meaning_of};
ghost use Rattle.calc_model.specs.Parameters.{text};
ghost use Rattle.calc_model.specs.Scalars.{words_of};
ghost use Rattle.calc_model.specs.ValueTexts.{lent};
ghost use Rattle.fn_args.specs.Lent.{words_in, words_lent};

use calc_addr::{Cell, NoMemory};
use calc_model::{Arg, Fault, Seen, Text, Value, Values, scalar_at};
use calc_num::Num;
use std::alloc::Global;

/// The text of a parameter, lent by a cell or the parameter, or made of a number.
#[derive(Drop)]
pub enum Words<'a> {
    Lent(&'a Text),
    Made(Text),
}

impl Words<'_> {
    /// Its bytes, in UTF-8.
    pub fn bytes(&self) -> &[u8]
        ensures { result.now ≡ words_in self.now }
    {
        match self {
            Words::Lent(text) => text.bytes(),
            Words::Made(text) => text.bytes(),
        }
    }
}

/// The parameter as a text.
pub fn text<'a, V: Values>(
    alloc: Global,
    arg: &'a Arg,
    home: Cell,
    values: &'a V,
) -> Result<Result<Words<'a>, Fault>, NoMemory>
    ensures { IfOk result (λ words. words_lent words
        ≡ text (meaning_of home (V.values values.entry.now) arg.entry.now)) }
{
    match arg {
        Arg::Scalar(value) => words_of(alloc, value.seen()),
        Arg::Area(area) => words_of(alloc, scalar_at(*area, home, values)),
    }
}

/// A value as a text.
fn words_of<'a>(alloc: Global, seen: Seen<'a>) -> Result<Result<Words<'a>, Fault>, NoMemory>
    ensures { IfOk result (λ words. words_lent words ≡ words_of (lent seen.entry)) }
{
    match seen {
        Seen::Number(number) => Ok(Ok(Words::Made(Text::of_number(alloc, number)?))),
        Seen::Words(text) => Ok(Ok(Words::Lent(text))),
        Seen::Bad(fault) => Ok(Err(fault)),
        Seen::Blank => Ok(Ok(Words::Made(Text::new(alloc)))),
    }
}

impl Words<'_> {
    /// The text.
    pub fn as_str(&self) -> &str
        ensures { result.now ≡ words_in self.now }
    {
        match self {
            Words::Lent(text) => text.as_str(),
            Words::Made(text) => text.as_str(),
        }
    }
}
