//! What cells are compared with by criteria and searches.
ghost use Rattle.std.specs.Prelude.{◌≡◌};
ghost use Rattle.calc_model.specs.Arguments.{meaning_of};
ghost use Rattle.calc_model.specs.Criteria.{order_in_kind};
ghost use Rattle.calc_model.specs.Parameters.{key, key_of};
ghost use Rattle.calc_model.specs.ValueTexts.{lent};
ghost use Rattle.calc_model.specs.declared.value.Value.TheVariants as value;
ghost use Rattle.fn_args.specs.Lent.{wanted_lent, wanted_value};

use crate::answers::scalar;
use calc_addr::Cell;
use calc_model::{Arg, Fault, Seen, Values};
use calc_num::Num;
use std::cmp::Ordering;

/// A number, or the bytes of a text where it lies.
#[derive(Clone, Copy)]
pub enum Wanted<'a> {
    Number(Num),
    Words(&'a [u8]),
}

/// What a parameter asks cells to be compared with, or its error. Blank is 0.
pub fn wanted_by<'a, V: Values>(
    arg: &'a Arg,
    home: Cell,
    values: &'a V,
) -> Result<Wanted<'a>, Fault>
    ensures { wanted_lent result ≡ key (meaning_of home (V.values values.entry.now) arg.entry.now) }
{
    let seen = scalar(arg, home, values);
    wanted_of(&seen)
}

fn wanted_of<'a>(seen: &Seen<'a>) -> Result<Wanted<'a>, Fault>
    ensures { wanted_lent result ≡ key_of (lent seen.now) }
{
    match seen {
        Seen::Number(number) => Ok(Wanted::Number(*number)),
        Seen::Words(text) => Ok(Wanted::Words(text.bytes())),
        Seen::Bad(fault) => Err(*fault),
        Seen::Blank => Ok(Wanted::Number(Num::default())),
    }
}

/// How a cell compares with a value of its own kind, number or text.
pub fn order_in_kind(seen: &Seen<'_>, with: &Wanted<'_>) -> Option<Ordering>
    ensures { result ≡ order_in_kind (lent seen.now) (wanted_value with.now) }
{
    match seen {
        Seen::Number(number) => order_of_number(*number, with),
        Seen::Words(text) => order_of_words(text.bytes(), with),
        Seen::Bad(_fault) => None,
        Seen::Blank => None,
    }
}

fn order_of_number(number: Num, with: &Wanted<'_>) -> Option<Ordering>
    ensures { result ≡ order_in_kind (value.Number number) (wanted_value with.now) }
{
    match with {
        Wanted::Number(other) => Some(number.raw().cmp(&other.raw())),
        Wanted::Words(_bytes) => None,
    }
}

fn order_of_words(bytes: &[u8], with: &Wanted<'_>) -> Option<Ordering>
    ensures { result ≡ order_in_kind (value.Words bytes.now) (wanted_value with.now) }
{
    match with {
        Wanted::Number(_number) => None,
        Wanted::Words(other) => Some(bytes.cmp(other)),
    }
}
