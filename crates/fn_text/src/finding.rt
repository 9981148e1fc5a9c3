//! FIND (OpenFormula, 6.20.9).
ghost use Rattle.std.specs.Prelude.{◌≡◌, ◌≤◌, IfOk};
ghost use Rattle.std.specs.Str.{chars};
ghost use Rattle.calc_model.specs.Arguments.{meanings_of};
ghost use Rattle.calc_model.specs.Texts.{counted_or_none, find_, found, place_of};
ghost use Rattle.fn_text.specs.Finding.{IsFirstPlace};

use crate::characters::{behind, char_count};
use calc_addr::{Cell, NoMemory};
use calc_model::{Arg, Fault, Value, Values};
use fn_args::{counted, text, whole};
use memchr::memmem;
use std::alloc::Global;

/// FIND: the number of the character at which a text first stands in another, not before that of the third
/// parameter.
pub fn fn_find<V: Values>(
    alloc: Global,
    args: &[Arg],
    home: Cell,
    values: &V,
) -> Result<Value, NoMemory>
    ensures { IfOk result (λ v. v ≡ find_ (meanings_of home (V.values values.now) args.now)) }
{
    match args {
        [x, y] => match text(alloc, x, home, values)? {
            Err(fault) => Ok(Value::Bad(fault)),
            Ok(sought) => match text(alloc, y, home, values)? {
                Err(fault) => Ok(Value::Bad(fault)),
                Ok(words) => Ok(found(sought.as_str(), words.as_str(), 1)),
            },
        },
        [x, y, start] => match text(alloc, x, home, values)? {
            Err(fault) => Ok(Value::Bad(fault)),
            Ok(sought) => match text(alloc, y, home, values)? {
                Err(fault) => Ok(Value::Bad(fault)),
                Ok(words) => match whole(start, home, values) {
                    Err(fault) => Ok(Value::Bad(fault)),
                    Ok(start) => Ok(found(sought.as_str(), words.as_str(), start)),
                },
            },
        },
        _ => Ok(Value::Bad(Fault::BadValue)),
    }
}

/// The number of the character at which a text first stands in another, from a number on.
fn found(sought: &str, words: &str, start: i64) -> Value
    ensures { result ≡ found sought.now words.now start }
{
    if start < 1 {
        return Value::Bad(Fault::BadValue);
    }
    found_from(sought, words, start as usize)
}

/// The same from a number of 1 or more.
fn found_from(sought: &str, words: &str, start: usize) -> Value
    requires { 1 ≤ start }
    ensures { result ≡ counted_or_none (place_of (chars sought.now) (chars words.now) start) }
{
    if start - 1 > char_count(words) {
        return Value::Bad(Fault::BadValue);
    }
    match first_place(sought, behind(words, start - 1)) {
        None => Value::Bad(Fault::BadValue),
        Some(count) => counted(start as u64 + count as u64),
    }
}

/// How many characters stand before the first place at which a text stands in another. It is looked for by
/// bytes: where a whole text stands among the bytes of another, it stands at one of its characters.
fn first_place(sought: &str, words: &str) -> Option<usize>
    ensures { IsFirstPlace (chars sought.now) (chars words.now) result }
{
    match memmem::find(words.as_bytes(), sought.as_bytes()) {
        None => None,
        Some(at) => Some(char_count(&words[..at])),
    }
}
