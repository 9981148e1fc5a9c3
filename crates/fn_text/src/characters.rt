//! Characters of texts (OpenFormula, 6.20).
ghost use Rattle.std.specs.Prelude.{◌≡◌, ◌-◌, drop, length, take, IfOk};
ghost use Rattle.std.specs.Str.{chars};
ghost use Rattle.calc_model.specs.Arguments.{meanings_of};
ghost use Rattle.calc_model.specs.Texts.{if_not_negative, if_positive, last_ones, left, len, mid, right, spelled};
ghost use Rattle.fn_text.specs.Splits.{IsLeft};

use calc_addr::{Cell, NoMemory};
use calc_model::{Arg, Fault, Text, Value, Values};
use fn_args::{counted, text, whole};
use std::alloc::Global;

/// LEN: how many characters a text has.
pub fn fn_len<V: Values>(
    alloc: Global,
    args: &[Arg],
    home: Cell,
    values: &V,
) -> Result<Value, NoMemory>
    ensures { IfOk result (λ v. v ≡ len (meanings_of home (V.values values.now) args.now)) }
{
    match args {
        [x] => match text(alloc, x, home, values)? {
            Err(fault) => Ok(Value::Bad(fault)),
            Ok(words) => Ok(counted(char_count(words.as_str()) as u64)),
        },
        _ => Ok(Value::Bad(Fault::BadValue)),
    }
}

/// How many characters a text has.
pub(crate) fn char_count(text: &str) -> usize
    ensures { result ≡ length (chars text.now) }
{
    text.chars().count()
}

/// What stands behind the first characters of a text, so many or all.
pub(crate) fn behind(text: &str, count: usize) -> &str
    ensures { IsLeft text.now count result.now }
{
    let mut rest = text;
    for _ in 0..count {
        match rest.chars().next() {
            None => return rest,
            Some(first) => rest = &rest[first.len_utf8()..],
        }
    }
    rest
}

/// The first characters of a text, so many or all.
fn front(alloc: Global, text: &str, count: usize) -> Result<Value, NoMemory>
    ensures { IfOk result (λ v. v ≡ spelled (take count (chars text.now))) }
{
    let size = text.len() - behind(text, count).len();
    Ok(Value::Words(Text::of(String::from_str(alloc, &text[..size])?)))
}

/// The last characters of a text, so many or all.
fn back(alloc: Global, text: &str, count: usize) -> Result<Value, NoMemory>
    ensures { IfOk result (λ v. v ≡ spelled (last_ones count (chars text.now))) }
{
    let rest = behind(text, char_count(text).saturating_sub(count));
    Ok(Value::Words(Text::of(String::from_str(alloc, rest)?)))
}

fn front_if(alloc: Global, text: &str, count: i64) -> Result<Value, NoMemory>
    ensures { IfOk result (λ v. v
        ≡ if_not_negative count (λ k. spelled (take k (chars text.now)))) }
{
    if count < 0 {
        return Ok(Value::Bad(Fault::BadValue));
    }
    front(alloc, text, count as usize)
}

fn back_if(alloc: Global, text: &str, count: i64) -> Result<Value, NoMemory>
    ensures { IfOk result (λ v. v
        ≡ if_not_negative count (λ k. spelled (last_ones k (chars text.now)))) }
{
    if count < 0 {
        return Ok(Value::Bad(Fault::BadValue));
    }
    back(alloc, text, count as usize)
}

/// Some characters of a text behind others.
fn middle(alloc: Global, text: &str, start: i64, count: i64) -> Result<Value, NoMemory>
    ensures { IfOk result (λ v. v ≡ if_positive start (λ place. if_not_negative count (λ k.
        spelled (take k (drop (place - 1) (chars text.now)))))) }
{
    if start < 1 {
        return Ok(Value::Bad(Fault::BadValue));
    }
    front_if(alloc, behind(text, start as usize - 1), count)
}

/// MID: so many characters of a text from the one of a number on.
pub fn fn_mid<V: Values>(
    alloc: Global,
    args: &[Arg],
    home: Cell,
    values: &V,
) -> Result<Value, NoMemory>
    ensures { IfOk result (λ v. v ≡ mid (meanings_of home (V.values values.now) args.now)) }
{
    match args {
        [x, start, count] => match text(alloc, x, home, values)? {
            Err(fault) => Ok(Value::Bad(fault)),
            Ok(words) => match whole(start, home, values) {
                Err(fault) => Ok(Value::Bad(fault)),
                Ok(start) => match whole(count, home, values) {
                    Err(fault) => Ok(Value::Bad(fault)),
                    Ok(count) => middle(alloc, words.as_str(), start, count),
                },
            },
        },
        _ => Ok(Value::Bad(Fault::BadValue)),
    }
}

/// LEFT: the first characters of a text.
pub fn fn_left<V: Values>(
    alloc: Global,
    args: &[Arg],
    home: Cell,
    values: &V,
) -> Result<Value, NoMemory>
    ensures { IfOk result (λ v. v ≡ left (meanings_of home (V.values values.now) args.now)) }
{
    match args {
        [x] => match text(alloc, x, home, values)? {
            Err(fault) => Ok(Value::Bad(fault)),
            Ok(words) => front(alloc, words.as_str(), 1),
        },
        [x, count] => match text(alloc, x, home, values)? {
            Err(fault) => Ok(Value::Bad(fault)),
            Ok(words) => match whole(count, home, values) {
                Err(fault) => Ok(Value::Bad(fault)),
                Ok(count) => front_if(alloc, words.as_str(), count),
            },
        },
        _ => Ok(Value::Bad(Fault::BadValue)),
    }
}

/// RIGHT: the last characters of a text.
pub fn fn_right<V: Values>(
    alloc: Global,
    args: &[Arg],
    home: Cell,
    values: &V,
) -> Result<Value, NoMemory>
    ensures { IfOk result (λ v. v ≡ right (meanings_of home (V.values values.now) args.now)) }
{
    match args {
        [x] => match text(alloc, x, home, values)? {
            Err(fault) => Ok(Value::Bad(fault)),
            Ok(words) => back(alloc, words.as_str(), 1),
        },
        [x, count] => match text(alloc, x, home, values)? {
            Err(fault) => Ok(Value::Bad(fault)),
            Ok(words) => match whole(count, home, values) {
                Err(fault) => Ok(Value::Bad(fault)),
                Ok(count) => back_if(alloc, words.as_str(), count),
            },
        },
        _ => Ok(Value::Bad(Fault::BadValue)),
    }
}
