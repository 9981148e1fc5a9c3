//! Texts compared, joined and read as numbers (OpenFormula, 6.20 and 6.13.34).
ghost use Rattle.std.specs.Prelude.{◌≡◌, ◌*◌, map, nat_lt, replicate, IfOk};
ghost use Rattle.std.specs.List.{flat_map};
ghost use Rattle.calc_num.specs.Spelling.{reading};
ghost use Rattle.calc_model.specs.Arguments.{meanings_of};
ghost use Rattle.calc_model.specs.Operators.{kept_words};
ghost use Rattle.calc_model.specs.Texts.{concatenate, exact, if_not_negative, rept, value, value_of_reading, value_of_scalar};
ghost use Rattle.calc_model.specs.Parameters.{all_ok, text};
ghost use Rattle.calc_model.specs.ValueTexts.{lent};
ghost use Rattle.calc_model.specs.declared.limits.TheConstants.{MOST_FIELD_BYTES};
ghost use Rattle.fn_args.specs.Lent.{words_in};
ghost use Rattle.fn_text.specs.Joined.{texts_lent};

use calc_addr::{Cell, NoMemory};
use calc_model::{Arg, Fault, MOST_FIELD_BYTES, Seen, Text, Value, Values};
use calc_num::{Num, Reading};
use fn_args::{Words, scalar, text, truth, whole};
use std::alloc::Global;

/// EXACT: whether two texts have the same bytes.
pub fn fn_exact<V: Values>(
    alloc: Global,
    args: &[Arg],
    home: Cell,
    values: &V,
) -> Result<Value, NoMemory>
    ensures { IfOk result (λ v. v ≡ exact (meanings_of home (V.values values.now) args.now)) }
{
    match args {
        [x, y] => match text(alloc, x, home, values)? {
            Err(fault) => Ok(Value::Bad(fault)),
            Ok(left) => match text(alloc, y, home, values)? {
                Err(fault) => Ok(Value::Bad(fault)),
                Ok(right) => Ok(truth(left.bytes() == right.bytes())),
            },
        },
        _ => Ok(Value::Bad(Fault::BadValue)),
    }
}

/// REPT: a text so many times.
pub fn fn_rept<V: Values>(
    alloc: Global,
    args: &[Arg],
    home: Cell,
    values: &V,
) -> Result<Value, NoMemory>
    ensures { IfOk result (λ v. v ≡ rept (meanings_of home (V.values values.now) args.now)) }
{
    match args {
        [x, count] => match text(alloc, x, home, values)? {
            Err(fault) => Ok(Value::Bad(fault)),
            Ok(words) => match whole(count, home, values) {
                Err(fault) => Ok(Value::Bad(fault)),
                Ok(count) => repeated(alloc, words.as_str(), count),
            },
        },
        _ => Ok(Value::Bad(Fault::BadValue)),
    }
}

/// A text so many times. It is too long before its bytes are made.
fn repeated(alloc: Global, words: &str, count: i64) -> Result<Value, NoMemory>
    ensures { IfOk result (λ v. v
        ≡ if_not_negative count (λ k. kept_words (flat_map (λ b. b) (replicate k words.now)))) }
{
    if count < 0 {
        return Ok(Value::Bad(Fault::BadValue));
    }
    repeated_often(alloc, words, count as u64)
}

/// Whether so many bytes so many times are too many.
fn is_too_long(len: usize, count: u64) -> bool
    ensures { result ≡ nat_lt MOST_FIELD_BYTES (count * len) }
{
    match (len as u64).checked_mul(count) {
        Some(size) => size > MOST_FIELD_BYTES as u64,
        None => true,
    }
}

/// A text so many times, if that isn't too long.
fn repeated_often(alloc: Global, words: &str, count: u64) -> Result<Value, NoMemory>
    ensures { IfOk result (λ v. v ≡ kept_words (flat_map (λ b. b) (replicate count words.now))) }
{
    if is_too_long(words.len(), count) {
        return Ok(Value::Bad(Fault::Over));
    }
    if words.is_empty() {
        return Ok(Value::Words(Text::new(alloc)));
    }
    let mut whole = Text::new(alloc);
    for _ in 0..count {
        whole.push_str(words)?;
    }
    Ok(Value::Words(whole))
}

/// CONCATENATE: texts joined from left to right. All parameters are taken first, and no byte is joined past
/// the most that a text can have.
pub fn fn_concatenate<V: Values>(
    alloc: Global,
    args: &[Arg],
    home: Cell,
    values: &V,
) -> Result<Value, NoMemory>
    ensures { IfOk result (λ v. v ≡ concatenate (meanings_of home (V.values values.now) args.now)) }
{
    match texts(alloc, args, home, values)? {
        Err(fault) => Ok(Value::Bad(fault)),
        Ok(parts) => joined(alloc, &parts),
    }
}

/// The parameters as texts, or the first error.
fn texts<'a, V: Values>(
    alloc: Global,
    args: &'a [Arg],
    home: Cell,
    values: &'a V,
) -> Result<Result<Vec<Words<'a>>, Fault>, NoMemory>
    ensures { IfOk result (λ parts. texts_lent parts
        ≡ all_ok (map text (meanings_of home (V.values values.entry.now) args.entry.now))) }
{
    let mut parts = Vec::new(alloc);
    for arg in args {
        match text(alloc, arg, home, values)? {
            Err(fault) => return Ok(Err(fault)),
            Ok(words) => parts.push(words)?,
        }
    }
    Ok(Ok(parts))
}

/// Texts joined, if that isn't too long.
fn joined(alloc: Global, parts: &[Words<'_>]) -> Result<Value, NoMemory>
    ensures { IfOk result (λ v. v ≡ kept_words (flat_map words_in parts.now)) }
{
    let mut whole = Text::new(alloc);
    let mut room = MOST_FIELD_BYTES;
    for part in parts {
        let words = part.as_str();
        if words.len() > room {
            return Ok(Value::Bad(Fault::Over));
        }
        room -= words.len();
        whole.push_str(words)?;
    }
    Ok(Value::Words(whole))
}

/// VALUE: the number that a text reads as. A number is itself, and blank is 0.
pub fn fn_value<V: Values>(
    _alloc: Global,
    args: &[Arg],
    home: Cell,
    values: &V,
) -> Result<Value, NoMemory>
    ensures { IfOk result (λ v. v ≡ value (meanings_of home (V.values values.now) args.now)) }
{
    match args {
        [x] => Ok(value_of_scalar(&scalar(x, home, values))),
        _ => Ok(Value::Bad(Fault::BadValue)),
    }
}

fn value_of_scalar(seen: &Seen<'_>) -> Value
    ensures { result ≡ value_of_scalar (lent seen.now) }
{
    match seen {
        Seen::Number(number) => Value::Number(*number),
        Seen::Words(text) => value_of_reading(text.bytes()),
        Seen::Bad(fault) => Value::Bad(*fault),
        Seen::Blank => Value::Number(Num::default()),
    }
}

/// The number that a text reads as.
fn value_of_reading(bytes: &[u8]) -> Value
    ensures { result ≡ value_of_reading (reading bytes.now) }
{
    match Num::read(bytes) {
        Reading::Number(number) => Value::Number(number),
        Reading::TooLarge => Value::Bad(Fault::Over),
        Reading::NotNumber => Value::Bad(Fault::BadValue),
    }
}
