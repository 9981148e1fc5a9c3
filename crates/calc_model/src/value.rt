ghost use Rattle.std.specs.Prelude.{◌≡◌, ◌++◌, IfOk, OnOk, OnErr};
ghost use Rattle.calc_model.specs.Operators.{from_ok};
ghost use Rattle.calc_model.specs.Scalars.{compared, number_of, truth_of, words_of};
ghost use Rattle.calc_model.specs.ValueTexts.{lent, text_of};

use crate::fault::Fault;
use crate::text::Text;
use calc_addr::NoMemory;
use calc_num::Num;
use std::alloc::Global;
use std::cmp::Ordering;

/// What a cell shows.
#[derive(Debug, Drop)]
pub enum Value {
    Number(Num),
    Words(Text),
    Bad(Fault),
    Blank,
}

/// A value that is lent.
#[derive(Clone, Copy, Debug)]
pub enum Seen<'a> {
    Number(Num),
    Words(&'a Text),
    Bad(Fault),
    Blank,
}

impl Value {
    /// An equal value.
    pub fn copy(&self, alloc: Global) -> Result<Value, NoMemory>
        ensures { IfOk result (λ v. v ≡ self.now) }
    {
        match self {
            Value::Number(number) => Ok(Value::Number(*number)),
            Value::Words(text) => Ok(Value::Words(text.copy(alloc)?)),
            Value::Bad(fault) => Ok(Value::Bad(*fault)),
            Value::Blank => Ok(Value::Blank),
        }
    }
}

impl Value {
    /// Appends the printed text. Where memory is refused, `out` is as before.
    pub fn show(&self, out: &mut Vec<u8>) -> Result<(), NoMemory>
        ensures ok { OnOk result (out.new.items ≡ out.old.items ++ text_of self.now) }
        ensures err { OnErr result (out.new.items ≡ out.old.items) }
    {
        match self {
            Value::Number(number) => show(Seen::Number(*number), out),
            Value::Words(text) => show(Seen::Words(text), out),
            Value::Bad(fault) => fault.show(out),
            Value::Blank => Ok(()),
        }
    }

    /// The value, lent.
    pub fn seen(&self) -> Seen<'_>
        ensures { lent result ≡ self.now }
    {
        match self {
            Value::Number(number) => Seen::Number(*number),
            Value::Words(text) => Seen::Words(text),
            Value::Bad(fault) => Seen::Bad(*fault),
            Value::Blank => Seen::Blank,
        }
    }
}

/// The value as a number: blank is 0, a text is `BadValue`, and an error is itself (OpenFormula, 6.2.4).
pub fn to_number(value: &Value) -> Result<Num, Fault>
    ensures { result ≡ number_of value.now }
{
    match value {
        Value::Number(number) => Ok(*number),
        Value::Words(_) => Err(Fault::BadValue),
        Value::Bad(fault) => Err(*fault),
        Value::Blank => Ok(Num::default()),
    }
}

/// The value as a text, or its error: a number is its printed text, and blank is the empty text
/// (OpenFormula, 6.2.7).
pub fn to_text(alloc: Global, value: &Value) -> Result<Value, NoMemory>
    ensures { IfOk result (λ text. text ≡ from_ok (words_of value.now) Value.Words) }
{
    match value {
        Value::Number(number) => Ok(Value::Words(Text::of_number(alloc, *number)?)),
        Value::Words(text) => Ok(Value::Words(text.copy(alloc)?)),
        Value::Bad(fault) => Ok(Value::Bad(*fault)),
        Value::Blank => Ok(Value::Words(Text::new(alloc))),
    }
}

/// The value as a logical value: a number is true where it isn't 0, blank is false, a text is `BadValue`,
/// and an error is itself (OpenFormula, 6.2.9).
pub fn to_logic(value: &Value) -> Result<bool, Fault>
    ensures { result ≡ truth_of value.now }
{
    match value {
        Value::Number(number) => Ok(number.raw() != 0),
        Value::Words(_) => Err(Fault::BadValue),
        Value::Bad(fault) => Err(*fault),
        Value::Blank => Ok(false),
    }
}

/// How two values compare: numbers by value, texts by bytes, every number before every text. Blank is the
/// empty text beside a text, and 0 beside anything else. The left error comes first.
pub fn compare(left: &Value, right: &Value) -> Result<Ordering, Fault>
    ensures { result ≡ compared left.now right.now }
{
    match left {
        Value::Number(number) => compare_number(*number, &right.seen()),
        Value::Words(text) => compare_words(text, &right.seen()),
        Value::Bad(fault) => Err(*fault),
        Value::Blank => compare_blank(&right.seen()),
    }
}

impl Seen<'_> {
    /// How the value compares with another one.
    pub fn compare(&self, other: &Seen<'_>) -> Result<Ordering, Fault>
        ensures { result ≡ compared (lent self.now) (lent other.now) }
    {
        match self {
            Seen::Number(number) => compare_number(*number, other),
            Seen::Words(text) => compare_words(text, other),
            Seen::Bad(fault) => Err(*fault),
            Seen::Blank => compare_blank(other),
        }
    }
}

/// The bytes of the empty text.
const NO_BYTES: &[u8] = &[];

/// How a number compares with a value.
fn compare_number(number: Num, other: &Seen<'_>) -> Result<Ordering, Fault>
    ensures { result ≡ compared (Value.Number number) (lent other.now) }
{
    match other {
        Seen::Number(other) => Ok(number.raw().cmp(&other.raw())),
        Seen::Words(_text) => Ok(Ordering::Less),
        Seen::Bad(fault) => Err(*fault),
        Seen::Blank => Ok(number.raw().cmp(&0)),
    }
}

/// How a text compares with a value.
fn compare_words(text: &Text, other: &Seen<'_>) -> Result<Ordering, Fault>
    ensures { result ≡ compared (Value.Words text.now) (lent other.now) }
{
    match other {
        Seen::Number(_number) => Ok(Ordering::Greater),
        Seen::Words(other) => Ok(text.bytes().cmp(&other.bytes())),
        Seen::Bad(fault) => Err(*fault),
        Seen::Blank => Ok(text.bytes().cmp(&NO_BYTES)),
    }
}

/// How blank compares with a value.
fn compare_blank(other: &Seen<'_>) -> Result<Ordering, Fault>
    ensures { result ≡ compared Value.Blank (lent other.now) }
{
    match other {
        Seen::Number(other) => Ok(0.cmp(&other.raw())),
        Seen::Words(other) => Ok(NO_BYTES.cmp(&other.bytes())),
        Seen::Bad(fault) => Err(*fault),
        Seen::Blank => Ok(Ordering::Equal),
    }
}

/// Appends the printed text of a value. Where memory is refused, `out` is as before.
pub fn show(seen: Seen<'_>, out: &mut Vec<u8>) -> Result<(), NoMemory>
    ensures ok { OnOk result (out.new.items ≡ out.old.items ++ text_of (lent seen.entry)) }
    ensures err { OnErr result (out.new.items ≡ out.old.items) }
{
    match seen {
        Seen::Number(number) => out.extend_from_slice(number.write().bytes()),
        Seen::Words(text) => out.extend_from_slice(text.bytes()),
        Seen::Bad(fault) => fault.show(out),
        Seen::Blank => Ok(()),
    }
}
