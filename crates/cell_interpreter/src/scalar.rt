ghost use Rattle.std.specs.Prelude.{◌≡◌, IfOk};
ghost use Rattle.calc_model.specs.Eval.{top};
ghost use Rattle.calc_model.specs.Scalars.{compared, number_of};
ghost use Rattle.calc_model.specs.ValueTexts.{lent};
ghost use Rattle.cell_interpreter.specs.Operands.{value_of};

use calc_addr::NoMemory;
use calc_model::{Fault, Seen, Text, Value};
use calc_num::Num;
use std::alloc::Global;
use std::cmp::Ordering;

/// A value on the way, whose text is lent by a cell or a formula, or was made.
#[derive(Drop)]
pub(crate) enum Scalar<'a> {
    Number(Num),
    Lent(&'a Text),
    Made(Text),
    Bad(Fault),
    Blank,
}

impl<'a> Scalar<'a> {
    /// What a cell lends.
    pub(crate) fn of(seen: Seen<'a>) -> Scalar<'a>
        ensures { value_of result ≡ lent seen.entry }
    {
        match seen {
            Seen::Number(number) => Scalar::Number(number),
            Seen::Words(text) => Scalar::Lent(text),
            Seen::Bad(fault) => Scalar::Bad(fault),
            Seen::Blank => Scalar::Blank,
        }
    }

    /// The value as a number.
    pub(crate) fn to_number(&self) -> Result<Num, Fault>
        ensures { result ≡ number_of (value_of self.now) }
    {
        match self {
            Scalar::Number(number) => Ok(*number),
            Scalar::Lent(_) | Scalar::Made(_) => Err(Fault::BadValue),
            Scalar::Bad(fault) => Err(*fault),
            Scalar::Blank => Ok(Num::default()),
        }
    }

    /// How it compares with another value.
    pub(crate) fn compare(&self, other: &Scalar<'_>) -> Result<Ordering, Fault>
        ensures { result ≡ compared (value_of self.now) (value_of other.now) }
    {
        match self {
            Scalar::Number(number) => Seen::Number(*number).compare(&other.seen()),
            Scalar::Lent(text) => Seen::Words(text).compare(&other.seen()),
            Scalar::Made(text) => Seen::Words(text).compare(&other.seen()),
            Scalar::Bad(fault) => Err(*fault),
            Scalar::Blank => Seen::Blank.compare(&other.seen()),
        }
    }

    /// The value, lent.
    pub(crate) fn seen(&self) -> Seen<'_>
        ensures { lent result ≡ value_of self.now }
    {
        match self {
            Scalar::Number(number) => Seen::Number(*number),
            Scalar::Lent(text) => Seen::Words(text),
            Scalar::Made(text) => Seen::Words(text),
            Scalar::Bad(fault) => Seen::Bad(*fault),
            Scalar::Blank => Seen::Blank,
        }
    }

    /// A value that was made.
    pub(crate) fn made(value: Value) -> Scalar<'a>
        ensures { value_of result ≡ value }
    {
        match value {
            Value::Number(number) => Scalar::Number(number),
            Value::Words(text) => Scalar::Made(text),
            Value::Bad(fault) => Scalar::Bad(fault),
            Value::Blank => Scalar::Blank,
        }
    }

    /// The value itself. A text that is lent is copied.
    pub(crate) fn into_value(self, alloc: Global) -> Result<Value, NoMemory>
        ensures { IfOk result (λ v. v ≡ value_of self.entry) }
    {
        match self {
            Scalar::Number(number) => Ok(Value::Number(number)),
            Scalar::Lent(text) => Ok(Value::Words(text.copy(alloc)?)),
            Scalar::Made(text) => Ok(Value::Words(text)),
            Scalar::Bad(fault) => Ok(Value::Bad(fault)),
            Scalar::Blank => Ok(Value::Blank),
        }
    }

    /// The value of a formula that comes to this: blank is 0.
    pub(crate) fn into_result(self, alloc: Global) -> Result<Value, NoMemory>
        ensures { IfOk result (λ v. v ≡ top (value_of self.entry)) }
    {
        match self {
            Scalar::Blank => Ok(Value::Number(Num::default())),
            scalar => scalar.into_value(alloc),
        }
    }
}
