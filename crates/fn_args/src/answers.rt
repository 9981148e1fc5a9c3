//! Results as values, and parameters as they are.
ghost use Rattle.std.specs.Prelude.{◌≡◌, IfOk};
ghost use Rattle.calc_model.specs.Arguments.{meaning_of};
ghost use Rattle.calc_model.specs.Operators.{fault_of, truth, value_of};
ghost use Rattle.calc_model.specs.Texts.{counted};
ghost use Rattle.calc_model.specs.ValueTexts.{lent};

use calc_addr::{Cell, NoMemory};
use calc_model::{Arg, Fault, Seen, Value, Values, scalar_at};
use calc_num::{Num, NumFault};
use std::alloc::Global;

/// The raw number of 1.
const ONE: i128 = 1_000_000_000;

/// A number of things.
pub fn counted(count: u64) -> Value
    ensures { result ≡ counted count }
{
    match Num::from_raw(i128::from(count) * ONE) {
        Some(number) => Value::Number(number),
        None => Value::Bad(Fault::Over),
    }
}

/// 1 or 0.
pub fn truth(holds: bool) -> Value
    ensures { result ≡ truth holds }
{
    Value::Number(Num::from_raw(if holds { ONE } else { 0 }).unwrap())
}

/// The result of a decimal operation.
pub fn value_of(outcome: Result<Num, NumFault>) -> Value
    ensures { result ≡ value_of outcome }
{
    match outcome {
        Ok(number) => Value::Number(number),
        Err(fault) => Value::Bad(fault_of(fault)),
    }
}

fn fault_of(fault: NumFault) -> Fault
    ensures { result ≡ fault_of fault }
{
    match fault {
        NumFault::Over => Fault::Over,
        NumFault::DivZero => Fault::DivZero,
        NumFault::NotNum => Fault::BadNum,
    }
}

/// The parameter's value in a place that takes one value.
pub fn scalar<'a, V: Values>(arg: &'a Arg, home: Cell, values: &'a V) -> Seen<'a>
    ensures { lent result ≡ (meaning_of home (V.values values.entry.now) arg.entry.now).scalar }
{
    match arg {
        Arg::Scalar(value) => value.seen(),
        Arg::Area(area) => scalar_at(*area, home, values),
    }
}

/// A value of its own that is equal to the lent one.
pub fn copied(alloc: Global, seen: &Seen<'_>) -> Result<Value, NoMemory>
    ensures { IfOk result (λ value. value ≡ lent seen.now) }
{
    match seen {
        Seen::Number(number) => Ok(Value::Number(*number)),
        Seen::Words(text) => Ok(Value::Words(text.copy(alloc)?)),
        Seen::Bad(fault) => Ok(Value::Bad(*fault)),
        Seen::Blank => Ok(Value::Blank),
    }
}

/// The parameter's value in such a place, as one of its own.
pub fn value<V: Values>(alloc: Global, arg: &Arg, home: Cell, values: &V) -> Result<Value, NoMemory>
    ensures { IfOk result (λ value.
        value ≡ (meaning_of home (V.values values.now) arg.now).scalar) }
{
    copied(alloc, &scalar(arg, home, values))
}
