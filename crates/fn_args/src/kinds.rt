//! One parameter as a number, a text, a logical value or an area. Each gives its error in place of it.
ghost use Rattle.std.specs.Prelude.{◌≡◌, ◌*ℤ◌, IfOk, MatchResult, pos, ◌^◌, Ok, Err};
ghost use Rattle.calc_model.specs.Arguments.{meaning_of};
ghost use Rattle.calc_model.specs.Parameters.{area, key, number, text, truth_value, whole};
ghost use Rattle.calc_model.specs.Scalars.{truth_of};
ghost use Rattle.calc_model.specs.ValueTexts.{lent};
ghost use Rattle.fn_args.specs.Kinds.{IsArea};

use calc_addr::{Area, Cell, NoMemory};
use calc_model::{Arg, Fault, Seen, Text, Value, Values, scalar_at, to_logic, to_number};
use calc_num::Num;
use std::alloc::Global;

/// The raw number of 1.
const ONE: i128 = 1_000_000_000;

/// The parameter as a number.
pub fn number<V: Values>(arg: &Arg, home: Cell, values: &V) -> Result<Num, Fault>
    ensures { result ≡ number (meaning_of home (V.values values.now) arg.now) }
{
    match arg {
        Arg::Scalar(value) => to_number(value),
        Arg::Area(area) => match scalar_at(*area, home, values) {
            Seen::Number(number) => Ok(number),
            Seen::Words(_text) => Err(Fault::BadValue),
            Seen::Bad(fault) => Err(fault),
            Seen::Blank => Ok(Num::default()),
        },
    }
}

/// The parameter as a number, cut toward zero.
pub fn whole<V: Values>(arg: &Arg, home: Cell, values: &V) -> Result<i64, Fault>
    ensures { result ≡ whole (meaning_of home (V.values values.now) arg.now) }
{
    match number(arg, home, values) {
        Ok(number) => Ok((number.raw() / ONE) as i64),
        Err(fault) => Err(fault),
    }
}

/// The parameter as a logical value.
pub fn truth_value<V: Values>(arg: &Arg, home: Cell, values: &V) -> Result<bool, Fault>
    ensures { result ≡ truth_value (meaning_of home (V.values values.now) arg.now) }
{
    match arg {
        Arg::Scalar(value) => to_logic(value),
        Arg::Area(area) => match scalar_at(*area, home, values) {
            Seen::Number(number) => Ok(number.raw() != 0),
            Seen::Words(_text) => Err(Fault::BadValue),
            Seen::Bad(fault) => Err(fault),
            Seen::Blank => Ok(false),
        },
    }
}

/// The parameter as an area. Everything else is its error, or no value.
pub fn area(arg: &Arg) -> Result<Area, Fault>
    ensures { IsArea arg.now result }
{
    match arg {
        Arg::Area(area) => Ok(*area),
        Arg::Scalar(Value::Bad(fault)) => Err(*fault),
        Arg::Scalar(_) => Err(Fault::BadValue),
    }
}
