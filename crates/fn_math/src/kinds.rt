//! Functions that ask for the kind of a value (OpenFormula, 6.13).
ghost use Rattle.std.specs.Prelude.{◌≡◌, IfOk};
ghost use Rattle.calc_model.specs.Arguments.{meanings_of};
ghost use Rattle.calc_model.specs.Logic.{is_blank, is_error, is_not_available, is_number, is_text, of_kind};
ghost use Rattle.calc_model.specs.ValueTexts.{lent};

use calc_addr::{Cell, NoMemory};
use calc_model::{Arg, Fault, Seen, Value, Values};
use fn_args::{scalar, truth};
use std::alloc::Global;

/// ISERROR: whether the value is an error.
pub fn fn_iserror<V: Values>(
    _alloc: Global,
    args: &[Arg],
    home: Cell,
    values: &V,
) -> Result<Value, NoMemory>
    ensures { IfOk result (λ v. v
        ≡ of_kind is_error (meanings_of home (V.values values.now) args.now)) }
{
    match args {
        [x] => Ok(truth(is_error(&scalar(x, home, values)))),
        _ => Ok(Value::Bad(Fault::BadValue)),
    }
}

/// ISNA: whether the value is `#N/A`.
pub fn fn_isna<V: Values>(
    _alloc: Global,
    args: &[Arg],
    home: Cell,
    values: &V,
) -> Result<Value, NoMemory>
    ensures { IfOk result (λ v. v
        ≡ of_kind is_not_available (meanings_of home (V.values values.now) args.now)) }
{
    match args {
        [x] => Ok(truth(is_not_available(&scalar(x, home, values)))),
        _ => Ok(Value::Bad(Fault::BadValue)),
    }
}

/// ISNUMBER: whether the value is a number.
pub fn fn_isnumber<V: Values>(
    _alloc: Global,
    args: &[Arg],
    home: Cell,
    values: &V,
) -> Result<Value, NoMemory>
    ensures { IfOk result (λ v. v
        ≡ of_kind is_number (meanings_of home (V.values values.now) args.now)) }
{
    match args {
        [x] => Ok(truth(is_number(&scalar(x, home, values)))),
        _ => Ok(Value::Bad(Fault::BadValue)),
    }
}

/// ISTEXT: whether the value is a text.
pub fn fn_istext<V: Values>(
    _alloc: Global,
    args: &[Arg],
    home: Cell,
    values: &V,
) -> Result<Value, NoMemory>
    ensures { IfOk result (λ v. v
        ≡ of_kind is_text (meanings_of home (V.values values.now) args.now)) }
{
    match args {
        [x] => Ok(truth(is_text(&scalar(x, home, values)))),
        _ => Ok(Value::Bad(Fault::BadValue)),
    }
}

/// ISBLANK: whether the value is blank.
pub fn fn_isblank<V: Values>(
    _alloc: Global,
    args: &[Arg],
    home: Cell,
    values: &V,
) -> Result<Value, NoMemory>
    ensures { IfOk result (λ v. v
        ≡ of_kind is_blank (meanings_of home (V.values values.now) args.now)) }
{
    match args {
        [x] => Ok(truth(is_blank(&scalar(x, home, values)))),
        _ => Ok(Value::Bad(Fault::BadValue)),
    }
}

/// Whether the value is an error.
pub(crate) fn is_error(seen: &Seen<'_>) -> bool
    ensures { result ≡ is_error (lent seen.now) }
{
    match seen {
        Seen::Number(_number) => false,
        Seen::Words(_text) => false,
        Seen::Bad(_fault) => true,
        Seen::Blank => false,
    }
}

/// Whether the value is `#N/A`.
pub(crate) fn is_not_available(seen: &Seen<'_>) -> bool
    ensures { result ≡ is_not_available (lent seen.now) }
{
    match seen {
        Seen::Number(_number) => false,
        Seen::Words(_text) => false,
        Seen::Bad(fault) => is_na(*fault),
        Seen::Blank => false,
    }
}

/// Whether the value is a number.
pub(crate) fn is_number(seen: &Seen<'_>) -> bool
    ensures { result ≡ is_number (lent seen.now) }
{
    match seen {
        Seen::Number(_number) => true,
        Seen::Words(_text) => false,
        Seen::Bad(_fault) => false,
        Seen::Blank => false,
    }
}

/// Whether the value is a text.
pub(crate) fn is_text(seen: &Seen<'_>) -> bool
    ensures { result ≡ is_text (lent seen.now) }
{
    match seen {
        Seen::Number(_number) => false,
        Seen::Words(_text) => true,
        Seen::Bad(_fault) => false,
        Seen::Blank => false,
    }
}

/// Whether the value is blank.
pub(crate) fn is_blank(seen: &Seen<'_>) -> bool
    ensures { result ≡ is_blank (lent seen.now) }
{
    match seen {
        Seen::Number(_number) => false,
        Seen::Words(_text) => false,
        Seen::Bad(_fault) => false,
        Seen::Blank => true,
    }
}

/// Whether the fault is `#N/A`.
fn is_na(fault: Fault) -> bool
    ensures { result ≡ is_not_available (Value.Bad fault) }
{
    match fault {
        Fault::NA => true,
        _ => false,
    }
}
