//! Counts (OpenFormula, 6.13.6 to 6.13.10).
ghost use Rattle.std.specs.Prelude.{◌≡◌, ◌≤◌, IfOk, length, not};
ghost use Rattle.calc_model.specs.Arguments.{meanings_of};
ghost use Rattle.calc_model.specs.declared.limits.TheConstants.{MOST_PARAMETERS};
ghost use Rattle.calc_model.specs.Logic.{is_blank, is_number};
ghost use Rattle.calc_model.specs.Statistics.{count, count_a, count_blank, is_without_text};

use calc_addr::{Cell, NoMemory};
use calc_model::{Arg, Fault, Seen, Value, Values};
use fn_args::{Test, area, count_area, count_list, counted};
use std::alloc::Global;

/// The test for numbers.
struct IsNumber;

/// The test for values that aren't blank.
struct IsUsed;

/// The test for blank values and empty texts.
struct IsWithoutText;

impl Test for IsNumber {
    ghost test = { λ s. is_number };

    fn passes(&self, seen: &Seen<'_>) -> bool {
        match seen {
            Seen::Number(_number) => true,
            Seen::Words(_text) => false,
            Seen::Bad(_fault) => false,
            Seen::Blank => false,
        }
    }

    fn passes_number(&self, _raw: i64) -> bool {
        true
    }
}

impl Test for IsUsed {
    ghost test = { λ s v. not (is_blank v) };

    fn passes(&self, seen: &Seen<'_>) -> bool {
        match seen {
            Seen::Number(_number) => true,
            Seen::Words(_text) => true,
            Seen::Bad(_fault) => true,
            Seen::Blank => false,
        }
    }

    fn passes_number(&self, _raw: i64) -> bool {
        true
    }
}

impl Test for IsWithoutText {
    ghost test = { λ s. is_without_text };

    fn passes(&self, seen: &Seen<'_>) -> bool {
        match seen {
            Seen::Number(_number) => false,
            Seen::Words(text) => text.bytes().is_empty(),
            Seen::Bad(_fault) => false,
            Seen::Blank => true,
        }
    }

    fn passes_number(&self, _raw: i64) -> bool {
        false
    }
}

/// COUNT: how many numbers a list has. Texts and errors are passed over.
pub fn fn_count<V: Values>(
    _alloc: Global,
    args: &[Arg],
    home: Cell,
    values: &V,
) -> Result<Value, NoMemory>
    requires few { length args.now ≤ MOST_PARAMETERS }
    ensures { IfOk result (λ v. v ≡ count (meanings_of home (V.values values.now) args.now)) }
{
    Ok(counted(count_list(args, values, &IsNumber)))
}

/// COUNTA: how many values of a list aren't blank, errors among them.
pub fn fn_counta<V: Values>(
    _alloc: Global,
    args: &[Arg],
    home: Cell,
    values: &V,
) -> Result<Value, NoMemory>
    requires few { length args.now ≤ MOST_PARAMETERS }
    ensures { IfOk result (λ v. v ≡ count_a (meanings_of home (V.values values.now) args.now)) }
{
    Ok(counted(count_list(args, values, &IsUsed)))
}

/// COUNTBLANK: how many cells of an area are blank or hold the empty text.
pub fn fn_countblank<V: Values>(
    _alloc: Global,
    args: &[Arg],
    home: Cell,
    values: &V,
) -> Result<Value, NoMemory>
    ensures { IfOk result (λ v. v
        ≡ count_blank (meanings_of home (V.values values.now) args.now)) }
{
    match args {
        [x] => match area(x) {
            Ok(area) => Ok(counted(count_area(area, values, &IsWithoutText))),
            Err(fault) => Ok(Value::Bad(fault)),
        },
        _ => Ok(Value::Bad(Fault::BadValue)),
    }
}
