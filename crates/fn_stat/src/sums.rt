//! Sums and means (OpenFormula, 6.16.61 and 6.18.3).
ghost use Rattle.std.specs.Prelude.{◌≡◌, ◌≤◌, ◌<◌, ◌-◌, ◌*◌, ◌^◌, IfOk, length, pos};
ghost use Rattle.calc_num.specs.Decimals.{checked, rounded};
ghost use Rattle.calc_model.specs.Arguments.{meanings_of};
ghost use Rattle.calc_model.specs.declared.limits.TheConstants.{MOST_PARAMETERS};
ghost use Rattle.calc_model.specs.Operators.{value_of};
ghost use Rattle.calc_model.specs.Statistics.{average, sum};
ghost use Rattle.fn_stat.specs.States.{HasRoom, MOST_TERMS, mean, with_term};

use calc_addr::{Cell, NoMemory};
use calc_model::{Arg, Fault, Value, Values};
use calc_num::{Num, NumFault};
use fn_args::{Tally, tally_list, value_of};
use std::alloc::Global;
use std::marker::Model;

/// The exact sum of the numbers so far, and how many they are.
#[derive(Drop)]
pub(crate) struct Sum {
    total: i128,
    count: u64,
}

impl Model for Sum {
    ghost use Rattle.fn_stat.specs.States.{IsBounded, Totals};

    ghost Value = { Totals };

    ghost view = { λ s. record { total = s.total; count = s.count } };

    ghost invariant = { λ s. IsBounded s.total s.count };
}

impl Sum {
    /// That of no number.
    pub(crate) fn new() -> Sum
        ensures { result ≡ record { total = pos 0; count = 0 } }
    {
        Sum { total: 0, count: 0 }
    }

    /// The sum, tested once.
    pub(crate) fn total(&self) -> Value
        ensures { result ≡ value_of (checked self.now.total) }
    {
        value_of(Num::from_raw(self.total).ok_or(NumFault::Over))
    }

    /// The mean, rounded to the nearest.
    pub(crate) fn mean(&self) -> Value
        requires few { self.now.count ≤ MOST_TERMS }
        ensures { result ≡ mean self.now.total self.now.count }
    {
        if self.count == 0 {
            return Value::Bad(Fault::DivZero);
        }
        let size = nearest_size(self.total.unsigned_abs(), u128::from(self.count)) as i128;
        let raw = if self.total < 0 { -size } else { size };
        Value::Number(Num::from_raw(raw).unwrap())
    }
}

/// The nearest whole number to a quotient, halves upward.
fn nearest_size(size: u128, count: u128) -> u128
    requires some { 0 < count }
    requires few { count ≤ MOST_TERMS }
    requires bounded { size ≤ count * (10 ^ 27 - 1) }
    ensures nearest { result ≡ rounded size count }
    ensures in_range { result < 10 ^ 27 }
{
    (2 * size + count) / (2 * count)
}

impl Tally for Sum {
    ghost use Rattle.std.proofs.Common.{rules};

    ghost step = { with_term };

    ghost room = { HasRoom };

    fn take(&mut self, number: Num) {
        self.total += number.raw();
        self.count += 1;
    }

    ghost room_behind = { λ s j k h. Prim.search rules };
}

/// SUM: the exact sum of the numbers of a list, tested once at the end.
pub fn fn_sum<V: Values>(
    _alloc: Global,
    args: &[Arg],
    home: Cell,
    values: &V,
) -> Result<Value, NoMemory>
    requires few { length args.now ≤ MOST_PARAMETERS }
    ensures { IfOk result (λ v. v ≡ sum (meanings_of home (V.values values.now) args.now)) }
{
    let mut sum = Sum::new();
    match tally_list(args, values, &mut sum) {
        Ok(()) => Ok(sum.total()),
        Err(fault) => Ok(Value::Bad(fault)),
    }
}

/// AVERAGE: the mean of the numbers of a list, rounded to the nearest. A list without one has no mean.
pub fn fn_average<V: Values>(
    _alloc: Global,
    args: &[Arg],
    home: Cell,
    values: &V,
) -> Result<Value, NoMemory>
    requires few { length args.now ≤ MOST_PARAMETERS }
    ensures { IfOk result (λ v. v ≡ average (meanings_of home (V.values values.now) args.now)) }
{
    let mut sum = Sum::new();
    match tally_list(args, values, &mut sum) {
        Ok(()) => Ok(sum.mean()),
        Err(fault) => Ok(Value::Bad(fault)),
    }
}
