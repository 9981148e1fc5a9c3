//! The least and the greatest number, and products (OpenFormula, 6.18.45, 6.18.48 and 6.16.51).
ghost use Rattle.std.specs.Prelude.{◌≡◌, ◌^◌, pos, true, false, None, Some, Ok, IfOk};
ghost use Rattle.std.specs.Int.{int_max, int_min};
ghost use Rattle.calc_model.specs.Arguments.{meanings_of};
ghost use Rattle.calc_model.specs.Statistics.{max_, min_, product};
ghost use Rattle.fn_stat.specs.States.{extreme_or_zero, product_or_zero, with_extreme, with_factor};

use calc_addr::{Cell, NoMemory};
use calc_model::{Arg, Value, Values};
use calc_num::{Num, NumFault};
use fn_args::{Tally, tally_list, value_of};
use std::alloc::Global;

/// The raw number of 1.
const ONE: i128 = 1_000_000_000;

/// The least of the numbers so far, if there was one.
#[derive(Drop)]
pub(crate) struct Least {
    pub least: Option<Num>,
}

/// The greatest of the numbers so far, if there was one.
#[derive(Drop)]
pub(crate) struct Greatest {
    pub greatest: Option<Num>,
}

/// The product of the numbers so far, and whether there was one.
#[derive(Drop)]
pub(crate) struct Product {
    pub some: bool,
    pub product: Result<Num, NumFault>,
}

fn lesser(a: Num, b: Num) -> Num
    ensures { result ≡ int_min a b }
{
    if a.raw() <= b.raw() { a } else { b }
}

fn greater(a: Num, b: Num) -> Num
    ensures { result ≡ int_max a b }
{
    if a.raw() <= b.raw() { b } else { a }
}

/// The number, or 0 where there is none.
fn number_or_zero(number: Option<Num>) -> Value
    ensures { result ≡ extreme_or_zero number }
{
    match number {
        Some(number) => Value::Number(number),
        None => Value::Number(Num::default()),
    }
}

/// The product, or 0 where there was no number.
fn product_or_zero(product: &Product) -> Value
    ensures { result ≡ product_or_zero product.now.some product.now.product }
{
    if product.some {
        value_of(product.product)
    } else {
        Value::Number(Num::default())
    }
}

impl Tally for Least {
    ghost step = { λ s n. record { least = with_extreme int_min s.least n } };

    ghost room = { λ s k. Unit {0} };

    fn take(&mut self, number: Num) {
        self.least = match self.least {
            None => Some(number),
            Some(least) => Some(lesser(least, number)),
        };
    }

    ghost room_behind = { λ s j k h. tt };
}

impl Tally for Greatest {
    ghost step = { λ s n. record { greatest = with_extreme int_max s.greatest n } };

    ghost room = { λ s k. Unit {0} };

    fn take(&mut self, number: Num) {
        self.greatest = match self.greatest {
            None => Some(number),
            Some(greatest) => Some(greater(greatest, number)),
        };
    }

    ghost room_behind = { λ s j k h. tt };
}

impl Tally for Product {
    ghost step = { λ s n. record { some = true; product = with_factor s.product n } };

    ghost room = { λ s k. Unit {0} };

    fn take(&mut self, number: Num) {
        self.some = true;
        self.product = match self.product {
            Ok(product) => product.mul(number),
            Err(fault) => Err(fault),
        };
    }

    ghost room_behind = { λ s j k h. tt };
}

impl Least {
    fn new() -> Least
        ensures { result ≡ record { least = None } }
    {
        Least { least: None }
    }
}

impl Greatest {
    fn new() -> Greatest
        ensures { result ≡ record { greatest = None } }
    {
        Greatest { greatest: None }
    }
}

impl Product {
    fn new() -> Product
        ensures { result ≡ record { some = false; product = Ok (pos (10 ^ 9)) } }
    {
        Product {
            some: false,
            product: Ok(Num::from_raw(ONE).unwrap()),
        }
    }
}

/// MIN: the least number of a list, or 0 where there is none.
pub fn fn_min<V: Values>(
    _alloc: Global,
    args: &[Arg],
    home: Cell,
    values: &V,
) -> Result<Value, NoMemory>
    ensures { IfOk result (λ v. v ≡ min_ (meanings_of home (V.values values.now) args.now)) }
{
    let mut so_far = Least::new();
    match tally_list(args, values, &mut so_far) {
        Ok(()) => Ok(number_or_zero(so_far.least)),
        Err(fault) => Ok(Value::Bad(fault)),
    }
}

/// MAX: the greatest number of a list, or 0 where there is none.
pub fn fn_max<V: Values>(
    _alloc: Global,
    args: &[Arg],
    home: Cell,
    values: &V,
) -> Result<Value, NoMemory>
    ensures { IfOk result (λ v. v ≡ max_ (meanings_of home (V.values values.now) args.now)) }
{
    let mut so_far = Greatest::new();
    match tally_list(args, values, &mut so_far) {
        Ok(()) => Ok(number_or_zero(so_far.greatest)),
        Err(fault) => Ok(Value::Bad(fault)),
    }
}

/// PRODUCT: the numbers of a list multiplied in order, rounded and tested at each step, or 0 where there is
/// none.
pub fn fn_product<V: Values>(
    _alloc: Global,
    args: &[Arg],
    home: Cell,
    values: &V,
) -> Result<Value, NoMemory>
    ensures { IfOk result (λ v. v ≡ product (meanings_of home (V.values values.now) args.now)) }
{
    let mut so_far = Product::new();
    match tally_list(args, values, &mut so_far) {
        Ok(()) => Ok(product_or_zero(&so_far)),
        Err(fault) => Ok(Value::Bad(fault)),
    }
}
