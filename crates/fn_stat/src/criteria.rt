//! Criteria: which cells a value picks (OpenFormula, 4.11.8).
ghost use Rattle.std.specs.Prelude.{◌≡◌, ℕ, ℤ, List, IfOk};
ghost use Rattle.std.specs.Ordering.{is_eq, is_ge, is_gt, is_le, is_lt};
ghost use Rattle.calc_model.specs.Arguments.{meaning_of, meanings_of};
ghost use Rattle.std.specs.List.{count_by};
ghost use Rattle.calc_model.specs.Meanings.{values_in};
ghost use Rattle.calc_model.specs.Texts.{counted};
ghost use Rattle.calc_model.specs.Statistics.{count_if};
ghost use Rattle.calc_model.specs.Criteria.{criterion, criterion_by, criterion_of_text, is_equal, matches, matches_by, passes};
ghost use Rattle.calc_model.specs.ValueTexts.{lent};
ghost use Rattle.calc_model.specs.declared.value.Value.TheVariants as value;
ghost use Rattle.fn_args.specs.Lent.{wanted_value};
ghost use Rattle.fn_stat.specs.Criterions.{meant, order_matches};

use calc_addr::{Area, Cell, NoMemory};
use calc_model::{Arg, Fault, Op, Seen, Value, Values};
use calc_num::{Num, Reading};
use fn_args::{Test, Wanted, area, count_area, counted, order_in_kind, wanted_by};
use std::alloc::Global;
use std::cmp::Ordering;

/// How cells compare with a value where they match.
#[derive(Clone, Copy)]
pub(crate) struct Criterion<'a> {
    pub op: Op,
    pub with: Wanted<'a>,
}

/// The criterion that a number or a text stands for.
pub(crate) fn criterion_of<'a>(key: &Wanted<'a>) -> Criterion<'a>
    ensures { meant result ≡ criterion (wanted_value key.now) }
{
    match key {
        Wanted::Number(number) => Criterion {
            op: Op::Eq,
            with: Wanted::Number(*number),
        },
        Wanted::Words(bytes) => criterion_of_text(bytes),
    }
}

/// The criterion that a text stands for.
fn criterion_of_text(bytes: &[u8]) -> Criterion<'_>
    ensures { meant result ≡ criterion_of_text bytes.now }
{
    if bytes.starts_with(b"<>") {
        criterion_by(Op::Ne, &bytes[2..])
    } else if bytes.starts_with(b"<=") {
        criterion_by(Op::Le, &bytes[2..])
    } else if bytes.starts_with(b">=") {
        criterion_by(Op::Ge, &bytes[2..])
    } else if bytes.starts_with(b"=") {
        criterion_by(Op::Eq, &bytes[1..])
    } else if bytes.starts_with(b"<") {
        criterion_by(Op::Lt, &bytes[1..])
    } else if bytes.starts_with(b">") {
        criterion_by(Op::Gt, &bytes[1..])
    } else {
        criterion_by(Op::Eq, bytes)
    }
}

/// A comparison with what a text reads as.
fn criterion_by(op: Op, bytes: &[u8]) -> Criterion<'_>
    ensures { meant result ≡ criterion_by op bytes.now }
{
    match Num::read(bytes) {
        Reading::Number(number) => Criterion {
            op,
            with: Wanted::Number(number),
        },
        _ => Criterion {
            op,
            with: Wanted::Words(bytes),
        },
    }
}

/// Whether a cell is equal to the value; the empty text is equal to a blank cell too.
fn is_equal(seen: &Seen<'_>, with: &Wanted<'_>) -> bool
    ensures { result ≡ is_equal (lent seen.now) (wanted_value with.now) }
{
    match seen {
        Seen::Blank => is_no_text(with),
        _ => order_in_kind(seen, with) == Some(Ordering::Equal),
    }
}

/// Whether it is the empty text.
fn is_no_text(with: &Wanted<'_>) -> bool
    ensures { result ≡ is_equal value.Blank (wanted_value with.now) }
{
    match with {
        Wanted::Number(_number) => false,
        Wanted::Words(bytes) => bytes.is_empty(),
    }
}

/// Whether a cell matches.
pub(crate) fn matches(c: &Criterion<'_>, seen: &Seen<'_>) -> bool
    ensures { result ≡ matches (meant c.now) (lent seen.now) }
{
    match c.op {
        Op::Ne => !is_equal(seen, &c.with),
        Op::Lt => is_less(order_in_kind(seen, &c.with)),
        Op::Le => is_at_most(order_in_kind(seen, &c.with)),
        Op::Gt => is_greater(order_in_kind(seen, &c.with)),
        Op::Ge => is_at_least(order_in_kind(seen, &c.with)),
        _ => is_equal(seen, &c.with),
    }
}

fn is_less(order: Option<Ordering>) -> bool
    ensures { result ≡ passes is_lt order }
{
    match order {
        Some(order) => order.is_lt(),
        None => false,
    }
}

fn is_at_most(order: Option<Ordering>) -> bool
    ensures { result ≡ passes is_le order }
{
    match order {
        Some(order) => order.is_le(),
        None => false,
    }
}

fn is_greater(order: Option<Ordering>) -> bool
    ensures { result ≡ passes is_gt order }
{
    match order {
        Some(order) => order.is_gt(),
        None => false,
    }
}

fn is_at_least(order: Option<Ordering>) -> bool
    ensures { result ≡ passes is_ge order }
{
    match order {
        Some(order) => order.is_ge(),
        None => false,
    }
}

/// Whether the number with that raw number matches by its order.
fn number_matches(op: Op, raw: i64, with: Num) -> bool
    ensures { result ≡ matches_by op (value.Number raw) (value.Number with) }
{
    match i64::try_from(with.raw()) {
        Ok(with) => order_matches(op, raw.cmp(&with)),
        Err(_) => order_matches(op, i128::from(raw).cmp(&with.raw())),
    }
}

/// Whether a value of the kind that compares so matches.
fn order_matches(op: Op, order: Ordering) -> bool
    ensures { result ≡ order_matches op order }
{
    match op {
        Op::Ne => order.is_ne(),
        Op::Lt => order.is_lt(),
        Op::Le => order.is_le(),
        Op::Gt => order.is_gt(),
        Op::Ge => order.is_ge(),
        _ => order.is_eq(),
    }
}

/// Whether a number matches where a text is meant.
fn other_kind_matches(op: Op) -> bool
    ensures { (n : ℤ) → (bytes : List ℕ)
        → result ≡ matches_by op (value.Number n) (value.Words bytes) }
{
    match op {
        Op::Ne => true,
        _ => false,
    }
}

impl Test for Criterion<'_> {
    ghost test = { λ c. matches (meant c) };

    fn passes(&self, seen: &Seen<'_>) -> bool {
        matches(self, seen)
    }

    fn passes_number(&self, raw: i64) -> bool {
        match self.with {
            Wanted::Number(with) => number_matches(self.op, raw, with),
            Wanted::Words(_bytes) => other_kind_matches(self.op),
        }
    }
}

/// COUNTIF: how many cells of an area match a criterion, blank ones too.
pub fn fn_countif<V: Values>(
    _alloc: Global,
    args: &[Arg],
    home: Cell,
    values: &V,
) -> Result<Value, NoMemory>
    ensures { IfOk result (λ v. v ≡ count_if (meanings_of home (V.values values.now) args.now)) }
{
    match args {
        [x, sought] => match area(x) {
            Err(fault) => Ok(Value::Bad(fault)),
            Ok(area) => match wanted_by(sought, home, values) {
                Err(fault) => Ok(Value::Bad(fault)),
                Ok(wanted) => Ok(count_matching(area, &wanted, values)),
            },
        },
        _ => Ok(Value::Bad(Fault::BadValue)),
    }
}

/// How many cells of an area match.
fn count_matching<V: Values>(area: Area, wanted: &Wanted<'_>, values: &V) -> Value
    ensures { result ≡ counted (count_by (matches (criterion (wanted_value wanted.now)))
        (values_in (V.values values.now) area)) }
{
    let criterion = criterion_of(wanted);
    counted(count_area(area, values, &criterion))
}
