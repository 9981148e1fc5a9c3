ghost use Rattle.calc_addr.specs.Places.{places};
ghost use Rattle.calc_model.specs.Meanings.{values_in};
ghost use Rattle.calc_model.specs.ValueTexts.{lent, text_of};
ghost use Rattle.calc_watch.specs.Reports.{changes, same_value};
ghost use Rattle.std.specs.Prelude.{IfOk, ◌≡◌};

use crate::report::Report;
use calc_addr::{Area, NoMemory};
use calc_model::{Fault, Seen, Text, Value, Values};
use calc_num::Num;
use std::alloc::Global;

/// The values of the area's cells, in area order.
#[tactic(auto, unfolding(calc_model::specs::Meanings::values_in))]
pub(crate) fn values_in<V: Values>(
    alloc: Global,
    values: &V,
    area: Area,
) -> Result<Vec<Value>, NoMemory>
    ensures { IfOk result (λ known. known.items ≡ values_in (V.values values.now) area) }
{
    let mut known = Vec::new(alloc);
    for cell in area.cells() {
        known.push(owned(alloc, &values.look(cell))?)?;
    }
    Ok(known)
}

/// The reports of the area's cells, from the values that are known of them.
pub(crate) fn changes<V: Values>(
    alloc: Global,
    values: &V,
    area: Area,
    known: &[Value],
) -> Result<Vec<Report>, NoMemory>
    ensures { IfOk result (λ reports. reports.items
        ≡ changes (V.values values.now) (places area) known.now) }
{
    let mut reports = Vec::new(alloc);
    let mut rest = known;
    for cell in area.cells() {
        let Some((value, others)) = rest.split_first() else {
            break;
        };
        let seen = values.look(cell);
        if !is_same(&seen, value) {
            let shown = shown(alloc, &seen)?;
            reports.push(Report { cell, shown })?;
        }
        rest = others;
    }
    Ok(reports)
}

/// The value, owned.
fn owned(alloc: Global, seen: &Seen<'_>) -> Result<Value, NoMemory>
    ensures { IfOk result (λ value. value ≡ lent seen.now) }
{
    match seen {
        Seen::Number(number) => Ok(Value::Number(*number)),
        Seen::Words(text) => Ok(Value::Words(text.copy(alloc)?)),
        Seen::Bad(fault) => Ok(Value::Bad(*fault)),
        Seen::Blank => Ok(Value::Blank),
    }
}

/// The text that the value prints as.
fn shown(alloc: Global, seen: &Seen<'_>) -> Result<Text, NoMemory>
    ensures { IfOk result (λ text. text ≡ text_of (lent seen.now)) }
{
    match seen {
        Seen::Number(number) => Text::of_number(alloc, *number),
        Seen::Words(text) => text.copy(alloc),
        Seen::Bad(fault) => {
            let mut text = Text::new(alloc);
            text.push_str(fault.text())?;
            Ok(text)
        }
        Seen::Blank => Ok(Text::new(alloc)),
    }
}

/// Whether the value is that one.
fn is_same(seen: &Seen<'_>, value: &Value) -> bool
    ensures { result ≡ same_value (lent seen.now) value.now }
{
    match value {
        Value::Number(number) => is_number(seen, *number),
        Value::Words(text) => is_text(seen, text),
        Value::Bad(fault) => is_fault(seen, *fault),
        Value::Blank => is_blank(seen),
    }
}

fn is_number(seen: &Seen<'_>, number: Num) -> bool
    ensures { result ≡ same_value (lent seen.now) (Value.Number number) }
{
    match seen {
        Seen::Number(other) => other.raw() == number.raw(),
        Seen::Words(_text) => false,
        Seen::Bad(_) => false,
        Seen::Blank => false,
    }
}

fn is_text(seen: &Seen<'_>, text: &Text) -> bool
    ensures { result ≡ same_value (lent seen.now) (Value.Words text.now) }
{
    match seen {
        Seen::Number(_number) => false,
        Seen::Words(other) => other.bytes() == text.bytes(),
        Seen::Bad(_) => false,
        Seen::Blank => false,
    }
}

fn is_fault(seen: &Seen<'_>, fault: Fault) -> bool
    ensures { result ≡ same_value (lent seen.now) (Value.Bad fault) }
{
    match seen {
        Seen::Number(_number) => false,
        Seen::Words(_text) => false,
        Seen::Bad(other) => other.text() == fault.text(),
        Seen::Blank => false,
    }
}

fn is_blank(seen: &Seen<'_>) -> bool
    ensures { result ≡ same_value (lent seen.now) Value.Blank }
{
    match seen {
        Seen::Number(_number) => false,
        Seen::Words(_text) => false,
        Seen::Bad(_) => false,
        Seen::Blank => true,
    }
}
