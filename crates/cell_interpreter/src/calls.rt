ghost use Rattle.std.specs.Prelude.{◌≡◌, ◌≤◌, IfOk, length};
ghost use Rattle.calc_model.specs.Arguments.{meanings_of};
ghost use Rattle.calc_model.specs.Functions.{function_value, given};

use calc_addr::{Cell, NoMemory};
use calc_model::{Arg, Fault, Function, MOST_PARAMETERS, Text, Value, Values, form_named};
use fn_lookup::{
    fn_choose, fn_column, fn_columns, fn_hlookup, fn_index, fn_match, fn_row, fn_rows, fn_vlookup,
};
use fn_math::{
    fn_abs, fn_and, fn_false, fn_if, fn_iferror, fn_int, fn_isblank, fn_iserror, fn_isna,
    fn_isnumber, fn_istext, fn_mod, fn_na, fn_not, fn_or, fn_power, fn_quotient, fn_round,
    fn_rounddown, fn_roundup, fn_sign, fn_sqrt, fn_true, fn_trunc,
};
use fn_stat::{
    fn_average, fn_count, fn_counta, fn_countblank, fn_countif, fn_max, fn_min, fn_product, fn_sum,
    fn_sumif,
};
use fn_text::{
    fn_concatenate, fn_exact, fn_find, fn_left, fn_len, fn_mid, fn_rept, fn_right, fn_value,
};
use std::alloc::Global;

/// What a call of the function with that name gives: `#NAME?` where there is none, and `#VALUE!` for a
/// number of parameters that it doesn't take.
#[tactic(auto, unfolding(calc_model::specs::Functions::function_value))]
pub(crate) fn call<V: Values>(
    alloc: Global,
    name: &Text,
    args: &[Arg],
    home: Cell,
    values: &V,
) -> Result<Value, NoMemory>
    ensures { IfOk result (λ v. v ≡ function_value home name.now
        (meanings_of home (V.values values.now) args.now)) }
{
    match form_named(name.as_str()) {
        None => Ok(Value::Bad(Fault::BadName)),
        Some(form) => {
            if form.takes(args.len()) {
                apply(alloc, form.function, args, home, values)
            } else {
                Ok(Value::Bad(Fault::BadValue))
            }
        }
    }
}

/// What a function gives.
fn apply<V: Values>(
    alloc: Global,
    function: Function,
    args: &[Arg],
    home: Cell,
    values: &V,
) -> Result<Value, NoMemory>
    requires few { length args.now ≤ MOST_PARAMETERS }
    ensures { IfOk result (λ v. v ≡ given function home
        (meanings_of home (V.values values.now) args.now)) }
{
    match function {
        Function::Abs => fn_abs(alloc, args, home, values),
        Function::Sign => fn_sign(alloc, args, home, values),
        Function::Int => fn_int(alloc, args, home, values),
        Function::Trunc => fn_trunc(alloc, args, home, values),
        Function::RoundDown => fn_rounddown(alloc, args, home, values),
        Function::Round => fn_round(alloc, args, home, values),
        Function::RoundUp => fn_roundup(alloc, args, home, values),
        Function::Mod => fn_mod(alloc, args, home, values),
        Function::Quotient => fn_quotient(alloc, args, home, values),
        Function::Power => fn_power(alloc, args, home, values),
        Function::Sqrt => fn_sqrt(alloc, args, home, values),
        Function::And => fn_and(alloc, args, home, values),
        Function::Or => fn_or(alloc, args, home, values),
        Function::Not => fn_not(alloc, args, home, values),
        Function::True => fn_true(alloc, args, home, values),
        Function::False => fn_false(alloc, args, home, values),
        Function::Na => fn_na(alloc, args, home, values),
        Function::If => fn_if(alloc, args, home, values),
        Function::IfError => fn_iferror(alloc, args, home, values),
        Function::IsError => fn_iserror(alloc, args, home, values),
        Function::IsNa => fn_isna(alloc, args, home, values),
        Function::IsNumber => fn_isnumber(alloc, args, home, values),
        Function::IsText => fn_istext(alloc, args, home, values),
        Function::IsBlank => fn_isblank(alloc, args, home, values),
        Function::Len => fn_len(alloc, args, home, values),
        Function::Left => fn_left(alloc, args, home, values),
        Function::Right => fn_right(alloc, args, home, values),
        Function::Mid => fn_mid(alloc, args, home, values),
        Function::Find => fn_find(alloc, args, home, values),
        Function::Rept => fn_rept(alloc, args, home, values),
        Function::Exact => fn_exact(alloc, args, home, values),
        Function::Concatenate => fn_concatenate(alloc, args, home, values),
        Function::Value => fn_value(alloc, args, home, values),
        Function::Sum => fn_sum(alloc, args, home, values),
        Function::Average => fn_average(alloc, args, home, values),
        Function::Min => fn_min(alloc, args, home, values),
        Function::Max => fn_max(alloc, args, home, values),
        Function::Product => fn_product(alloc, args, home, values),
        Function::Count => fn_count(alloc, args, home, values),
        Function::CountA => fn_counta(alloc, args, home, values),
        Function::CountBlank => fn_countblank(alloc, args, home, values),
        Function::CountIf => fn_countif(alloc, args, home, values),
        Function::SumIf => fn_sumif(alloc, args, home, values),
        Function::Index => fn_index(alloc, args, home, values),
        Function::Match => fn_match(alloc, args, home, values),
        Function::VLookup => fn_vlookup(alloc, args, home, values),
        Function::HLookup => fn_hlookup(alloc, args, home, values),
        Function::Choose => fn_choose(alloc, args, home, values),
        Function::Row => fn_row(alloc, args, home, values),
        Function::Column => fn_column(alloc, args, home, values),
        Function::Rows => fn_rows(alloc, args, home, values),
        Function::Columns => fn_columns(alloc, args, home, values),
    }
}
