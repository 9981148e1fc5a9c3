//! Functions of numbers and logical values, each by its definition.
#![tactic(auto)]

mod kinds;
mod logic;
mod numbers;
mod operands;
mod rounding;
mod truths;

pub use kinds::{fn_isblank, fn_iserror, fn_isna, fn_isnumber, fn_istext};
pub use logic::{fn_and, fn_false, fn_if, fn_iferror, fn_na, fn_not, fn_or, fn_true};
pub use numbers::{fn_abs, fn_int, fn_mod, fn_power, fn_quotient, fn_sign, fn_sqrt};
pub use rounding::{fn_round, fn_rounddown, fn_roundup, fn_trunc};
