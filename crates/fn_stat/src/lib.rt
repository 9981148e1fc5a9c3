//! Functions of lists and areas: sums, means, extremes, products and counts, each by its definition.
#![tactic(auto)]

mod counts;
mod criteria;
mod extremes;
mod selected;
mod sums;

pub use counts::{fn_count, fn_counta, fn_countblank};
pub use criteria::fn_countif;
pub use extremes::{fn_max, fn_min, fn_product};
pub use selected::fn_sumif;
pub use sums::{fn_average, fn_sum};
