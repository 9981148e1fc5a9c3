//! Kernels over spans of raw numbers: plain loops without a branch, which become vector code.
//!
//! Each call equals the fold of its definition, allocates nothing and is linear in its slices. A span has
//! at most [`MOST_LANES`] items.
#![tactic(auto)]

mod arithmetic;
mod choices;
mod folds;
mod kernels;
mod lanes;
#[cfg(test)]
mod tests;
mod windows;

pub use arithmetic::{Crossed, add, sub};
pub use choices::{compare, select};
pub use folds::{count_where, max, min, sum};
pub use kernels::Kernels;
pub use lanes::Lanes;
pub use windows::window_sums;

/// The raw number of 1, which a comparison writes where it holds.
pub const ONE: i64 = 1_000_000_000;

/// The greatest length of a slice: the rows of a column.
pub const MOST_LANES: usize = 1_048_576;
