//! The formula groups of a column: which neighbouring rows have formulas of one relative form.
#![tactic(auto)]

mod column;
mod group;
#[cfg(test)]
mod tests;

pub use column::GroupColumn;
pub use group::Group;
