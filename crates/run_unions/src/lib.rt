//! The cells of runs, each once, in the order of cells.
#![tactic(auto)]

mod entry;
mod keys;
mod union;

pub use entry::{Entry, Runs};
pub use union::push_union;
