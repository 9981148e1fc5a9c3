//! The cells of a book as columns of slots, with the codes of their formulas and their groups.
#![tactic(auto)]

mod cells;
mod columns;
mod counting;
mod emptying;
mod filling;
mod lending;
mod looking;
mod reading;
mod row_edits;
mod shifting;
mod slots;
mod walking;

pub use columns::CellColumns;
pub use lending::CodedGroups;
pub use looking::Coded;
