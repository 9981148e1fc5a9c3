//! A book's parts, linked with the hub of what its formulas read: every edit keeps both in step.
#![tactic(auto)]

mod cell_edits;
mod linked;
mod listening;
mod name_edits;
mod row_edits;

pub use linked::LinkedBook;
