//! Which formulas read a cell: runs of formulas with what their rows read, and listeners to it.
#![tactic(auto)]

mod hub;
mod parting;
mod reaching;
mod readers;
mod row_edits;

pub use hub::Hub;
