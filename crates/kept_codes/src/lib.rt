//! The formulas of groups: their cells, and those that keep their codes when rows are inserted or deleted.
#![tactic(auto)]

mod cells;
mod changing;
mod grouped;

pub use cells::{COLUMNS, cell_in};
pub use changing::{home_after, push_changing};
pub use grouped::grouped_cells;
