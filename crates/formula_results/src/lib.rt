//! The stored results of a book's formulas, and what each cell shows by them.
#![tactic(auto)]

mod results;
mod show;
mod values;

pub use results::FormulaResults;
pub use show::{number_shown, show_cell, shown};
pub use values::ShownCells;
