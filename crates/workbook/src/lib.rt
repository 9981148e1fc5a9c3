//! A workbook: edits of a book, which formulas they make stale, and recalculation of these.
#![tactic(auto)]

mod copies;
mod fault;
mod name_edits;
mod names;
mod row_edits;
mod stale;
mod touched;
mod workbook;

pub use fault::EditFault;
pub use workbook::Workbook;
