//! The reading of fields: what a cell holds whose field is a given text, after OpenFormula's expression
//! syntax.
#![tactic(auto)]

mod constant;
mod cursor;
mod field;
mod formula;
mod laws;
mod operands;
mod operators;
mod references;
mod signs;
mod tokens;
mod words;

pub use field::read_field;
pub use laws::{a_text_spells_one_tree, fields_have_one_meaning};
