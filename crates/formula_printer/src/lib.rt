//! The printing of contents: the text of a field that a content comes from.
#![tactic(auto)]

mod content;
mod laws;
mod quote;
mod tree;

pub use content::print_content;
pub use laws::printed_formulas_spell_their_tree;
