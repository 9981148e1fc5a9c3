//! Formulas as arrays of tokens in postfix order, relative to their cell, each form kept once.
#![tactic(auto)]

mod building;
mod digest;
mod ears;
mod index;
mod kept;
mod laws;
mod matching;
mod node;
mod relative;
mod slots;
mod table;
mod token;
mod writing;

pub use laws::{ears_give_reads, forms_are_trees, uses_add_up};
pub use node::Node;
pub use relative::RelativeRef;
pub use table::CodeTable;
pub use token::{Token, Tokens};
