//! Functions of texts, each by its definition.
#![tactic(auto)]

mod characters;
mod finding;
mod joins;

pub use characters::{fn_left, fn_len, fn_mid, fn_right};
pub use finding::fn_find;
pub use joins::{fn_concatenate, fn_exact, fn_rept, fn_value};
