//! How far down a column a formula that is moved there has one relative form.
#![tactic(auto)]

mod alike;

pub use alike::last_alike;
