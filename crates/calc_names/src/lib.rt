//! The names of a book, each with the area that it stands for.
//!
//! A look-up takes time that grows with the logarithm of the number of names, and no memory.
#![tactic(auto)]

mod capitals;
mod fault;
mod names;
mod places;
mod shift;

pub use fault::NameFault;
pub use names::Names;
