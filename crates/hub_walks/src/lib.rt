//! Random edits of a hub against a plain list of cells and areas, and formulas of books whose readers are
//! known.
#![tactic(auto)]

#[cfg(test)]
mod asked;
mod book;
#[cfg(test)]
mod known;
mod model;
#[cfg(test)]
mod walk;
