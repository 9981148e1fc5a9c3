//! A book's parts: its cells as columns, groups and codes, and its names.
#![tactic(auto)]

mod copies;
mod generated;
mod parts;
mod pieces;
mod rows;

pub use copies::{area_at, lies_inside};
pub use parts::BookParts;
