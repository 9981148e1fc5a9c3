//! Tables of runs: what the rows of a column hold, as its maximal runs.
#![tactic(auto)]

mod edges;
mod piece;
mod search;
mod splicing;

pub use piece::Piece;
pub use search::{first_ending_past, first_past, piece_at};
pub use splicing::splice;
