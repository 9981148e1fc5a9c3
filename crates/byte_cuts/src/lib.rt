//! Bytes that are cut: at the first of some byte, and into lines.
//!
//! Every call is linear in the bytes that it passes over, and none allocates.
#![tactic(auto)]

mod line;
mod place;

pub use line::{LINE_FEED, TextLines, lines};
pub use place::{cut, position_of, split_once};
