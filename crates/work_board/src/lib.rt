//! Boards that share work among threads. No call waits.
//!
//! From a draw board each worker draws numbers of units, and no unit is drawn twice. On a mark
//! board workers mark bits, and each bit has one first marker. A worker acts through a pass of its own,
//! which takes no memory: what a pass drew or marked is known to contracts alone.
#![tactic(auto)]

mod draw_board;
mod draw_pass;
mod laws;
mod mark_board;
mod mark_pass;
mod pass_view;
mod rules;
#[cfg(test)]
mod tests;

pub use draw_pass::{DrawBoard, DrawPass};
pub use laws::{
    each_bit_has_one_first_marker, each_unit_is_drawn_once, gathered_is_one_threads_answer,
};
pub use mark_pass::{MarkBoard, MarkPass};
pub use pass_view::PassView;
use std::alloc::AllocError;

/// Want of memory.
pub type NoMemory = AllocError;
