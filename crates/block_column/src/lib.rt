//! What the rows of a column hold, as blocks of neighbouring rows of one kind.
#![tactic(auto)]

mod block;
mod column;
mod counts;
mod more;
mod replace;
mod slot;
mod stores;
mod table;

pub use block::{Block, Kind};
pub use column::BlockColumn;
pub use slot::{Slot, SlotRef};
