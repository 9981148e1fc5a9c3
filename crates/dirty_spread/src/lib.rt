//! Which formulas are stale after an edit, and in which order stale formulas are calculated.
#![tactic(auto)]

mod by_parts;
mod circles;
mod finding;
mod level_lists;
mod leveling;
mod look;
mod marking;
mod spreading;
mod union;
mod waves;

pub use cell_runs::WaveList;
pub use spreading::spread;
pub use union::union_of_runs;
pub use waves::{Waves, order};
