//! Stale formulas calculated again, wave after wave, over the results of the others.
#![tactic(auto)]

mod evaluating;
mod recalculating;
mod stored;
mod units;
mod value;

pub use stored::{Recalculated, StoredResults};
pub use units::UNIT_ROWS;
