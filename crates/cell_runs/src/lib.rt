//! Lists of cells, kept as runs: one in area order, and several one behind the other.
#![tactic(auto)]

mod cells;
#[cfg(test)]
mod tests;
mod wave_list;

pub use cells::CellRuns;
pub use wave_list::WaveList;
