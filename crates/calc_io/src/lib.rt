//! The outside of calc: where a book and a script come from, and where the output goes.
//!
//! A `Desk` lends books by their names and one script, and a `Sink` takes what is written. Both count
//! their faults, so that whoever is answered `Failed` knows whose failure it was. A `Gate` is told of each
//! unit of a recalculation.
#![tactic(auto)]

mod desk;
mod edge;
mod faults;
mod gate;
mod memory;
mod page;
mod shelf;
mod sink;
mod steady;

pub use desk::Desk;
pub use edge::{PipeDesk, PipeSink};
pub use faults::{DeviceFault, Failed};
pub use gate::{Gate, NoGate};
pub use memory::{MemoryDesk, MemorySink};
pub use sink::Sink;
pub use steady::{SteadyDesk, SteadySink};
