//! Watchers of areas, which are told of each cell that comes to show another value.
#![tactic(auto)]

mod desktop;
mod known;
mod laws;
mod pad;
mod report;
mod watcher;

pub use desktop::Desktop;
pub use laws::values_are_told_apart;
pub use pad::{Pad, pads};
pub use report::Report;
pub use watcher::Watcher;
