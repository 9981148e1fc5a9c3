//! Listeners to areas: pairs of an area and an id, which are found by an area that meets theirs.
#![tactic(auto)]

mod gathering;
mod listener;
mod listeners;
mod spot;

pub use gathering::Ids;
pub use listener::Listener;
pub use listeners::AreaListeners;
