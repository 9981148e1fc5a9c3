//! Registrations: runs of formulas with what their rows read, by place, and who listens to that.
#![tactic(auto)]

mod cuts;
mod joining;
mod listening;
mod registration;
mod slab;

pub use cuts::{ears_below, remove_run, split_at};
pub use joining::put_joined;
pub use listening::{area_of, steps_before, steps_of};
pub use registration::{Registration, place_of, registration_at, registration_of};
pub use slab::{Slab, empty};
