//! What the rows of a run read by one reference: the area of each row, which rows meet an area, and what
//! becomes of them when rows of a sheet are inserted or deleted. Every call takes constant time, and none
//! allocates.
#![tactic(auto)]

mod chains;
mod laws;
mod row_edit;
mod run_areas;

pub use chains::{reads_above, reads_below};
pub use laws::{areas_meet_in_a_cell, chains_go_on, hulls_hold_the_areas};
pub use row_edit::{Change, RowEdit, ear_after, run_after, whole_rows, whole_steps};
pub use run_areas::{
    Steps, area_at, ear_below, hull, is_below, is_same_area, meets, steps_meeting,
};
