//! A hub that holds what the formulas of a book read, which stand as codes in the groups of columns.
#![tactic(auto)]

mod areas;
mod laws;
mod rows;
mod runs;
mod single;
mod users;
mod whole;

pub use areas::{listen_area, silence};
pub use laws::{
    names_agree_elsewhere, reads_go_with_cells, reads_go_with_names, reads_go_with_rows,
};
pub use single::listen_cell;
pub use users::listen_users;
pub use whole::listen_all;
