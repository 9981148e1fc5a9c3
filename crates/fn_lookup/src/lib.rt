//! Functions that look into areas, each by its definition.
#![tactic(auto)]

mod choices;
mod lookups;
mod places;
mod scan;

pub use choices::{fn_choose, fn_index};
pub use lookups::{fn_hlookup, fn_match, fn_vlookup};
pub use places::{fn_column, fn_columns, fn_row, fn_rows};
