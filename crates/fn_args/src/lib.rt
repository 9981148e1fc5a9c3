//! What functions take of their parameters, and the walk over the cells of areas and the numbers of lists.
#![tactic(auto)]

mod answers;
mod counts;
mod kinds;
mod pairs;
mod picks;
mod pieces;
mod tally;
mod wanted;
mod words;

pub use answers::{copied, counted, scalar, truth, value, value_of};
pub use counts::{Test, count_area, count_list};
pub use kinds::{area, number, truth_value, whole};
pub use picks::tally_picked;
pub use pieces::Pieces;
pub use tally::{Tally, lies_in_sheet, small, tally_list};
pub use wanted::{Wanted, order_in_kind, wanted_by};
pub use words::{Words, text};
