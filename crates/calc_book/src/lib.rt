//! A book's bytes in, its cells out.
#![tactic(auto)]

mod cause;
mod contents;
mod filled;
mod growing;
mod laws;
mod limits;
mod loading;
mod placing;
mod rows;

pub use cause::{BookCause, BookFault, push_cause};
pub use laws::books_are_read_as_csv;
pub use limits::MOST_BYTES;
pub use loading::load;
