//! A script's lines and the commands that they spell.
#![tactic(auto)]

mod addresses;
mod command;
mod edits;
mod laws;
mod limits;
mod read;
mod verbs;
mod words;

pub use byte_cuts::{TextLines as ScriptLines, lines};
pub use command::{Cause, Command, Line};
pub use laws::lines_make_small_books;
pub use limits::{MOST_PRINTED, MOST_WATCHED};
pub use read::read_line;
