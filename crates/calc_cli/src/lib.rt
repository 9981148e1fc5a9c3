//! The command: a book and a script in, the output of the script's lines out.
#![tactic(auto)]

mod cell_texts;
mod column_lines;
mod command;
mod end;
mod input_bytes;
mod inputs;
mod limits;
mod output;
mod records;
mod replies;
mod session;
mod status;
mod written;

pub use command::run;
pub use limits::MOST_SCRIPT_BYTES;
pub use status::{
    BAD_WORDS, BOOK_REFUSED, DESK_FAILED, DONE, LINE_REFUSED, NO_MEMORY, SCRIPT_TOO_LONG,
    SINK_FAILED, message,
};
