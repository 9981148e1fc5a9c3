//! The statuses that a run ends with, and what is said of them on standard error.
ghost use Rattle.std.specs.Prelude.{◌≡◌};
ghost use Rattle.calc_cli.specs.Messages.{message_of};

/// All output is written, and no line was refused.
pub const DONE: u8 = 0;

/// All output is written, and a line was refused.
pub const LINE_REFUSED: u8 = 1;

/// The words aren't of the command. Nothing is read or written.
pub const BAD_WORDS: u8 = 2;

/// The desk failed. Nothing is written.
pub const DESK_FAILED: u8 = 3;

/// The sink failed.
pub const SINK_FAILED: u8 = 4;

/// Memory was refused.
pub const NO_MEMORY: u8 = 5;

/// The book is refused.
pub const BOOK_REFUSED: u8 = 6;

/// The script is too long. Nothing is written.
pub const SCRIPT_TOO_LONG: u8 = 7;

/// What a user is told of a run that ended with this status, as a line without its end, or nothing.
pub fn message(status: u8) -> &'static str
    ensures { result.now ≡ message_of status }
{
    match status {
        BAD_WORDS => "usage: calc [--workers N] BOOK",
        DESK_FAILED => "the book or the script can't be read",
        SINK_FAILED => "the output can't be written",
        NO_MEMORY => "out of memory",
        SCRIPT_TOO_LONG => "the script has more than 16,777,216 bytes",
        _ => "",
    }
}
