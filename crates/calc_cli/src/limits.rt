/// The most bytes that a script may have.
pub const MOST_SCRIPT_BYTES: usize = 16_777_216;
