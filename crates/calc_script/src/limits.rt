/// The most cells that a line prints.
pub const MOST_PRINTED: u64 = 65_536;

/// The most cells that a line watches.
pub const MOST_WATCHED: u64 = 4_096;
