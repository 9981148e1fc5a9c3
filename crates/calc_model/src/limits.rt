//! The limits of books and of fields.

/// The most cells of a book that aren't empty.
pub const MOST_CELLS: usize = 4_194_304;

/// The most names of a book.
pub const MOST_NAMES: usize = 1_024;

/// The most rows of a generated book.
pub const MOST_GENERATED_ROWS: u32 = 100_000;

/// The greatest start of a generated book.
pub const MOST_START: u32 = 65_536;

/// The most bytes of a field that is kept.
pub const MOST_FIELD_BYTES: usize = 65_535;

/// The most bytes of a text that is read as a formula.
pub const MOST_FORMULA_BYTES: usize = 8_192;

/// The most tokens of a formula behind its front.
pub const MOST_TOKENS: usize = 1_024;

/// The most parentheses, of calls or not, that are open at one point of a formula.
pub const MOST_OPEN: u8 = 64;

/// The most parameters of a call.
pub const MOST_PARAMETERS: usize = 30;
