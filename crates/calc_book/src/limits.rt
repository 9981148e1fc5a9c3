/// The most bytes that a book may have.
pub const MOST_BYTES: usize = 67_108_864;

/// How many fields of records are held before they are put into a book. Few take little memory, and many keep
/// threads from waiting for each other.
pub(crate) const CHUNK_FIELDS: usize = 65_536;
