//! What a list of slots may be.

/// Lines of a list, at most; at least one.
pub const LIST_LINES_MOST: usize = 64;
/// Bytes of a list's text, at most.
pub const LIST_BYTES_MOST: usize = 1_024;
