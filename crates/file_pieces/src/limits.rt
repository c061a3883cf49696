//! How far files are read.

/// A file is read no further than up to this place: it may be no longer.
pub const READ_MOST: u64 = program_reader::limits::FILE_BYTES_MOST as u64;
