//! How much this project carries.

/// The most programs of a stream.
pub const PROGRAMS_MOST: usize = 8;

/// The most audio streams of a program that are carried.
pub const AUDIOS_MOST: usize = 8;
