//! The fields behind an escape code among coefficients (7.2.2.3, Table B-16).

/// Bits of the run.
pub const RUN_BITS: u32 = 6;

/// Bits of the level, in two's complement.
pub const LEVEL_BITS: u32 = 12;
