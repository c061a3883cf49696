//! The symbols of code tables that aren't plain values.

/// macroblock_escape of Table B-1: 33 is added to the increment that follows.
pub const ADDRESS_ESCAPE: u16 = 34;

/// macroblock_quant of Tables B-2 to B-4: a quantiser_scale_code follows.
pub const QUANT: u16 = 16;

/// macroblock_motion_forward of Tables B-3 and B-4: there are forward vectors.
pub const FORWARD: u16 = 8;

/// macroblock_motion_backward of Table B-4: there are backward vectors.
pub const BACKWARD: u16 = 4;

/// macroblock_pattern of Tables B-3 and B-4: a coded_block_pattern follows.
pub const PATTERN: u16 = 2;

/// macroblock_intra of Tables B-2 to B-4: the macroblock is intra coded.
pub const INTRA: u16 = 1;

/// How far the symbols of a run lie above those of the run below, in Tables B-14 and B-15.
pub const LEVELS_PER_RUN: u16 = 64;

/// Tables B-14 and B-15 have codes for the runs below this one.
pub const RUNS: u16 = 32;

/// End of block, of Tables B-14 and B-15.
pub const END_OF_BLOCK: u16 = 4000;

/// Escape, of Tables B-14 and B-15: 6 bits of run and 12 bits of level follow.
pub const ESCAPE: u16 = 4001;
