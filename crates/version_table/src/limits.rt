//! What the numbers of a table may be. Ticks are 1/27,000,000 s.

use stream_constants::limits;

/// Ticks of a packet slot, at least.
pub const SLOT_LEAST: u32 = 1_016;
/// Ticks of a packet slot, at most.
pub const SLOT_MOST: u32 = 40_000;
/// Nodes of a search, at most; at least one.
pub const NODES_MOST: u32 = 1_048_576;
/// Evaluations of a search, at most.
pub const EVALUATIONS_MOST: u32 = 1_048_576;
/// Programs of a table, at most.
pub const PROGRAMS_MOST: usize = limits::PROGRAMS_MOST;
/// Audio streams of a program, at most.
pub const AUDIOS_MOST: usize = limits::AUDIOS_MOST;
/// Units of a table over all programs, at most.
pub const UNITS_MOST: usize = 4_194_304;
/// Versions of a unit, at most; at least one.
pub const VERSIONS_MOST: usize = 8;
/// Bytes of a version's PES packet, at most; at least one.
pub const VERSION_BYTES_MOST: u32 = 4_194_304;
/// A version's distortion is below this.
pub const DISTORTION_LIMIT: u64 = 281_474_976_710_656;
/// The greatest distortions of all units together are below this.
pub const DISTORTIONS_LIMIT: u64 = 9_223_372_036_854_775_808;
/// So many units are together below `DISTORTIONS_LIMIT`, whatever the distortions of their versions are.
pub const UNITS_OF_ANY_DISTORTION: usize = 32_768;

const _: () = prove!(UNITS_OF_ANY_DISTORTION as u64 * (DISTORTION_LIMIT - 1) < DISTORTIONS_LIMIT);

/// Due and gone times are at most this many slots, so that the number of a slot in which a packet goes has 32 bits.
pub const TIME_SLOTS_MOST: u64 = 2_147_483_648;
/// Audio packets of a table are fewer than this.
pub const AUDIO_PACKETS_LIMIT: u64 = 4_294_967_296;
/// Audio packets in a table text, at most.
pub const TEXT_AUDIO_PACKETS_MOST: usize = 16_777_216;
/// Bytes of a table text, at most.
pub const TABLE_TEXT_MOST: usize = 1_073_741_824;
