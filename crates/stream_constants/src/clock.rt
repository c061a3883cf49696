//! The system clock (13818-1, 2.4.2.1), and the clock of this project that makes each instant a whole number.
use crate::packets::PACKET_BYTES;

/// Ticks in a second (system_clock_frequency).
pub const TICKS_PER_SECOND: u64 = 27_000_000;

// a frame of 30,000/1,001 a second lasts 900,900 ticks
const _: () = prove!(TICKS_PER_SECOND * 1_001 == 900_900 * 30_000);

/// Ticks in a unit of 1/90,000 s, in which a PTS, a DTS and the base of a PCR count (2.4.2.2).
pub const TICKS_PER_TIME_UNIT: u64 = 300;

const _: () = prove!(90_000 * TICKS_PER_TIME_UNIT == TICKS_PER_SECOND);

/// Subticks in a tick. A slot of a whole number of ticks is a whole number of subticks for each of its 188 bytes, and
/// so is each byte's time at each rate of the decoder.
pub const SUBTICKS_PER_TICK: u64 = 940;

/// Subticks from a byte of a packet to the next one, for each tick of the slot.
pub const BYTE_SUBTICKS_PER_TICK: u64 = 5;

const _: () = prove!(BYTE_SUBTICKS_PER_TICK * PACKET_BYTES as u64 == SUBTICKS_PER_TICK);

/// Subticks in a second.
pub const SUBTICKS_PER_SECOND: u64 = SUBTICKS_PER_TICK * TICKS_PER_SECOND;
