//! What a program's file may be, beside the limits of tables.

use stream_constants::packets::PAYLOAD_BYTES;
use version_table::limits;

/// Bytes of a file, at most, and of all files of a job together.
pub const FILE_BYTES_MOST: usize = 1_099_511_627_776;

const _: () = prove!(FILE_BYTES_MOST == 1 << 40);

const _: () = prove!(FILE_BYTES_MOST as u64 <= audio_frames::PAYLOAD_BYTES_MOST);

/// PES packets of a carried stream, at most: as many as have times on one axis.
pub const PES_PACKETS_MOST: usize = elementary_streams::PES_PACKETS_MOST;
/// Units of all programs of a job, at most: as many as a table may have.
pub const UNITS_MOST: usize = limits::UNITS_MOST;
/// Due and gone times of a job are at most this many slots: as those of a table may be.
pub const TIME_SLOTS_MOST: u64 = limits::TIME_SLOTS_MOST;

/// Bytes of a unit, at most: a megabyte, as many as a unit that has versions may have.
pub const UNIT_BYTES_MOST: u64 = 1_048_576;

const _: () = prove!(UNIT_BYTES_MOST == version_maker::UNIT_BYTES_MOST as u64);

/// Payload bytes of a piece of an audio PES packet, at most: those of a transport packet.
pub const PIECE_BYTES: u64 = 184;

const _: () = prove!(PIECE_BYTES == PAYLOAD_BYTES as u64);

/// Coded frames with a P picture that count for the picture that they are predicted from, at most: more than a group of pictures
/// mostly has.
pub const FRAMES_CARRIED_MOST: u8 = 12;

/// What the distortions of a unit are multiplied by, at most: the greatest weight, and the carry of a picture that the most coded
/// frames follow at the greatest drift.
pub const UNIT_WEIGHT_MOST: u32 = 20_000;

const _: () = prove!(UNIT_WEIGHT_MOST == 100 * (8 + 16 * FRAMES_CARRIED_MOST as u32));
