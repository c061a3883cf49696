//! The buffers of the system target decoder and their rates, at Main level, by the leak method (13818-1, 2.4.2.3).
//!
//! A rate is kept as the subticks that one byte takes at it: `8 * SUBTICKS_PER_SECOND` over bits per second.
use crate::clock::{SUBTICKS_PER_SECOND, TICKS_PER_SECOND};
use crate::main_level::{BITS_PER_SECOND_MOST, VBV_MOST};

/// Bytes of a transport buffer TB, of each elementary stream and of system data.
pub const TB_BYTES: u64 = 512;

// ---- video

/// Subticks that a byte takes to leave a video stream's TB: Rx is 1.2 times the level's bit rate, 18 Mbit/s.
pub const VIDEO_TB_SUBTICKS: u64 = 11_280;

const _: () = prove!(VIDEO_TB_SUBTICKS * BITS_PER_SECOND_MOST * 12 == 8 * SUBTICKS_PER_SECOND * 10);

/// Subticks that a byte takes from a video stream's MB to its EB: Rbx is the level's bit rate, 15 Mbit/s.
pub const MB_SUBTICKS: u64 = 13_536;

const _: () = prove!(MB_SUBTICKS * BITS_PER_SECOND_MOST == 8 * SUBTICKS_PER_SECOND);

/// Bytes of EB in each unit of vbv_buffer_size, 16,384 bits (13818-2, 6.3.3).
pub const EB_UNIT_BYTES: u64 = 2_048;

const _: () = prove!(8 * EB_UNIT_BYTES == 16_384);

/// Bytes of a video stream's MB and EB together. MB has BSmux, 0.004 s of the level's bit rate, and BSoh, 1/750 s of
/// it, and what EB leaves of the level's greatest vbv buffer.
pub const VIDEO_BYTES: u64 = 239_376;

const _: () = prove!(
    VIDEO_BYTES * 8 * 750
        == BITS_PER_SECOND_MOST * 3
            + BITS_PER_SECOND_MOST
            + VBV_MOST as u64 * EB_UNIT_BYTES * 8 * 750
);

// ---- audio

/// Subticks that a byte takes to leave an audio stream's TB: Rx is 2 Mbit/s.
pub const AUDIO_TB_SUBTICKS: u64 = 101_520;

const _: () = prove!(AUDIO_TB_SUBTICKS * 2_000_000 == 8 * SUBTICKS_PER_SECOND);

/// Bytes of an audio stream's main buffer B: BSmux, 736 bytes, and BSdec and BSoh together, 2,848.
pub const AUDIO_BYTES: u64 = 3_584;

const _: () = prove!(AUDIO_BYTES == 736 + 2_848);

// ---- system data: the PAT and a program's PMT

/// Subticks that a byte takes to leave the TB of system data: Rx is 1 Mbit/s.
pub const SYSTEM_TB_SUBTICKS: u64 = 203_040;

const _: () = prove!(SYSTEM_TB_SUBTICKS * 1_000_000 == 8 * SUBTICKS_PER_SECOND);

/// Subticks that a byte takes to leave the main buffer of system data: Rbx is 80,000 bit/s, which is more than a 500th of
/// each multiplex whose slots have 1,016 ticks or more.
pub const SYSTEM_SUBTICKS: u64 = 2_538_000;

const _: () = prove!(SYSTEM_SUBTICKS * 80_000 == 8 * SUBTICKS_PER_SECOND);

/// Bytes of the main buffer of system data.
pub const SYSTEM_BYTES: u64 = 1_536;

// ---- all

/// Ticks that a byte may stay in the decoder, at most: one second (2.4.2.6).
pub const HOLD_TICKS: u64 = 27_000_000;

const _: () = prove!(HOLD_TICKS == TICKS_PER_SECOND);
