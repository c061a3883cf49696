//! Numbers of this project's slot rule, which keeps the decoder's buffers from what the standard forbids.
//!
//! Ticks are 1/27,000,000 s and subticks 1/940 tick. The decoder's own numbers are those of `stream_constants`.

use stream_constants::clock::{SUBTICKS_PER_TICK, TICKS_PER_SECOND};
use stream_constants::decoder::TB_BYTES;
use stream_constants::packets::PACKET_BYTES;

/// Ticks that one period of the timetable fits into: 0.04 s, so that PCRs and program tables come at least each 0.04 s,
/// within the 0.1 s that 13818-1, 2.7.2 allows for PCRs.
pub const PERIOD_TICKS: u32 = 1_080_000;

const _: () = prove!(PERIOD_TICKS as u64 * 25 == TICKS_PER_SECOND);

/// Bytes of work that may wait in a video queue's TB where a packet goes: with the packet that goes they are 316 of the
/// 512 bytes of TB, so that a PCR packet, whose slot has no gate, still fits.
pub const VIDEO_TB_GATE: u64 = 128;
/// Bytes of work that may wait in an audio queue's TB where a packet goes: with the packet that goes they are 504 of the
/// 512 bytes of TB, and no PCR packet comes on its PID.
pub const AUDIO_TB_GATE: u64 = 316;

const _: () = prove!(VIDEO_TB_GATE + PACKET_BYTES as u64 == AUDIO_TB_GATE);

const _: () = prove!(AUDIO_TB_GATE + PACKET_BYTES as u64 + 8 == TB_BYTES);

/// Bytes that stay free in MB where a packet goes: MB can hold more bytes than its work says, since work is counted at
/// the ends of slots, as if each payload went to MB at once.
pub const MB_SPARE_BYTES: u64 = 1_024;
/// Subticks that a packet comes before its due time, at least, beside the work that waits for it: 7,200 ticks, in which
/// its last byte passes TB and what MB holds above its work.
pub const MARGIN_SUBTICKS: u64 = 6_768_000;

const _: () = prove!(MARGIN_SUBTICKS == 7_200 * SUBTICKS_PER_TICK);
