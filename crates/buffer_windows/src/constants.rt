//! Numbers of windows that see the buffers.

use dual_bounds::constants::DISTORTION_PARTS;
use stream_constants::clock::TICKS_PER_SECOND;
use stream_constants::packets::PAYLOAD_BYTES;

/// Windows of one bound, at most.
pub const BUFFER_WINDOWS_MOST: usize = 4_096;
/// Windows that can charge for what is due in a stretch of time, at most, to be kept apart for it.
pub(crate) const NEAR_WINDOWS_MOST: usize = 64;
/// How long such a stretch is: four seconds, in ticks.
pub(crate) const NEAR_TICKS: u64 = 4 * TICKS_PER_SECOND;
/// Lambdas and values are in parts of a distortion, of which it has so many: 256 for each byte of a packet's payload.
pub const BYTE_PARTS: u64 = DISTORTION_PARTS * PAYLOAD_BYTES as u64;

const _: () = prove!(BYTE_PARTS == 47_104);
