//! Numbers of the bounds. Ticks are 1/27,000,000 s.

use slot_rule::constants::MARGIN_SUBTICKS;
use stream_constants::clock::SUBTICKS_PER_TICK;

/// Multipliers or windows of one bound, at most.
pub const WINDOWS_MOST: usize = 64;
/// The greatest lambda: 2^40.
pub const LAMBDA_MOST: u64 = 1_099_511_627_776;

const _: () = prove!(LAMBDA_MOST == 1 << 40);

const _: () = prove!(WINDOWS_MOST as u64 * LAMBDA_MOST == 1 << 46);

/// Lambdas and values are in parts of a distortion, of which it has so many.
pub const DISTORTION_PARTS: u64 = 256;
/// Ticks from the end of a packet's slot to its due time, at least, in every schedule.
pub const MARGIN_TICKS: u64 = MARGIN_SUBTICKS / SUBTICKS_PER_TICK;

const _: () = prove!(MARGIN_TICKS * SUBTICKS_PER_TICK == MARGIN_SUBTICKS);
