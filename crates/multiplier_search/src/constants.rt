//! Numbers of the search. Ticks are 1/27,000,000 s.

use stream_constants::clock::TICKS_PER_SECOND;

/// A window that is tried begins so many ticks before its end: half a second.
pub const SHORT_WINDOW_TICKS: u64 = TICKS_PER_SECOND / 2;
/// A window that is tried begins so many ticks before its end: two seconds.
pub const LONG_WINDOW_TICKS: u64 = 2 * TICKS_PER_SECOND;
