//! Times in seconds and milliseconds, packets in megabits and slots as rates, as people read them.

use std::fmt;
use stream_constants::clock::TICKS_PER_SECOND;
use stream_constants::packets::PACKET_BYTES;

/// Ticks of a microsecond.
const TICKS_PER_MICROSECOND: u64 = TICKS_PER_SECOND / 1_000_000;

/// Ticks of a millisecond.
const TICKS_PER_MILLISECOND: u64 = TICKS_PER_SECOND / 1_000;

/// Bits of a transport packet.
const PACKET_BITS: u64 = 8 * PACKET_BYTES as u64;

/// Bits that a stream of slots of one tick would have in a second.
const TICK_RATE: u64 = PACKET_BITS * TICKS_PER_SECOND;

/// A time, printed in seconds.
#[derive(Clone, Copy)]
pub(crate) struct Seconds {
    pub(crate) ticks: u64,
}

impl fmt::Display for Seconds {
    fn fmt<W: fmt::Write>(&self, f: &mut fmt::Formatter<W>) -> fmt::Result {
        let whole = self.ticks / TICKS_PER_SECOND;
        let parts = self.ticks % TICKS_PER_SECOND / TICKS_PER_MICROSECOND;
        write!(f, "{whole}.{parts:06}")
    }
}

/// The bits of packets, printed in megabits.
#[derive(Clone, Copy)]
pub(crate) struct Megabits {
    bits: u64,
}

impl Megabits {
    /// The bits of so many packets.
    pub(crate) fn of(packets: u64) -> Megabits {
        Megabits {
            bits: packets.saturating_mul(PACKET_BITS),
        }
    }
}

impl fmt::Display for Megabits {
    fn fmt<W: fmt::Write>(&self, f: &mut fmt::Formatter<W>) -> fmt::Result {
        let whole = self.bits / 1_000_000;
        let parts = self.bits % 1_000_000 / 1_000;
        write!(f, "{whole}.{parts:03}")
    }
}

/// A time, printed in milliseconds.
#[derive(Clone, Copy)]
pub(crate) struct Milliseconds {
    pub(crate) ticks: u64,
}

impl fmt::Display for Milliseconds {
    fn fmt<W: fmt::Write>(&self, f: &mut fmt::Formatter<W>) -> fmt::Result {
        let whole = self.ticks / TICKS_PER_MILLISECOND;
        let parts = self.ticks % TICKS_PER_MILLISECOND / TICKS_PER_MICROSECOND;
        write!(f, "{whole}.{parts:03}")
    }
}

/// The rate of a stream with slots of so many ticks, printed in megabits a second.
#[derive(Clone, Copy)]
pub(crate) struct Rate {
    pub(crate) slot: u64,
}

impl fmt::Display for Rate {
    fn fmt<W: fmt::Write>(&self, f: &mut fmt::Formatter<W>) -> fmt::Result {
        let bits = TICK_RATE / self.slot.max(1);
        let whole = bits / 1_000_000;
        let parts = bits % 1_000_000 / 1_000;
        write!(f, "{whole}.{parts:03}")
    }
}
