//! By how much a packet comes late that misses its time.

use crate::amounts::Milliseconds;
use dual_bounds::constants::MARGIN_TICKS;
use std::alloc::{AllocError, Global};

/// A packet that misses: in which slot, of how many ticks, and when it is due.
#[derive(Clone, Copy)]
pub(crate) struct Miss {
    /// Ticks of a slot.
    pub(crate) length: u64,
    /// The slot behind which the miss shows, from 0.
    pub(crate) slot: u64,
    /// When the packet is due, in ticks from the stream's first byte.
    pub(crate) due: u64,
}

impl Miss {
    /// When the slot ends, in ticks from the stream's first byte.
    pub(crate) fn end(self) -> u64 {
        self.slot.saturating_add(1).saturating_mul(self.length)
    }

    /// By how many ticks the packet comes late at least: it isn't there a margin behind the end of its slot.
    fn ticks_late(self) -> u64 {
        self.end()
            .saturating_add(MARGIN_TICKS)
            .saturating_sub(self.due)
    }
}

/// By how much a packet comes late at least, in slots and milliseconds. What waits before it in its buffer comes on top of that, and is all
/// where it would be in time by its slot.
pub(crate) fn late_in_words(alloc: Global, miss: Miss) -> Result<String, AllocError> {
    let ticks = miss.ticks_late();
    if ticks == 0 {
        return String::from_str(
            alloc,
            "comes late by what still waits before it in its buffer",
        );
    }
    let slots = ticks.div_ceil(miss.length.max(1));
    let name = if slots == 1 { "slot" } else { "slots" };
    format!(in alloc;
        "comes {slots} {name}, {late} ms late at least",
        late = Milliseconds { ticks }
    )
}
