//! The clock of a file by the packets of the PID of its references (ISO/IEC 13818-1, 2.4.2.2).
ghost use Rattle.std.specs.Prelude.{◌≤◌, ◌^◌, IfErr, IfOk};
ghost use Rattle.ts_packets.specs.TransportStream.{piece_count};
ghost use Rattle.stream_audit.specs.Clock.{IsClockOf};
ghost use Rattle.stream_audit.specs.Refusals.{IsClockStopped};

use crate::audit_stop::{AuditStop, demux_stop};
use crate::clock::clock_in;
use crate::packets_of::stream_packets;
use std::alloc::Global;

/// The PID of null packets, which says that a program has no clock references (2.4.4.9).
pub const NULL_PID: u16 = 8191;

/// The clock of a file, and what the references say of it.
#[derive(Clone, Copy, Debug, PartialEq, Eq)]
pub struct FoundClock {
    /// What it shows when the file's first byte comes, in ticks.
    pub zero: u64,
    /// The byte of the file where the packet of the first reference begins that is off by 14 ticks or more.
    pub off: Option<u64>,
}

/// The clock of a file whose slots last `slot` ticks, by the references on a PID. An error is what refuses the first packet that is
/// refused for the PID, else that it has no reference, as where it is that of null packets; or want of memory.
pub fn found_clock(alloc: Global, file: &[u8], slot: u32, pid: u16) -> Result<FoundClock, AuditStop>
    requires slot_fits { slot ≤ 2 ^ 16 }
    requires few { piece_count file.now ≤ 2 ^ 32 }
    ensures clock { IfOk result (IsClockOf file.now slot pid) }
    ensures refused { IfErr result (IsClockStopped file.now slot pid) }
{
    if pid == NULL_PID {
        return Err(AuditStop::NoPcr);
    }
    let places = match stream_packets(alloc, file, pid) {
        Ok(places) => places,
        Err(fault) => return Err(demux_stop(fault)),
    };
    let clock = clock_in(slot, places.as_slice());
    match clock.zero() {
        Some(zero) => Ok(FoundClock {
            zero,
            off: clock.first_off(),
        }),
        None => Err(AuditStop::NoPcr),
    }
}
