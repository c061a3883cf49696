//! The first finding of a program of a file, by the model of the decoder (ISO/IEC 13818-1, 2.4.2).
ghost use Rattle.std.specs.Prelude.{◌≤◌, ◌^◌, MatchResult};
ghost use Rattle.stream_audit.specs.Audit.{AreAuditable, IsAudited};
ghost use Rattle.stream_audit.specs.Refusals.{IsAuditStopped};

use crate::audit_stop::AuditStop;
use crate::finding::Finding;
use crate::judge::find;
use crate::kept_units::KeptUnits;
use crate::read_program::{ReadProgram, read_program};
use crate::streams_of::streams_of;
use std::alloc::Global;

/// The most bytes of a file that is audited: 512 megabytes.
pub const AUDITED_BYTES_MOST: usize = 536_870_912;

/// The first finding of a program of a file whose slots last `slot` ticks, or `None` where there is none: a clock reference that is off;
/// else, stream by stream, a fault of its decoder, or a transport buffer that isn't empty for a second. The video's units are `kept`.
///
/// An error is the first refusal in the order of reading: that the file is longer than `AUDITED_BYTES_MOST`, of the program, of the packets of PID 0 and of the map's PID, of the clock, of
/// the video, of the audio streams in the order of the map; or want of memory.
pub fn audit(
    alloc: Global,
    file: &[u8],
    program: u16,
    slot: u32,
    kept: &KeptUnits,
) -> Result<Option<Finding>, AuditStop>
    requires slot_fits { slot ≤ 2 ^ 16 }
    requires kept { AreAuditable kept.now }
    ensures { MatchResult result (IsAudited file.now program slot kept.now) (IsAuditStopped file.now program slot kept.now) }
{
    let read = match read_program(alloc, file, program, slot) {
        Ok(read) => read,
        Err(stop) => return Err(stop),
    };
    let ReadProgram {
        demuxed,
        system,
        clock,
    } = read;
    match streams_of(alloc, file, kept, clock.zero, &demuxed, system) {
        Ok(streams) => Ok(find(slot, demuxed.map.pcr_pid, clock.off, streams.as_slice())),
        Err(stop) => Err(stop),
    }
}
