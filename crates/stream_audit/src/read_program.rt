//! What is read of a file before the streams of a program: the program, its sections, and its clock.
ghost use Rattle.std.specs.Prelude.{◌≤◌, ◌^◌, IfErr, IfOk};
ghost use Rattle.stream_audit.specs.Refusals.{IsProgramStopped};
ghost use Rattle.stream_audit.specs.Private.Audit.{HasProgram};

use crate::audit_stop::{AuditStop, demux_stop};
use crate::audited_program::AUDITED_BYTES_MOST;
use crate::audited_stream::AuditedStream;
use crate::file_clock::{FoundClock, found_clock};
use crate::sections::system_stream;
use std::alloc::Global;
use ts_demux::{Demuxed, demux, find_map};

/// What is read of a file before the streams of a program.
#[derive(Drop)]
pub struct ReadProgram {
    pub demuxed: Demuxed,
    /// The sections of PID 0 and of the map's PID, as the decoder's system buffers get them.
    pub system: AuditedStream,
    pub clock: FoundClock,
}

/// Takes a program out of a file whose slots last `slot` ticks, and reads the packets of its sections and its clock. An error is the
/// first refusal in that order; or want of memory.
pub fn read_program(
    alloc: Global,
    file: &[u8],
    program: u16,
    slot: u32,
) -> Result<ReadProgram, AuditStop>
    requires slot_fits { slot ≤ 2 ^ 16 }
    ensures read { IfOk result (HasProgram file.now program slot) }
    ensures refused { IfErr result (IsProgramStopped file.now program slot) }
{
    if file.len() > AUDITED_BYTES_MOST {
        return Err(AuditStop::ProgramLimit);
    }
    let demuxed = match demux(alloc, file, program, &[]) {
        Ok(demuxed) => demuxed,
        Err(fault) => return Err(demux_stop(fault)),
    };
    let placed = match find_map(file, program) {
        Ok(placed) => placed,
        Err(fault) => return Err(demux_stop(fault)),
    };
    let system = match system_stream(alloc, file, placed.pid) {
        Ok(system) => system,
        Err(fault) => return Err(demux_stop(fault)),
    };
    match found_clock(alloc, file, slot, demuxed.map.pcr_pid) {
        Ok(clock) => Ok(ReadProgram {
            demuxed,
            system,
            clock,
        }),
        Err(stop) => Err(stop),
    }
}
