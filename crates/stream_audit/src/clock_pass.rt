//! The clock of a file, out of a source that gives the file (ISO/IEC 13818-1, 2.4.2.2).
ghost use Rattle.std.specs.Prelude.{◌≡◌, ◌⊎◌, ◌^◌, ◌≤◌, [], IfErr, IfNone, IfOk, IfSome, IsErrOf};
ghost use Rattle.shelf_io.specs.Causes.{SourceCauses};
ghost use Rattle.ts_demux.specs.declared.pass_fault.PassFault.TheVariants.{Outside};
ghost use Rattle.ts_demux.specs.Pass.{IsWhole};
ghost use Rattle.stream_audit.specs.declared.audit_stop.AuditStop.TheVariants.{NoPcr};
ghost use Rattle.stream_audit.specs.declared.file_clock.TheConstants.{NULL_PID};
ghost use Rattle.stream_audit.specs.declared.places_fault.PlacesFault.TheVariants as faults;
ghost use Rattle.stream_audit.specs.Clock.{IsClockOf};
ghost use Rattle.stream_audit.specs.PlacePass.{IsPassRefused};
ghost use Rattle.stream_audit.specs.Refusals.{IsClockStopped};

use crate::clock::FileClock;
use crate::file_clock::{FoundClock, NULL_PID};
use crate::place_pass::pass_places;
use crate::place_walk::PlaceWalk;
use crate::places_fault::PlacesFault;
use shelf_io::{Fault, Source};
use ts_demux::{PacketBuffer, Place};

impl PlaceWalk for FileClock {
    ghost use Rattle.std.specs.Prelude.{◌≡◌, ◌^◌, ◌≤◌};
    ghost use Rattle.stream_audit.specs.Clock.{HasSeen};

    ghost has_taken = { λ start places clock. (clock.slot ≡ start.slot) × (clock.slot ≤ 2 ^ 16) × HasSeen start.slot places clock };

    fn see(&mut self, place: &Place) {
        self.take(place)
    }
}

/// The clock of a file whose slots last `slot` ticks, by the references on a PID, as the file passes out of a source from its front on; none
/// where the PID has no reference, as where it is that of null packets, for which nothing is read. An error is the source's fault, that of
/// the first packet that is refused for the PID, or that there are too many packets.
pub fn read_clock<S: Source>(
    buffer: &mut PacketBuffer,
    source: &mut S,
    slot: u32,
    pid: u16,
) -> Result<Option<FoundClock>, PlacesFault>
    requires slot_fits { slot ≤ 2 ^ 16 }
    requires empty { buffer.old ≡ [] }
    ensures clock { IfOk result (λ found. IfSome found (λ clock. IsWhole (S.left source.old) (S.left source.new) (S.most source.old) (S.most source.new) buffer.new
        (λ file. IsClockOf file slot pid clock))) }
    ensures none { IfOk result (λ found. IfNone found ((pid ≡ NULL_PID) ⊎ IsWhole (S.left source.old) (S.left source.new) (S.most source.old) (S.most source.new) buffer.new
        (λ file. IsClockStopped file slot pid NoPcr))) }
    ensures refused { IfErr result (IsPassRefused (S.left source.old) (S.left source.new) (S.most source.old) (S.most source.new) buffer.new pid) }
    ensures causes { SourceCauses S.faults S.absences (IsErrOf result (faults.Passing (Outside Fault.Failed))) (IsErrOf result (faults.Passing (Outside Fault.Missing))) source.old source.new }
    ensures keeps { S.keeps source.old source.new }
{
    if pid == NULL_PID {
        return Ok(None);
    }
    let mut clock = FileClock::new(slot);
    match pass_places(buffer, source, pid, &mut clock) {
        Ok(()) => {}
        Err(fault) => return Err(fault),
    }
    let Some(zero) = clock.zero() else {
        return Ok(None);
    };
    Ok(Some(FoundClock {
        zero,
        off: clock.first_off(),
    }))
}
