//! The video of a program by its PES packets (ISO/IEC 13818-1, 2.4.2.3; ISO/IEC 13818-2, 6.2).
ghost use Rattle.std.specs.Prelude.{◌≡◌, ◌⊎◌, ◌<◌, ◌≤◌, ◌^◌, All, IfErr, IfOk, length, map};
ghost use Rattle.std.specs.List.Sorted.{IsNonDecreasing, IsStrictlyIncreasing};
ghost use Rattle.stream_constants.specs.declared.main_level.TheConstants.{VBV_MOST};
ghost use Rattle.stream_constants.specs.declared.packets.TheConstants.{PACKET_BYTES};
ghost use Rattle.stream_audit.specs.declared.audit_stop.AuditStop.TheVariants.{OutOfMemory};
ghost use Rattle.stream_audit.specs.Findings.{CanBeJudged};
ghost use Rattle.stream_audit.specs.Refusals.{IsVideoSound, IsVideoStopped};
ghost use Rattle.stream_audit.specs.Removals.{bytes_of_units};
ghost use Rattle.stream_audit.specs.Streams.{IsVideoOf};

use crate::audit_stop::{AuditStop, stream_stop};
use crate::audited_stream::AuditedStream;
use crate::audited_video::video_stream;
use crate::bytes_before::{bytes_before, front};
use crate::kept_units::KeptUnits;
use crate::pes_parts::{KeptBytes, PesParts};
use elementary_streams::take_packets;
use es_units::find_sequence;
use std::alloc::Global;
use ts_demux::{PesUnit, Place};

/// The bytes of all units.
fn bytes_of_units(kept: &KeptUnits) -> u64
    requires { bytes_of_units kept.now < 2 ^ 63 }
    ensures { result ≡ bytes_of_units kept.now }
{
    let mut bytes = 0;
    for unit in kept.units.as_slice() {
        bytes += u64::from(unit.bytes);
    }
    bytes
}

/// The video of a program on a PID, whose packets there are these: its PES packets that are taken, of which the units are kept from the
/// first sequence header on, and the units, removed by the clock of the file, which shows `zero` when its first byte comes. The judge can
/// look at it. An error is what refuses its PES packets, else that no sequence header stands in them; or want of memory.
pub fn video_of(
    alloc: Global,
    pid: u16,
    zero: u64,
    kept: &KeptUnits,
    places: &[Place],
    packets: &[PesUnit],
) -> Result<AuditedStream, AuditStop>
    requires in_level { kept.now.vbv ≤ VBV_MOST }
    requires few_units { length kept.now.units < 2 ^ 32 }
    requires few_bytes { bytes_of_units kept.now < 2 ^ 63 }
    requires dues_fit { All (λ unit. unit.due ≤ 2 ^ 52) kept.now.units }
    requires dues_rise { IsNonDecreasing (map (λ unit. unit.due) kept.now.units) }
    requires few_packets { length places.now ≤ 2 ^ 32 }
    requires numbers { All (λ place. place.packet < 2 ^ 32) places.now }
    requires payloads { All (λ place. place.payload ≤ PACKET_BYTES) places.now }
    requires packets_rise { IsStrictlyIncreasing (map (λ place. place.packet) places.now) }
    ensures stream { IfOk result (IsVideoOf places.now zero kept.now pid packets.now) }
    ensures sound { IfOk result (λ _. IsVideoSound packets.now) }
    ensures judged { IfOk result CanBeJudged }
    ensures refused { IfErr result (λ stop. (stop ≡ OutOfMemory) ⊎ IsVideoStopped packets.now stop) }
{
    let taken = match take_packets(alloc, packets, true) {
        Ok(taken) => taken,
        Err(fault) => return Err(stream_stop(pid, fault)),
    };
    let Some(from) = find_sequence(taken.payload.as_slice()) else {
        return Err(AuditStop::NoSequence);
    };
    let kept_bytes = KeptBytes {
        skipped: from as u64,
        kept: bytes_of_units(kept),
    };
    let count = taken.packets.as_slice().len();
    let first = front(packets, count);
    let parts = PesParts::new(bytes_before(places), kept_bytes, first);
    let stream = video_stream(alloc, pid, zero, kept, places, parts)?;
    Ok(stream)
}
