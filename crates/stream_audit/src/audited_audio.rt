//! An audio stream of a program as the decoder's buffers get it (ISO/IEC 13818-1, 2.4.2.3).
ghost use Rattle.std.specs.Prelude.{◌≡◌, ◌⊎◌, ◌<◌, ◌≤◌, ◌^◌, All, IfErr, IfOk, length, map};
ghost use Rattle.std.specs.List.{sum_by};
ghost use Rattle.std.specs.List.Sorted.{IsStrictlyIncreasing};
ghost use Rattle.stream_constants.specs.declared.packets.TheConstants.{PACKET_BYTES};
ghost use Rattle.stream_audit.specs.declared.audit_stop.AuditStop.TheVariants.{OutOfMemory};
ghost use Rattle.stream_audit.specs.Findings.{CanBeJudged};
ghost use Rattle.elementary_streams.specs.Packets.{taken};
ghost use Rattle.stream_audit.specs.Refusals.{IsAudioSound, IsAudioStopped};
ghost use Rattle.stream_audit.specs.Removals.{first_due};
ghost use Rattle.stream_audit.specs.Streams.{IsAudioOf};

use crate::arrivals::arrivals_in;
use crate::audit_stop::{AuditStop, stream_stop};
use crate::audited_stream::AuditedStream;
use crate::bytes_before::{bytes_before, front};
use crate::frame_removals::{FrameClock, first_due, frame_removals, time_shown};
use crate::kept_units::KeptUnits;
use crate::pes_parts::{KeptBytes, PesParts};
use elementary_streams::{AxisTime, PES_PACKETS_MOST, read_stream};
use std::alloc::Global;
use ts_demux::{AudioStream, Place};
use tstd_model::BufferKind;

/// An audio stream of a program, whose packets on its PID are these: its PES packets that are taken, with all that they carry, and its
/// frames, removed by the clock of the file, which shows `zero` when its first byte comes. The judge can look at it. An error is what
/// refuses its PES packets, else its frames, else that one is due later than 2^52 ticks; or want of memory.
pub fn audio_stream(
    alloc: Global,
    zero: u64,
    kept: &KeptUnits,
    places: &[Place],
    stream: &AudioStream,
) -> Result<AuditedStream, AuditStop>
    requires due_fits { first_due kept.now ≤ 2 ^ 52 }
    requires few_units { length stream.now.units ≤ PES_PACKETS_MOST }
    requires few_bytes { sum_by (λ packet. length packet.bytes) stream.now.units < 2 ^ 31 }
    requires few_packets { length places.now ≤ 2 ^ 32 }
    requires numbers { All (λ place. place.packet < 2 ^ 32) places.now }
    requires payloads { All (λ place. place.payload ≤ PACKET_BYTES) places.now }
    requires packets_rise { IsStrictlyIncreasing (map (λ place. place.packet) places.now) }
    ensures stream { IfOk result (IsAudioOf places.now zero kept.now stream.now) }
    ensures sound { IfOk result (λ _. IsAudioSound kept.now stream.now) }
    ensures judged { IfOk result CanBeJudged }
    ensures refused { IfErr result (λ stop. (stop ≡ OutOfMemory) ⊎ IsAudioStopped kept.now stream.now stop) }
{
    let first = time_shown(kept.base, first_due(kept));
    let before = AxisTime::of(first);
    let read = match read_stream(alloc, stream, &before) {
        Ok(read) => read,
        Err(fault) => return Err(stream_stop(stream.pid, fault)),
    };
    let clock = FrameClock::new(zero, kept);
    let placed = read.packets.as_slice();
    let timed = read.frames.as_slice();
    if clock.has_late(timed) {
        return Err(AuditStop::ProgramLimit);
    }
    let removals = frame_removals(alloc, &clock, placed, timed)?;
    let taken = front(stream.units.as_slice(), read.packets.len());
    let bytes = KeptBytes {
        skipped: 0,
        kept: read.bytes,
    };
    let parts = PesParts::new(bytes_before(places), bytes, taken);
    let arrivals = arrivals_in(alloc, places, parts)?;
    Ok(AuditedStream {
        pid: stream.pid,
        kind: BufferKind::Audio,
        arrivals,
        removals,
    })
}
