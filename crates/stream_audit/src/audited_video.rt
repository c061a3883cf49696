//! The video of a program as the decoder's buffers get it (ISO/IEC 13818-1, 2.4.2.3).
ghost use Rattle.std.specs.Prelude.{◌≡◌, ◌<◌, ◌≤◌, ◌^◌, All, IfOk, length, map};
ghost use Rattle.std.specs.List.Sorted.{IsNonDecreasing, IsStrictlyIncreasing};
ghost use Rattle.stream_constants.specs.declared.main_level.TheConstants.{VBV_MOST};
ghost use Rattle.stream_constants.specs.declared.packets.TheConstants.{PACKET_BYTES};
ghost use Rattle.tstd_model.specs.declared.decoder_input.BufferKind.TheVariants.{Video};
ghost use Rattle.stream_audit.specs.Findings.{CanBeJudged};
ghost use Rattle.stream_audit.specs.PesBytes.{brought_by_all};
ghost use Rattle.stream_audit.specs.Removals.{unit_removals};

use crate::arrivals::arrivals_in;
use crate::audited_stream::AuditedStream;
use crate::kept_units::KeptUnits;
use crate::pes_parts::PesParts;
use crate::removals::unit_removals;
use list_types::OutOfMemory;
use std::alloc::Global;
use ts_demux::Place;
use tstd_model::BufferKind;

/// The video of a program on a PID: its packets, what their bytes are, and its units, removed by the clock of the file, which shows
/// `zero` when its first byte comes. The judge can look at it. The error is want of memory.
pub fn video_stream<'a>(
    alloc: Global,
    pid: u16,
    zero: u64,
    kept: &KeptUnits,
    places: &[Place],
    parts: PesParts<'a>,
) -> Result<AuditedStream, OutOfMemory>
    requires in_level { kept.now.vbv ≤ VBV_MOST }
    requires few_units { length kept.now.units < 2 ^ 32 }
    requires dues_fit { All (λ unit. unit.due ≤ 2 ^ 52) kept.now.units }
    requires dues_rise { IsNonDecreasing (map (λ unit. unit.due) kept.now.units) }
    requires few_packets { All (λ place. place.packet < 2 ^ 32) places.now }
    requires payloads { All (λ place. place.payload ≤ PACKET_BYTES) places.now }
    requires packets_rise { IsStrictlyIncreasing (map (λ place. place.packet) places.now) }
    ensures stream { IfOk result (λ stream. stream ≡ record { pid = pid; kind = Video kept.now.vbv; arrivals = brought_by_all places.now parts.entry; removals = unit_removals zero kept.now }) }
    ensures judged { IfOk result CanBeJudged }
{
    let arrivals = arrivals_in(alloc, places, parts)?;
    let removals = unit_removals(alloc, zero, kept)?;
    Ok(AuditedStream {
        pid,
        kind: BufferKind::Video { vbv: kept.vbv },
        arrivals,
        removals,
    })
}
