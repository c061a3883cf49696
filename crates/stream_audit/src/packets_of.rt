//! The packets of a PID, as the decoder of its stream gets them (ISO/IEC 13818-1, 2.4.3.2).
ghost use Rattle.std.specs.Prelude.{◌≤◌, ◌<◌, ◌^◌, All, IfOk, MatchResult, map};
ghost use Rattle.std.specs.List.Sorted.{IsStrictlyIncreasing};
ghost use Rattle.stream_constants.specs.declared.packets.TheConstants.{PACKET_BYTES};
ghost use Rattle.ts_packets.specs.TransportStream.{piece_count};
ghost use Rattle.ts_demux.specs.PidPlaces.{ArePlaces, IsPlacesFault};

use list_types::ListOf;
use std::alloc::Global;
use ts_demux::{DemuxFault, Place, places};

/// The packets of a PID in a file, as the streams of an audit ask for them: their numbers rise, and their payloads stand within them. An
/// error is what refuses the first packet that is refused for the PID; or want of memory.
pub fn stream_packets(alloc: Global, file: &[u8], pid: u16) -> Result<ListOf<Place>, DemuxFault>
    requires few { piece_count file.now ≤ 2 ^ 32 }
    ensures places { MatchResult result (ArePlaces file.now pid) (IsPlacesFault file.now pid) }
    ensures rise { IfOk result (λ places. IsStrictlyIncreasing (map (λ place. place.packet) places)) }
    ensures numbers { IfOk result (λ places. All (λ place. place.packet < 2 ^ 32) places) }
    ensures payloads { IfOk result (λ places. All (λ place. place.payload ≤ PACKET_BYTES) places) }
{
    match places(alloc, file, pid) {
        Ok(places) => Ok(places),
        Err(fault) => Err(fault),
    }
}
