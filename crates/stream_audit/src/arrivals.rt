//! What the packets of a PID bring to a decoder (ISO/IEC 13818-1, 2.4.2.3).
ghost use Rattle.std.specs.Prelude.{◌≡◌, ◌<◌, ◌≤◌, ◌^◌, All, IfOk, map};
ghost use Rattle.stream_constants.specs.declared.packets.TheConstants.{PACKET_BYTES};
ghost use Rattle.tstd_model.specs.PacketBytes.{HasHeaderWithin};
ghost use Rattle.stream_audit.specs.PesBytes.{brought_by_all};

use crate::pes_parts::PesParts;
use list_types::{ListOf, OutOfMemory};
use std::alloc::Global;
use ts_demux::Place;
use tstd_model::Arrival;

/// What the packets of a PID bring to the decoder of its stream, in order: each in its slot, with the bytes of PES headers and the
/// kept bytes that stand in its payload. The error is want of memory.
pub fn arrivals_in<'a>(
    alloc: Global,
    places: &[Place],
    parts: PesParts<'a>,
) -> Result<ListOf<Arrival>, OutOfMemory>
    requires few { All (λ place. place.packet < 2 ^ 32) places.now }
    requires payloads { All (λ place. place.payload ≤ PACKET_BYTES) places.now }
    ensures arrivals { IfOk result (λ arrivals. arrivals ≡ brought_by_all places.now parts.entry) }
    // What the judge of buffers asks of them.
    ensures slots { IfOk result (λ arrivals. map (λ arrival. arrival.slot_no) arrivals ≡ map (λ place. place.packet) places.now) }
    ensures headers { IfOk result (λ arrivals. All HasHeaderWithin arrivals) }
{
    let mut parts = parts;
    let mut arrivals = ListOf::new(alloc);
    for place in places {
        let arrival = parts.arrival(place);
        arrivals.push(arrival)?;
    }
    Ok(arrivals)
}
