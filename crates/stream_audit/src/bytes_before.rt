//! The bytes of a PID that belong to no PES packet, and the PES packets that are taken (ISO/IEC 13818-1, 2.4.3.3).
ghost use Rattle.std.specs.Prelude.{◌≡◌, ◌≤◌, ◌<◌, ◌^◌, All, length, take};
ghost use Rattle.stream_constants.specs.declared.packets.TheConstants.{PACKET_BYTES};
ghost use Rattle.stream_audit.specs.PesBytes.{bytes_before};

use ts_demux::{PesUnit, Place};

/// How many bytes packets carry before the first one in which a PES packet begins.
pub fn bytes_before(places: &[Place]) -> u64
    requires few { length places.now ≤ 2 ^ 32 }
    requires payloads { All (λ place. place.payload ≤ PACKET_BYTES) places.now }
    ensures { result ≡ bytes_before places.now }
{
    let mut bytes = 0;
    for place in places {
        if place.start {
            return bytes;
        }
        bytes += u64::from(place.payload);
    }
    bytes
}

/// The first PES packets, so many.
pub fn front(packets: &[PesUnit], count: usize) -> &[PesUnit]
    requires { count ≤ length packets.now }
    ensures { result.now ≡ take count packets.now }
{
    &packets[..count]
}
