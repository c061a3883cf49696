ghost use Rattle.std.specs.Prelude.{◌≡◌};
ghost use Rattle.es_window.specs.PassingBytes as spec;

use elementary_streams::bytes_behind;
use pes_walk::header_bytes;
use ts_demux::PesUnit;

/// What of each PES packet of a stream is read.
#[derive(Clone, Copy, Debug, PartialEq, Eq)]
pub enum HeldPart {
    /// Its payload: the elementary stream.
    Payload,
    /// Header and payload.
    Packet,
}

/// What is read of a PES packet.
pub fn part_of(packet: &PesUnit, part: HeldPart) -> &[u8]
    ensures { result.now ≡ spec.part_of part packet.now }
{
    let bytes = packet.bytes.as_slice();
    match part {
        HeldPart::Payload => bytes_behind(bytes, header_bytes(bytes)),
        HeldPart::Packet => bytes,
    }
}
