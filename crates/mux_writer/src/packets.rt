ghost use Rattle.std.specs.Prelude.{◌≡◌, ◌^◌, ◌<◌, true, take};
ghost use Rattle.bit_lists.specs.Payload.{Payload};
ghost use Rattle.ts_packets.specs.Packet.{written};
ghost use Rattle.mux_writer.specs.Output.{null_record, full_record, piece_record};
ghost use Rattle.mux_writer.specs.Pieces.{HasPayloadSize};

use crate::piece_source::Filled;
use stream_constants::packets::{PACKET_BYTES, PAYLOAD_BYTES};
use ts_packets::{AdaptationField, Packet};

/// The PID of PAT sections (ISO/IEC 13818-1, 2.4.3.3).
pub const PAT_PID: u16 = 0;

/// The PID of null packets (ISO/IEC 13818-1, 2.4.3.3).
pub const NULL_PID: u16 = 0x1FFF;

/// What the payload of null packets is filled with.
const NULL_BYTE: u8 = 0xFF;

/// Writes a null packet.
pub(crate) fn null_packet(into: &mut [u8; PACKET_BYTES])
    ensures { into.new ≡ written null_record }
{
    full_packet(NULL_PID, false, 0, &[NULL_BYTE; PAYLOAD_BYTES], into);
}

/// Writes a packet with nothing but payload behind its header.
pub(crate) fn full_packet(
    pid: u16,
    start: bool,
    counter: u8,
    payload: &[u8; PAYLOAD_BYTES],
    into: &mut [u8; PACKET_BYTES],
)
    requires pid { pid < 2 ^ 13 }
    requires counter { counter < 2 ^ 4 }
    ensures { into.new ≡ written (full_record pid start counter payload.now) }
{
    let packet = Packet {
        pid,
        start,
        counter,
        field: None,
        payload,
    };
    packet.write(into);
}

/// Writes a packet of a stream with the piece in the front of the buffer, stuffed where that doesn't fill it.
pub(crate) fn piece_packet(
    pid: u16,
    counter: u8,
    filled: Filled,
    buffer: &[u8; PAYLOAD_BYTES],
    into: &mut [u8; PACKET_BYTES],
)
    requires pid { pid < 2 ^ 13 }
    requires counter { counter < 2 ^ 4 }
    requires size { HasPayloadSize filled.bytes }
    ensures { into.new ≡ written (piece_record pid counter (record { start = filled.start; bytes = take filled.bytes buffer.now })) }
{
    let payload = &buffer[..usize::from(filled.bytes)];
    let field = if payload.len() == PAYLOAD_BYTES {
        None
    } else {
        Some(AdaptationField {
            discontinuity: false,
            pcr: None,
        })
    };
    let packet = Packet {
        pid,
        start: filled.start,
        counter,
        field,
        payload,
    };
    packet.write(into);
}
