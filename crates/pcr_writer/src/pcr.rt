ghost use Rattle.std.specs.Prelude.{◌≡◌, ◌<◌, ◌^◌};
ghost use Rattle.ts_packets.specs.Packet.{IsPacket, written};
ghost use Rattle.pcr_writer.specs.PcrPacket.{pcr_at, pcr_record};

use stream_constants::clock::TICKS_PER_TIME_UNIT;
use stream_constants::packets::PACKET_BYTES;
use ts_packets::{AdaptationField, Packet};

/// A PCR counts ticks modulo this: its base has 33 bits and counts units of 300 ticks (ISO/IEC 13818-1, 2.4.2.2).
pub const PCR_MODULUS: u64 = TICKS_PER_TIME_UNIT << 33;

/// The byte of a packet, from 0, that has the last bit of a PCR's base: it stands behind the header, the adaptation field's
/// length, its flags and 32 bits of the base.
pub const BASE_END_BYTE: u64 = 10;

/// The packet of slot `slot_no` that carries the PCR of a program and no payload: no start, no discontinuity, stuffing to
/// its end. Slots of `slot` ticks of 1/27,000,000 s follow each other from the tick `base` on, and the PCR is the whole
/// ticks, modulo 300 times 2^33, at which the packet's byte 10 arrives, the one with the last bit of the PCR's base
/// (ISO/IEC 13818-1, 2.4.2.2). It needs a PID below 8,192, a counter below 16, a base below 300 times 2^33 and a slot below
/// 2^31 ticks.
pub fn pcr_packet(pid: u16, counter: u8, base: u64, slot_no: u32, slot: u32) -> [u8; PACKET_BYTES]
    requires pid { pid < 2 ^ 13 }
    requires counter { counter < 2 ^ 4 }
    requires base { base < PCR_MODULUS }
    requires slot { slot < 2 ^ 31 }
    ensures bytes { result ≡ written (pcr_record pid counter (pcr_at base slot_no slot)) }
    // A reader of packets finds this packet in them.
    ensures packet { IsPacket (pcr_record pid counter (pcr_at base slot_no slot)) result }
{
    let field = AdaptationField {
        discontinuity: false,
        pcr: Some(pcr_at(base, slot_no, slot)),
    };
    let packet = Packet {
        pid,
        start: false,
        counter,
        field: Some(field),
        payload: &[],
    };
    let mut bytes = [0; PACKET_BYTES];
    packet.write(&mut bytes);
    bytes
}

/// The PCR of the packet in slot `slot_no`, in ticks.
fn pcr_at(base: u64, slot_no: u32, slot: u32) -> u64
    requires base { base < PCR_MODULUS }
    requires slot { slot < 2 ^ 31 }
    ensures value { result ≡ pcr_at base slot_no slot }
    ensures below { result < PCR_MODULUS }
{
    let slot = u64::from(slot);
    (base + u64::from(slot_no) * slot + BASE_END_BYTE * slot / PACKET_BYTES as u64) % PCR_MODULUS
}
