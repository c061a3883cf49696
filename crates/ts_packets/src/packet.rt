ghost use Rattle.std.specs.Prelude.{◌≡◌, ◌≢◌, ℕ, true, false, ◌+◌, ◌*◌, ◌^◌, ◌<◌, ◌≤◌, length, IfOk, IfErr, IfSome, IsOkAnd};
ghost use Rattle.std.specs.Option.{option_map};
ghost use Rattle.std.specs.Result.{result_ok, result_err};
ghost use Rattle.ts_packets.specs.Packet.{PacketRecord, record_of, sync_byte, packet_identifier, adaptation_field_control, adaptation_field_length, is_length_allowed, IsPacket, transport_refusal, packet_of, IsWritable, written, written_packet_header, has_fault};
ghost use Rattle.ts_packets.specs.Private.Packet.{HasFieldAndPayload};
ghost use Rattle.ts_packets.specs.Carried.{is_discontinuous, is_repeat};
ghost use Rattle.ts_packets.specs.declared.packet_fault.PacketFault.TheVariants.{BadField};

use crate::adaptation_field::AdaptationField;
use crate::packet_fault::PacketFault;
use stream_constants::packets::{HEADER_BYTES, PACKET_BYTES, PAYLOAD_BYTES, SYNC_BYTE};

/// The bytes that the header and an adaptation field's length byte leave.
const MOST_FIELD_BYTES: usize = PAYLOAD_BYTES - 1;

/// `transport_error_indicator` in the header's second byte.
const ERROR_INDICATOR: u8 = 1 << 7;

/// `payload_unit_start_indicator` in the header's second byte.
const START_INDICATOR: u8 = 1 << 6;

/// The high bits of the PID in the header's second byte.
const PID_HIGH: u8 = 0x1F;

/// `transport_scrambling_control` in the header's fourth byte.
const SCRAMBLING_CONTROL: u8 = 0b11 << 6;

/// The bit of `adaptation_field_control` that says that there is a field.
const FIELD_PRESENT: u8 = 1 << 5;

/// The bit of `adaptation_field_control` that says that there is payload.
const PAYLOAD_PRESENT: u8 = 1 << 4;

/// `continuity_counter` in the header's fourth byte.
const CONTINUITY_COUNTER: u8 = 0xF;

/// What is kept of a transport packet (ISO/IEC 13818-1, 2.4.3.2). Its priority is passed over.
#[derive(Clone, Copy, Debug, PartialEq, Eq)]
pub struct Packet<'a> {
    /// The PID, 13 bits.
    pub pid: u16,
    /// `payload_unit_start_indicator`.
    pub start: bool,
    /// `continuity_counter`, 4 bits.
    pub counter: u8,
    /// The adaptation field, where there is one.
    pub field: Option<AdaptationField>,
    /// The payload, empty where there is none.
    pub payload: &'a [u8],
}

impl<'a> Packet<'a> {
    /// The packet that the bytes stand for, its payload lent from them. An error is the first fault that they have, in
    /// the order of `PacketFault`.
    #[tactic(auto, using(crate::proofs::Elements::elements))]
    pub fn read(bytes: &'a [u8; PACKET_BYTES]) -> Result<Packet<'a>, PacketFault>
        // What is read stands for the bytes, and what stands for the bytes is read.
        ensures packet { IfOk result (λ packet. IsPacket (record_of packet) bytes.now) }
        ensures only { (packet : PacketRecord) → IsPacket packet bytes.now → IsOkAnd result (λ read. record_of read ≡ packet) }
        // What is answered is the first fault, and where there is none the packet.
        ensures fault { result_err result ≡ transport_refusal bytes.now }
        ensures exact { option_map record_of (result_ok result) ≡ packet_of bytes.now }
    {
        let pid = pid_of(bytes)?;
        if bytes[1] & ERROR_INDICATOR != 0 {
            return Err(PacketFault::ErrorFlag);
        }
        if bytes[3] & SCRAMBLING_CONTROL != 0 {
            return Err(PacketFault::Scrambled);
        }
        let (field, payload) = field_and_payload(bytes)?;
        Ok(Packet {
            pid,
            start: bytes[1] & START_INDICATOR != 0,
            counter: bytes[3] & CONTINUITY_COUNTER,
            field,
            payload,
        })
    }

    /// Writes the packet: priority and scrambling 0, reserved bits 1, and stuffing bytes FF in its adaptation field up
    /// to the payload. It needs a PID below 8,192, a counter below 16 and a PCR below 300 times 2^33. Without a field
    /// it needs exactly 184 bytes of payload, beside one at most 183, or 182 with a discontinuity alone, or 176 with a
    /// PCR.
    pub fn write(&self, into: &mut [u8; PACKET_BYTES])
        requires { IsWritable (record_of self.now) }
        ensures packet { IsPacket (record_of self.now) into.new }
        ensures bytes { into.new ≡ written (record_of self.now) }
    {
        let payload_at = PACKET_BYTES - self.payload.len();
        into[..HEADER_BYTES].copy_from_slice(&self.header());
        if let Some(field) = self.field {
            field.write(&mut into[HEADER_BYTES..payload_at]);
        }
        into[payload_at..].copy_from_slice(self.payload);
    }

    /// True where the adaptation field has the `discontinuity_indicator`.
    pub fn is_discontinuous(&self) -> bool
        ensures { result ≡ is_discontinuous (record_of self.now) }
    {
        match self.field {
            Some(field) => field.discontinuity,
            None => false,
        }
    }

    /// True where counter and payload are those of the packet before.
    pub fn is_repeat_of(&self, before: &Packet) -> bool
        ensures { result ≡ is_repeat (record_of self.now) (record_of before.now) }
    {
        self.counter == before.counter && self.payload == before.payload
    }

    fn header(&self) -> [u8; 4]
        requires { IsWritable (record_of self.now) }
        ensures { result ≡ written_packet_header (record_of self.now) }
    {
        let start = if self.start { START_INDICATOR } else { 0 };
        let field = if self.field.is_some() {
            FIELD_PRESENT
        } else {
            0
        };
        let payload = if self.payload.is_empty() {
            0
        } else {
            PAYLOAD_PRESENT
        };
        let [high, low] = self.pid.to_be_bytes();
        [SYNC_BYTE, start | high, low, field | payload | self.counter]
    }
}

/// The PID of a packet, of which nothing but the sync byte is looked at. The error is Sync, where it isn't 0x47.
#[tactic(auto, using(crate::proofs::Elements::elements))]
pub fn pid_of(bytes: &[u8; PACKET_BYTES]) -> Result<u16, PacketFault>
    ensures pid { IfOk result (λ pid. (sync_byte bytes.now ≡ SYNC_BYTE) × (pid ≡ packet_identifier bytes.now)) }
    ensures sync { IfErr result (λ fault. (fault ≡ PacketFault.Sync) × (sync_byte bytes.now ≢ SYNC_BYTE)) }
{
    if bytes[0] != SYNC_BYTE {
        return Err(PacketFault::Sync);
    }
    Ok(u16::from_be_bytes([bytes[1] & PID_HIGH, bytes[2]]))
}

/// The adaptation field and the payload behind a header. The only error is BadField.
#[tactic(auto, using(crate::proofs::Elements::elements))]
fn field_and_payload(
    bytes: &[u8; PACKET_BYTES],
) -> Result<(Option<AdaptationField>, &[u8]), PacketFault>
    ensures ok { IfOk result (λ read. HasFieldAndPayload bytes.now read.0 read.1.now) }
    ensures err { IfErr result (λ fault. (fault ≡ BadField) × (has_fault bytes.now BadField ≡ true)) }
{
    if !is_field_length_allowed(bytes) {
        return Err(PacketFault::BadField);
    }
    if bytes[3] & FIELD_PRESENT == 0 {
        return Ok((None, &bytes[HEADER_BYTES..]));
    }
    let length = bytes[HEADER_BYTES] as usize;
    let field_bytes = &bytes[HEADER_BYTES + 1..HEADER_BYTES + 1 + length];
    let Some(field) = AdaptationField::read(field_bytes) else {
        return Err(PacketFault::BadField);
    };
    Ok((Some(field), &bytes[HEADER_BYTES + 1 + length..]))
}

/// True where `adaptation_field_control` allows the adaptation field's length, or says that there is payload alone.
#[tactic(auto, using(crate::proofs::Elements::elements))]
fn is_field_length_allowed(bytes: &[u8; PACKET_BYTES]) -> bool
    ensures { result ≡ is_length_allowed (adaptation_field_control bytes.now) (adaptation_field_length bytes.now) }
{
    let length = bytes[HEADER_BYTES] as usize;
    match (
        bytes[3] & FIELD_PRESENT != 0,
        bytes[3] & PAYLOAD_PRESENT != 0,
    ) {
        (false, has_payload) => has_payload,
        (true, false) => length == MOST_FIELD_BYTES,
        (true, true) => length < MOST_FIELD_BYTES,
    }
}
