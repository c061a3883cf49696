ghost use Rattle.std.specs.Prelude.{◌≡◌, ℕ, List, [], ◌∷◌, ◌++◌, IfOk};
ghost use Rattle.std.specs.Option.{option_map};
ghost use Rattle.std.specs.Result.{result_err};
ghost use Rattle.ts_packets.specs.Packet.{record_of};
ghost use Rattle.ts_packets.specs.Private.PidReader.{gap_fault, taken_packet};

use crate::last_payload::LastPayload;
use crate::packet::Packet;
use crate::pid_fault::PidFault;
use stream_constants::packets::PACKET_BYTES;

/// Takes the packets of one PID in order, tests how their counters rise and leaves out those that come again
/// (ISO/IEC 13818-1, 2.4.3.3 and 2.4.3.5). No packet is borrowed: what the next one is compared with is kept.
#[derive(Drop)]
pub struct PidReader {
    /// No packet was taken yet.
    is_first: bool,
    /// The last packet with payload.
    last: LastPayload,
}

impl PidReader {
    ghost use Rattle.std.specs.Prelude.{◌≡◌, ℕ, ◌<◌, ◌≤◌, List, [], ◌∷◌, ◌++◌, length, IfOk, IfSome};
    ghost use Rattle.stream_constants.specs.declared.packets.TheConstants.{PAYLOAD_BYTES};
    ghost use Rattle.std.specs.Result.{result_err};
    ghost use Rattle.ts_packets.specs.TransportStream.{Piece};
    ghost use Rattle.ts_packets.specs.Carried.{carried, pid_fault};
    ghost use Rattle.ts_packets.specs.PidReader.{IsBehind, carried_at};

    /// A reader behind no packet.
    pub fn new() -> Self
        ensures { IsBehind [] result }
    {
        PidReader {
            is_first: true,
            last: LastPayload::new(),
        }
    }

    /// Takes the next packet of the PID, and answers it where it carries payload that doesn't come again. An error is its
    /// first fault, in the order of `PacketFault` and then of `PidFault`. The reader is behind it all the same.
    pub fn take<'a>(
        &mut self,
        bytes: &'a [u8; PACKET_BYTES],
    ) -> Result<Option<Packet<'a>>, PidFault>
        ensures fault { (before : List Piece) (at : ℕ) → IsBehind before self.old →
            result_err result ≡ pid_fault before (record { at = at; bytes = bytes.now }) }
        ensures carried { (before : List Piece) (at : ℕ) → IsBehind before self.old →
            IfOk result (λ taken. carried (before ++ record { at = at; bytes = bytes.now } ∷ []) ≡ carried before ++ carried_at at taken) }
        ensures fits { IfOk result (λ taken. IfSome taken (λ packet. (0 < length packet.payload.now) × (length packet.payload.now ≤ PAYLOAD_BYTES))) }
        ensures behind { (before : List Piece) (at : ℕ) → IsBehind before self.old →
            IsBehind (before ++ record { at = at; bytes = bytes.now } ∷ []) self.new }
    {
        let is_first = self.is_first;
        self.is_first = false;
        let packet = match Packet::read(bytes) {
            Ok(packet) => packet,
            Err(fault) => return Err(PidFault::Refused(fault)),
        };
        let taken = taken_behind(packet, &self.last);
        if !packet.payload.is_empty() {
            self.last.keep(&packet);
        }
        if !is_first && packet.is_discontinuous() {
            return Err(PidFault::Discontinuity);
        }
        taken
    }
}

/// The packet, where it carries payload that doesn't repeat that of the last packet with payload. The error is Gap.
fn taken_behind<'a>(packet: Packet<'a>, last: &LastPayload) -> Result<Option<Packet<'a>>, PidFault>
    ensures fault { result_err result ≡ gap_fault (record_of packet.entry) last.now }
    ensures taken { IfOk result (λ taken. option_map record_of taken ≡ taken_packet (record_of packet.entry) last.now) }
{
    if packet.payload.is_empty() || last.is_repeated_by(&packet) {
        return Ok(None);
    }
    if !last.counts_on_to(&packet) {
        return Err(PidFault::Gap);
    }
    Ok(Some(packet))
}
