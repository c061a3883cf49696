//! Transport packets, sections among them.

ghost use Rattle.std.specs.Prelude.{◌≡◌, ℕ, ◌+◌, ◌-◌, ◌*◌, ◌<◌, ◌≤◌, true, List, [], ◌∷◌, ◌++◌, length, map, take, drop, replicate, slice_get, None, Some, Ok};
ghost use Rattle.stream_constants.specs.declared.packets.TheConstants.{PACKET_BYTES};
ghost use Rattle.bit_lists.specs.Payload.{Payload};
ghost use Rattle.ts_packets.specs.Packet.{PacketRecord, packet_identifier, packet_of};
ghost use Rattle.ts_packets.specs.TransportStream.{is_of_pid, packets, piece_at, piece_count, pid_pieces};
ghost use Rattle.ts_packets.specs.Carried.{carried, payloads_on, pid_fault};
ghost use Rattle.psi_tables.specs.Sections.{found_at, is_read, sections_of, stuffing_byte};
ghost use Rattle.psi_tables.specs.declared.section.TheConstants.{SECTION_LENGTH_MOST};
ghost use Rattle.psi_tables.specs.Crc.{HasRightCrc};
ghost use Rattle.psi_tables.specs.Section.{IsWholeSection, section_length};
ghost use Rattle.layer_laws.specs.Counted.{AreCounted};

/// In a file of packets the packet of each number is the record of that number, and its PID is that record's.
pub fn packets_stand_in_order()
    ensures count { (file : List ℕ) (list : List PacketRecord) → packets file ≡ map Some list → piece_count file ≡ length list }
    ensures packet { (file : List ℕ) (list : List PacketRecord) (n : ℕ) (packet : PacketRecord) → packets file ≡ map Some list → slice_get list n ≡ Some packet →
        (packet_of (piece_at file n) ≡ Some packet) × (packet_identifier (piece_at file n) ≡ packet.pid) }
{}

/// In a file of packets that are counted on a PID, from any packet to any later one, nothing on the PID is refused, and what the
/// packets of the PID carry are their payloads with their start flags, in order: none is taken for a repeat.
pub fn counted_payloads_are_carried()
    ensures carried { (file : List ℕ) (list : List PacketRecord) (pid from to : ℕ) →
        packets file ≡ map Some list → AreCounted pid list → from ≤ to → to ≤ length list →
        map (λ carried. carried.payload) (carried (pid_pieces file pid from to)) ≡ payloads_on pid (take (to - from) (drop from list)) }
    ensures sound { (file : List ℕ) (list : List PacketRecord) (pid from n : ℕ) →
        packets file ≡ map Some list → AreCounted pid list → from ≤ n → n < length list → is_of_pid file pid n ≡ true →
        pid_fault (pid_pieces file pid from n) (record { at = PACKET_BYTES * n; bytes = piece_at file n }) ≡ None }
{}

/// A whole section of a PAT or a PMT, no longer than such a section may be and with a right CRC, is found as it is. A section that is
/// found so and is sent again and again, each time in a payload of its own with stuffing behind it, is read as often, and nothing else is.
pub fn section_sent_again_and_again()
    ensures found { (section : List ℕ) → is_read section ≡ true → IsWholeSection section → section_length section ≤ SECTION_LENGTH_MOST → HasRightCrc section →
        found_at section ≡ Ok section ∷ [] }
    ensures again { (section : List ℕ) (stuffing count : ℕ) → found_at section ≡ Ok section ∷ [] →
        sections_of (replicate count (record { start = true; bytes = 0 ∷ (section ++ replicate stuffing stuffing_byte) })) ≡ replicate count (Ok section) }
{}
