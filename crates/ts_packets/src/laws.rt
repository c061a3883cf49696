//! Laws of the definitions, each the contract of a function that does nothing.

ghost use Rattle.std.specs.Prelude.{◌≡◌, ℕ, ◌<◌, ◌↔◌, List, [], ◌∷◌, ◌++◌, length, map, Some, None};
ghost use Rattle.std.specs.List.{AllByRecursion, flat_map};
ghost use Rattle.stream_constants.specs.declared.packets.TheConstants.{PACKET_BYTES};
ghost use Rattle.ts_packets.specs.Packet.{PacketRecord, IsPacket, IsWritable, packet_of, transport_refusal, written};
ghost use Rattle.ts_packets.specs.TransportStream.{Piece, packets, rest_of};
ghost use Rattle.ts_packets.specs.Carried.{carried};

/// Bytes of a packet's length are one packet at most, and one exactly where nothing refuses them.
pub fn one_packet()
    ensures one { (packet other : PacketRecord) (bytes : List ℕ) → IsPacket packet bytes → IsPacket other bytes → packet ≡ other }
    ensures passed { (bytes : List ℕ) → length bytes ≡ PACKET_BYTES → (transport_refusal bytes ≡ None) ↔ ((packet : PacketRecord) × IsPacket packet bytes) }
{}

/// A file is read packet by packet, and packets that are written one behind another are read as the same ones.
pub fn packets_in_order()
    ensures first { (bytes file : List ℕ) → length bytes ≡ PACKET_BYTES → packets (bytes ++ file) ≡ packet_of bytes ∷ packets file }
    ensures rest { (bytes file : List ℕ) → length bytes ≡ PACKET_BYTES → rest_of (bytes ++ file) ≡ rest_of file }
    ensures short { (file : List ℕ) → length file < PACKET_BYTES → packets file ≡ [] }
    ensures short_rest { (file : List ℕ) → length file < PACKET_BYTES → rest_of file ≡ file }
    ensures written { (list : List PacketRecord) (rest : List ℕ) → AllByRecursion IsWritable list → length rest < PACKET_BYTES → packets (flat_map written list ++ rest) ≡ map Some list }
{}

/// A packet that is sent twice, one behind the other on its PID, carries its payload once.
pub fn sent_twice()
    ensures { (before after : List Piece) (first second : Piece) (packet : PacketRecord) →
        packet_of first.bytes ≡ Some packet → packet_of second.bytes ≡ Some packet →
        carried (before ++ first ∷ second ∷ after) ≡ carried (before ++ first ∷ after) }
{}
