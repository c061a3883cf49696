//! PES packets, cut into payloads and gathered again.

ghost use Rattle.std.specs.Prelude.{◌≡◌, ℕ, ◌<◌, ◌↔◌, ◌++◌, false, List, None, length, map};
ghost use Rattle.std.specs.List.{flat_map};
ghost use Rattle.bit_lists.specs.Payload.{CarriedPayload, Payload};
ghost use Rattle.pes_units.specs.declared.times.Times.{Times};
ghost use Rattle.pes_units.specs.PesPackets.{gathered, is_dropped, last_refusal, packet_refusal};
ghost use Rattle.pes_units.specs.VideoHeader.{AreInRange, IsBesidePts, written_pes_header};
ghost use Rattle.pes_units.specs.PesPieces.{pes_pieces};
ghost use Rattle.layer_laws.specs.PesPieces.{Carries, CarryAll};
ghost use Rattle.layer_laws.specs.VideoPackets.{IsReadAsVideo};

/// What a PID carries is gathered into the PES packets that were cut, in order, none more and none less: wherever the
/// payloads stand, where each packet begins with a start flag and goes on without one.
pub fn packets_gathered_again()
    ensures gathered { (packets : List (List ℕ)) (cuts : List (List Payload)) (carried : List CarriedPayload) →
        CarryAll packets cuts → map (λ carried. carried.payload) carried ≡ flat_map (λ payloads. payloads) cuts →
        map (λ packet. packet.bytes) (gathered carried) ≡ packets }
    // Pieces of 184 bytes are such payloads.
    ensures pieces { (packet : List ℕ) → 0 < length packet → Carries packet (pes_pieces packet) }
{}

/// A written header with any payload behind it is a video PES packet of the times that were written.
pub fn video_packet_read_as_written()
    ensures { (times : Times) (payload : List ℕ) → AreInRange times → IsBesidePts times → 0 < length payload →
        IsReadAsVideo times payload (written_pes_header times ++ payload) }
{}

/// An audio PES packet that is taken as the last one is one that is taken among others, and the other way round: where the
/// last one of a file was cut and is left out, those that are left are all taken.
pub fn audio_packet_wherever_it_stands()
    ensures { (bytes : List ℕ) → (packet_refusal false bytes ≡ None) ↔ ((last_refusal false bytes ≡ None) × (is_dropped false bytes ≡ false)) }
{}
