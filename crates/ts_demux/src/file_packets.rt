//! The packets of a file, by their numbers (ISO/IEC 13818-1, 2.4.3).

ghost use Rattle.std.specs.Prelude.{◌≡◌, ◌<◌, ◌≤◌, ◌*◌, ◌^◌, None, IfSome};
ghost use Rattle.stream_constants.specs.declared.packets.TheConstants.{PACKET_BYTES};
ghost use Rattle.ts_packets.specs.TransportStream.{piece_at, piece_count};

use stream_constants::packets::PACKET_BYTES;

/// The bytes of the n-th packet of a file, from 0, or none where it has no more whole packets. Takes no memory.
pub fn packet_at(file: &[u8], n: usize) -> Option<&[u8; PACKET_BYTES]>
    ensures some { IfSome result (λ bytes. (n < piece_count file.now) × (bytes.now ≡ piece_at file.now n)) }
    ensures none { result ≡ None → piece_count file.now ≤ n }
    ensures place { IfSome result (λ _. PACKET_BYTES * n < 2 ^ 64) }
{
    if n >= file.len() / PACKET_BYTES {
        return None;
    }
    file[n * PACKET_BYTES..].first_chunk()
}

/// The place of the n-th packet in its file, in bytes.
pub fn place_of(n: usize) -> u64
    requires { PACKET_BYTES * n < 2 ^ 64 }
    ensures { result ≡ PACKET_BYTES * n }
{
    (PACKET_BYTES * n) as u64
}
