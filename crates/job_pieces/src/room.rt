ghost use Rattle.std.specs.Prelude.{◌≡◌, ◌+◌, ◌≤◌, [], ◌++◌, length, IsTrue, ◌↔◌};

use std::marker::Model;
use stream_constants::packets::PACKET_BYTES;

/// The bytes of 64 packets: a file is opened for each call that adds to it.
pub const ROOM_BYTES: usize = 64 * PACKET_BYTES;

/// Packets that are to be added to a file together. Contracts see their bytes, in order.
#[derive(Drop)]
pub(crate) struct Room {
    bytes: [u8; ROOM_BYTES],
    len: usize,
}

impl Model for Room {
    ghost use Rattle.std.specs.Prelude.{ℕ, ◌≤◌, List, take};
    ghost use Rattle.job_pieces.specs.declared.room.TheConstants.{ROOM_BYTES};

    ghost Value = { List ℕ };

    ghost view = { λ a. take a.len a.bytes };

    ghost invariant = { λ a. a.len ≤ ROOM_BYTES };
}

impl Room {
    /// No packets.
    pub(crate) fn new() -> Room
        ensures { result ≡ [] }
    {
        Room {
            bytes: [0; ROOM_BYTES],
            len: 0,
        }
    }

    /// Whether one more packet fits.
    pub(crate) fn has_room(&self) -> bool
        ensures { IsTrue result ↔ (length self.now + PACKET_BYTES ≤ ROOM_BYTES) }
    {
        self.len + PACKET_BYTES <= ROOM_BYTES
    }

    /// Holds one more packet, for which there is room.
    pub(crate) fn push(&mut self, packet: &[u8; PACKET_BYTES])
        requires room { length self.old + PACKET_BYTES ≤ ROOM_BYTES }
        ensures { self.new ≡ self.old ++ packet.now }
    {
        let end = self.len + PACKET_BYTES;
        self.bytes[self.len..end].copy_from_slice(packet);
        self.len = end;
    }

    /// The bytes that are held.
    pub(crate) fn as_slice(&self) -> &[u8]
        ensures { result.now ≡ self.now }
    {
        &self.bytes[..self.len]
    }

    /// Holds nothing.
    pub(crate) fn clear(&mut self)
        ensures { self.new ≡ [] }
    {
        self.len = 0;
    }
}
