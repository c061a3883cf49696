ghost use Rattle.std.specs.Prelude.{◌≡◌, ◌<◌, ◌≤◌, [], length, take, drop, IfNone, IfSome, OnOk, IsErrOf};
ghost use Rattle.stream_constants.specs.declared.packets.TheConstants.{PACKET_BYTES};
ghost use Rattle.shelf_io.specs.Causes.{SourceCauses};
ghost use Rattle.ts_demux.specs.PacketBuffer.{Passes, IsAtEnd};

use crate::source_buffer::SourceBuffer;
use shelf_io::{Fault, Source};
use std::marker::Model;
use stream_constants::packets::PACKET_BYTES;

/// The packets of a source one behind the other, out of a room that is filled again where no whole packet is left in it:
/// `fill`, look at the `first`, `pass` over it. The source is lent to each call, so that others can use it in between.
/// Contracts see the bytes that were taken from it and aren't passed yet.
#[derive(Drop)]
pub struct PacketBuffer {
    bytes: SourceBuffer,
}

impl Model for PacketBuffer {
    ghost use Rattle.std.specs.Prelude.{ℕ, List, ◌≤◌};
    ghost use Rattle.ts_demux.specs.SourceBuffer.{held_bytes, room_size};

    ghost Value = { List ℕ };

    ghost view = { λ a. held_bytes a.bytes };

    ghost invariant = { λ a. 188 ≤ room_size a.bytes };
}

impl PacketBuffer {
    /// A buffer that holds nothing, over a room of a packet's bytes at least. What the room holds is lost.
    pub fn new(room: Vec<u8>) -> Self
        requires { PACKET_BYTES ≤ length room.items }
        ensures { result ≡ [] }
    {
        let size = room.len();
        PacketBuffer {
            bytes: SourceBuffer::new(room, size),
        }
    }

    /// Forgets the bytes that it holds, so that another source can be read.
    pub fn clear(&mut self)
        ensures { self.new ≡ [] }
    {
        self.bytes.clear();
    }

    /// The bytes that were taken from the source and aren't passed yet: at its end those behind the last whole packet.
    pub fn rest(&self) -> &[u8]
        ensures { result.now ≡ self.now }
    {
        self.bytes.rest()
    }

    /// Takes from the source until a packet is whole, or the source ends. A fault is the source's; nothing that was taken is
    /// lost, and a later call goes on behind it.
    pub fn fill<S: Source>(&mut self, source: &mut S) -> Result<(), Fault>
        ensures passes { Passes (S.left source.old) (S.left source.new) (S.most source.old) (S.most source.new) self.old [] self.new }
        ensures full { OnOk result (length self.new < PACKET_BYTES → IsAtEnd (S.left source.new)) }
        ensures causes { SourceCauses S.faults S.absences (IsErrOf result Fault.Failed) (IsErrOf result Fault.Missing) source.old source.new }
        ensures keeps { S.keeps source.old source.new }
    {
        self.bytes.fill(source, PACKET_BYTES)
    }

    /// The packet that stands first, where it is whole.
    pub fn first(&self) -> Option<&[u8; PACKET_BYTES]>
        ensures some { IfSome result (λ packet. (PACKET_BYTES ≤ length self.now) × (packet.now ≡ take PACKET_BYTES self.now)) }
        ensures none { IfNone result (length self.now < PACKET_BYTES) }
    {
        self.bytes.rest().first_chunk()
    }

    /// Passes over the packet that stands first.
    pub fn pass(&mut self)
        requires { PACKET_BYTES ≤ length self.old }
        ensures { self.new ≡ drop PACKET_BYTES self.old }
    {
        self.bytes.pass(PACKET_BYTES);
    }
}
