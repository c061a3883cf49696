ghost use Rattle.std.specs.Prelude.{◌≡◌, ◌+◌, ◌<◌, ◌≤◌, [], ◌++◌, length, IsTrue, ◌↔◌, OnOk, OnErr, IsErrOf};
ghost use Rattle.shelf_io.specs.Causes.{SinkCauses};
ghost use Rattle.shelf_io.specs.Sink.{with_bytes, AddsPrefix};
ghost use Rattle.mux_writer.specs.Private.Writer.{HoldsRest};

use shelf_io::{Fault, Sink, put_all};
use std::marker::Model;
use stream_constants::packets::PACKET_BYTES;

/// The bytes of 64 packets. A sink over a file opens it for each call, some 5,000 instructions, which are less than 80 of
/// each packet then.
pub const GATHERED_BYTES: usize = 64 * PACKET_BYTES;

/// Packets that are to go into a sink together. Contracts see their bytes, in order.
#[derive(Drop)]
pub(crate) struct Gathered {
    bytes: [u8; GATHERED_BYTES],
    len: usize,
}

impl Model for Gathered {
    ghost use Rattle.std.specs.Prelude.{ℕ, ◌≤◌, List, take};
    ghost use Rattle.mux_writer.specs.declared.gathered.TheConstants.{GATHERED_BYTES};

    ghost Value = { List ℕ };

    ghost view = { λ a. take a.len a.bytes };

    ghost invariant = { λ a. a.len ≤ GATHERED_BYTES };
}

impl Gathered {
    /// No packets.
    pub(crate) fn new() -> Gathered
        ensures { result ≡ [] }
    {
        Gathered {
            bytes: [0; GATHERED_BYTES],
            len: 0,
        }
    }

    /// Makes room for one more packet: where there is none, all that is held goes into the sink. After a fault it stays held.
    pub(crate) fn make_room<K: Sink>(&mut self, to: &mut K) -> Result<(), Fault>
        ensures room { OnOk result (length self.new + PACKET_BYTES ≤ GATHERED_BYTES) }
        ensures ok { OnOk result (HoldsRest (K.written to.old) (K.written to.new) self.new self.old) }
        ensures err { OnErr result (AddsPrefix (K.written to.old) (K.written to.new) self.old) }
        ensures same { OnErr result (self.new ≡ self.old) }

        ensures causes { SinkCauses K.faults (IsErrOf result Fault.Failed) (IsErrOf result Fault.Missing) to.old to.new }
        ensures only_failed { K.faults to.old < K.faults to.new → IsErrOf result Fault.Failed }
        ensures fault_last { OnErr result (K.since_fault to.new ≡ 0) }
        ensures keeps { K.keeps to.old to.new }
    {
        if self.has_room() {
            return Ok(());
        }
        self.put(to)
    }

    /// Holds one more packet, for which there is room.
    pub(crate) fn push(&mut self, packet: &[u8; PACKET_BYTES])
        requires room { length self.old + PACKET_BYTES ≤ GATHERED_BYTES }
        ensures { self.new ≡ self.old ++ packet.now }
    {
        let end = self.len + PACKET_BYTES;
        self.bytes[self.len..end].copy_from_slice(packet);
        self.len = end;
    }

    /// Puts all that is held into the sink, and holds nothing more. After a fault it stays held, and a front of it was put.
    pub(crate) fn put<K: Sink>(&mut self, to: &mut K) -> Result<(), Fault>
        ensures ok { OnOk result (K.written to.new ≡ with_bytes (K.written to.old) self.old) }
        ensures empty { OnOk result (self.new ≡ []) }
        ensures err { OnErr result (AddsPrefix (K.written to.old) (K.written to.new) self.old) }
        ensures same { OnErr result (self.new ≡ self.old) }

        ensures causes { SinkCauses K.faults (IsErrOf result Fault.Failed) (IsErrOf result Fault.Missing) to.old to.new }
        ensures only_failed { K.faults to.old < K.faults to.new → IsErrOf result Fault.Failed }
        ensures fault_last { OnErr result (K.since_fault to.new ≡ 0) }
        ensures keeps { K.keeps to.old to.new }
    {
        put_all(to, &self.bytes[..self.len])?;
        self.len = 0;
        Ok(())
    }

    fn has_room(&self) -> bool
        ensures { IsTrue result ↔ (length self.now + PACKET_BYTES ≤ GATHERED_BYTES) }
    {
        self.len + PACKET_BYTES <= GATHERED_BYTES
    }
}
