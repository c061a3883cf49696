ghost use Rattle.std.specs.Prelude.{◌≡◌, ◌+◌, ◌<◌, ◌≤◌, true, false, [], Ok, length, take, drop, IfOk, OnOk, IsErrOf};
ghost use Rattle.shelf_io.specs.Causes.{SourceCauses};
ghost use Rattle.ts_demux.specs.PacketBuffer.{Passes, IsAtEnd};

use list_types::OutOfMemory;
use shelf_io::{Fault, Source};
use std::alloc::Global;
use std::marker::Model;
use ts_demux::SourceBuffer;

/// The bytes of the room: more than the longest element has.
pub const ROOM_BYTES: usize = 0x20000;

/// The bytes that are taken from a source at once, which stay in the nearest cache.
const STEP_BYTES: usize = 3_072;

/// The bytes of a source one behind the other, out of a room that holds the longest element. The source is lent to each call.
/// Contracts see the bytes that were taken from it and aren't passed yet.
#[derive(Drop)]
pub struct ElementBuffer {
    bytes: SourceBuffer,
}

impl Model for ElementBuffer {
    ghost use Rattle.std.specs.Prelude.{ℕ, List, ◌≤◌};
    ghost use Rattle.ts_demux.specs.SourceBuffer.{held_bytes, room_size};

    ghost Value = { List ℕ };

    ghost view = { λ a. held_bytes a.bytes };

    ghost invariant = { λ a. 0x20000 ≤ room_size a.bytes };
}

impl ElementBuffer {
    /// A buffer that holds nothing. An error is want of memory.
    pub fn new(alloc: Global) -> Result<Self, OutOfMemory>
        ensures { IfOk result (λ buffer. buffer ≡ []) }
    {
        let room = vec![in alloc; 0u8; ROOM_BYTES]?;
        Ok(ElementBuffer {
            bytes: SourceBuffer::new(room, STEP_BYTES),
        })
    }

    /// The bytes that were taken from the source and aren't passed yet.
    pub fn rest(&self) -> &[u8]
        ensures { result.now ≡ self.now }
    {
        self.bytes.rest()
    }

    /// The first of them, so many where there are.
    pub fn front(&self, count: usize) -> &[u8]
        ensures { result.now ≡ take count self.now }
    {
        let rest = self.rest();
        match rest.get(..count) {
            Some(front) => front,
            None => rest,
        }
    }

    /// Passes over so many bytes.
    pub fn pass(&mut self, count: usize)
        requires { count ≤ length self.old }
        ensures { self.new ≡ drop count self.old }
    {
        self.bytes.pass(count);
    }

    /// Takes from the source until so many bytes are held, or the source ends. A fault is the source's; nothing that was taken is lost.
    pub fn fill<S: Source>(&mut self, source: &mut S, least: usize) -> Result<(), Fault>
        requires { least ≤ ROOM_BYTES }
        ensures passes { Passes (S.left source.old) (S.left source.new) (S.most source.old) (S.most source.new) self.old [] self.new }
        ensures full { OnOk result (length self.new < least → IsAtEnd (S.left source.new)) }
        ensures causes { SourceCauses S.faults S.absences (IsErrOf result Fault.Failed) (IsErrOf result Fault.Missing) source.old source.new }
        ensures keeps { S.keeps source.old source.new }
    {
        self.bytes.fill(source, least)
    }

    /// Takes from the source once, and answers whether any byte came: none only at its end.
    pub fn take_more<S: Source>(&mut self, source: &mut S) -> Result<bool, Fault>
        requires { length self.old < ROOM_BYTES }
        ensures more { result ≡ Ok true → S.most source.new < S.most source.old }
        ensures end { result ≡ Ok false → (self.new ≡ self.old) × IsAtEnd (S.left source.new) }
        ensures passes { Passes (S.left source.old) (S.left source.new) (S.most source.old) (S.most source.new) self.old [] self.new }
        ensures causes { SourceCauses S.faults S.absences (IsErrOf result Fault.Failed) (IsErrOf result Fault.Missing) source.old source.new }
        ensures keeps { S.keeps source.old source.new }
    {
        let count = self.bytes.take_some(source)?;
        if count == 0 {
            return Ok(false);
        }
        Ok(true)
    }
}
