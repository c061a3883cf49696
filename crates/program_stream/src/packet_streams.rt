ghost use Rattle.std.specs.Prelude.{◌≡◌, ℕ, ◌+◌, false, List, [], ◌∷◌, ◌++◌, length, map, slice_get, Some, OnOk, MatchOption};
ghost use Rattle.ts_demux.specs.Streams.{is_among};
ghost use Rattle.program_stream.specs.Elements.{Element, element_bytes, all_spelled};
ghost use Rattle.program_stream.specs.Streams.{packets_of};
ghost use Rattle.program_stream.specs.Private.Walks.{Holds, with_id};

use list_types::{ListOf, OutOfMemory};
use std::alloc::Global;
use ts_demux::{AudioStream, PesUnit};

/// Streams with their packets, in order of first coming.
#[derive(Drop)]
pub struct PacketStreams {
    pub streams: Vec<AudioStream>,
}

impl PacketStreams {
    /// No stream.
    pub fn new(alloc: Global) -> Self
        ensures { Holds [] [] result }
    {
        PacketStreams {
            streams: Vec::new(alloc),
        }
    }

    /// The number of the stream of an id.
    pub fn index_of(&self, id: u16) -> Option<usize>
        ensures { MatchOption result (is_among (map (λ stream. stream.pid) self.now.streams.items) id ≡ false) (λ index. slice_get (map (λ stream. stream.pid) self.now.streams.items) index ≡ Some id) }
    {
        for (index, stream) in self.streams.iter().enumerate() {
            if stream.pid == id {
                return Some(index);
            }
        }
        None
    }

    /// Adds the packet that the element behind some others is, at its place in the file: to the stream of its id, which is a new one
    /// where none has the id. An error is want of memory.
    pub fn add(&mut self, alloc: Global, id: u16, at: u64, bytes: &[u8]) -> Result<(), OutOfMemory>
        ensures { (elements : List Element) (ids : List ℕ) (element : Element) → Holds elements ids self.old
            → (is_among ids id ≡ false → packets_of elements id ≡ []) → id ≡ element.id → bytes.now ≡ element_bytes element → at ≡ length (all_spelled elements) + element.zeros
            → OnOk result (Holds (elements ++ element ∷ []) (with_id ids id) self.new) }
    {
        let unit = PesUnit {
            at,
            bytes: ListOf::from_vec(bytes.to_vec(alloc)?),
        };
        match self.index_of(id) {
            Some(index) => self.streams[index].units.push(unit),
            None => self.begin(alloc, id, unit),
        }
    }

    /// Begins a stream with its first packet.
    fn begin(&mut self, alloc: Global, pid: u16, unit: PesUnit) -> Result<(), OutOfMemory>
        ensures { OnOk result (self.new.streams.items ≡ self.old.streams.items ++ record { pid = pid; units = unit ∷ [] } ∷ []) }
    {
        let mut units = ListOf::new(alloc);
        units.push(unit)?;
        self.streams.push(AudioStream { pid, units })?;
        Ok(())
    }
}
