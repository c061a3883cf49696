ghost use Rattle.std.specs.Prelude.{◌≡◌, ℕ, ◌<◌, ◌≤◌, ◌^◌, ◌+◌, ◌-◌, ◌++◌, ◌⊎◌, List, [], map, slice_get, length, min, true, false, Option, Some, Ok, IfErr, IfNone, IfOk, IfSome, OnOk, IsErrOf};
ghost use Rattle.shelf_io.specs.Causes.{SourceCauses};
ghost use Rattle.shelf_io.specs.Source.{source_bytes_most};
ghost use Rattle.ts_demux.specs.declared.pass_fault.PassFault.TheVariants.{Outside};
ghost use Rattle.ts_demux.specs.CarriedPackets.{AreDistinct};
ghost use Rattle.ts_demux.specs.Demux.{IsFirstStreamFault};
ghost use Rattle.ts_demux.specs.Faults.{IsMemory};
ghost use Rattle.ts_demux.specs.Pass.{IsEarly, OnRefused};
ghost use Rattle.pes_passing.specs.PassingPackets.{held_of};
ghost use Rattle.es_window.specs.EsWindow.{LacksPart, window_bytes, window_end, window_from};
ghost use Rattle.es_window.specs.PassingBytes.{EndsBefore, HasRead, IsPart, part_read, read_index, read_pids, stream_of};
ghost use Rattle.es_window.specs.Private.Steps.{held_part, steps_left};

use crate::held_part::{HeldPart, part_of};
use crate::window::EsWindow;
use list_types::OutOfMemory;
use pes_passing::PassingPackets;
use psi_tables::Stream;
use shelf_io::{Fault, Source};
use std::alloc::Global;
use ts_demux::{DemuxFault, PacketBuffer, PassFault};

/// The PES packets of one of some streams or their payloads, one behind the other, read forward out of the transport packets of a source from its front on. The
/// bytes before a place that goes forward are let go.
#[derive(Drop)]
pub struct PassingBytes {
    packets: PassingPackets,
    part: HeldPart,
    window: EsWindow,
    /// Whether the source's end was met.
    has_ended: bool,
}

impl PassingBytes {
    /// A reader of the stream that has this number among some, before the first packet of every source. An error is want of memory.
    pub fn new(
        alloc: Global,
        streams: &[Stream],
        index: usize,
        part: HeldPart,
    ) -> Result<PassingBytes, DemuxFault>
        requires { index < length streams.now }
        ensures read { IfOk result (λ bytes. (left : Option (List ℕ)) (most : ℕ) → most ≤ source_bytes_most → HasRead left left most most [] bytes) }
        ensures from { IfOk result (λ bytes. window_from bytes.window ≡ 0) }
        ensures streams { IfOk result (λ bytes. (read_pids bytes ≡ map (λ stream. stream.pid) streams.now) × (read_index bytes ≡ index) × (part_read bytes ≡ part)) }
        ensures memory { IfErr result IsMemory }
    {
        let packets = match PassingPackets::new(alloc, streams, index) {
            Ok(packets) => packets,
            Err(fault) => return Err(fault),
        };
        Ok(PassingBytes {
            packets,
            part,
            window: EsWindow::new(alloc),
            has_ended: false,
        })
    }

    /// Reads on until the bytes of the stream up to a place have come, and answers true; or up to the source's end, and answers false. An error is the source's
    /// fault, want of memory, or that of the first transport packet that is refused.
    pub fn read_to<S: Source>(
        &mut self,
        buffer: &mut PacketBuffer,
        source: &mut S,
        to: u64,
    ) -> Result<bool, PassFault>
        requires distinct { AreDistinct (read_pids self.old) }
        requires read { (left : Option (List ℕ)) × (most : ℕ) × HasRead left (S.left source.old) most (S.most source.old) buffer.old self.old }
        ensures read { (left : Option (List ℕ)) (most : ℕ) → HasRead left (S.left source.old) most (S.most source.old) buffer.old self.old →
            OnOk result (HasRead left (S.left source.new) most (S.most source.new) buffer.new self.new) }
        ensures come { result ≡ Ok true → to ≤ window_end self.new.window }
        ensures short { result ≡ Ok false → (left : Option (List ℕ)) (most : ℕ) → HasRead left (S.left source.old) most (S.most source.old) buffer.old self.old →
            EndsBefore left (S.left source.new) most (S.most source.new) buffer.new (part_read self.old) (read_pids self.old) (read_index self.old) to }
        ensures refused { (left : Option (List ℕ)) (most : ℕ) → HasRead left (S.left source.old) most (S.most source.old) buffer.old self.old →
            IfErr result (λ fault. OnRefused fault (λ refusal. IsMemory refusal
            ⊎ IsEarly left (S.left source.new) most (S.most source.new) buffer.new (λ file. IsFirstStreamFault file (read_pids self.old) refusal))) }
        ensures same { OnOk result ((read_pids self.new ≡ read_pids self.old) × (read_index self.new ≡ read_index self.old) × (part_read self.new ≡ part_read self.old)
            × (window_from self.new.window ≡ window_from self.old.window)) }
        ensures causes { SourceCauses S.faults S.absences (IsErrOf result (Outside Fault.Failed)) (IsErrOf result (Outside Fault.Missing)) source.old source.new }
        ensures keeps { S.keeps source.old source.new }
    {
        loop {
            if to <= self.window.end() {
                return Ok(true);
            }
            if self.has_ended {
                return Ok(false);
            }
            match self.step(buffer, source) {
                Ok(()) => {}
                Err(fault) => return Err(fault),
            }
        }
    }

    /// The place in the stream of the first byte that is held.
    pub fn from(&self) -> u64
        ensures { result ≡ window_from self.now.window }
    {
        self.window.from()
    }

    /// Lets go of the bytes that stand before a place, as far as they have come.
    pub fn pass(&mut self, to: u64)
        ensures read { (left left_after : Option (List ℕ)) (most most_after : ℕ) (held : List ℕ) → HasRead left left_after most most_after held self.old →
            HasRead left left_after most most_after held self.new }
        ensures same { (read_pids self.new ≡ read_pids self.old) × (read_index self.new ≡ read_index self.old) × (part_read self.new ≡ part_read self.old) }
        ensures from { window_from self.new.window ≡ window_from self.old.window + min (to - window_from self.old.window) (length (window_bytes self.old.window)) }
    {
        self.window.pass(to);
    }

    /// The bytes of the stream from a place up to another, where they are held.
    pub fn part(&self, from: u64, to: u64) -> Option<&[u8]>
        // Where the source tells its file they are those of the file's stream.
        ensures some { IfSome result (λ part. (file : List ℕ) (left_after : Option (List ℕ)) (most most_after : ℕ) (held : List ℕ) (pid : ℕ) →
            HasRead (Some file) left_after most most_after held self.now → slice_get (read_pids self.now) (read_index self.now) ≡ Some pid →
            IsPart (stream_of (part_read self.now) file pid) from to part.now) }
        ensures size { IfSome result (λ part. length part.now ≡ to - from) }
        ensures none { IfNone result (LacksPart self.now.window from to) }
    {
        self.window.part(from, to)
    }

    /// Reads on until a PES packet has ended, whose bytes have come then; or up to the source's end, where those of the last one have.
    fn step<S: Source>(
        &mut self,
        buffer: &mut PacketBuffer,
        source: &mut S,
    ) -> Result<(), PassFault>
        requires distinct { AreDistinct (read_pids self.old) }
        requires going { self.old.has_ended ≡ false }
        requires read { (left : Option (List ℕ)) × (most : ℕ) × HasRead left (S.left source.old) most (S.most source.old) buffer.old self.old }
        ensures read { (left : Option (List ℕ)) (most : ℕ) → HasRead left (S.left source.old) most (S.most source.old) buffer.old self.old →
            OnOk result (HasRead left (S.left source.new) most (S.most source.new) buffer.new self.new) }
        ensures refused { (left : Option (List ℕ)) (most : ℕ) → HasRead left (S.left source.old) most (S.most source.old) buffer.old self.old →
            IfErr result (λ fault. OnRefused fault (λ refusal. IsMemory refusal
            ⊎ IsEarly left (S.left source.new) most (S.most source.new) buffer.new (λ file. IsFirstStreamFault file (read_pids self.old) refusal))) }
        ensures further { OnOk result (steps_left self.new < steps_left self.old) }
        ensures same { OnOk result ((read_pids self.new ≡ read_pids self.old) × (read_index self.new ≡ read_index self.old) × (part_read self.new ≡ part_read self.old)
            × (window_from self.new.window ≡ window_from self.old.window)) }
        ensures causes { SourceCauses S.faults S.absences (IsErrOf result (Outside Fault.Failed)) (IsErrOf result (Outside Fault.Missing)) source.old source.new }
        ensures keeps { S.keeps source.old source.new }
    {
        let more = match self.packets.next(buffer, source) {
            Ok(more) => more,
            Err(fault) => return Err(fault),
        };
        match self.add() {
            Ok(()) => {}
            Err(OutOfMemory) => return Err(PassFault::Refused(DemuxFault::OutOfMemory)),
        }
        self.has_ended = !more;
        Ok(())
    }

    /// Holds what is read of the PES packet that has ended too, where there is one.
    fn add(&mut self) -> Result<(), OutOfMemory>
        requires { window_end self.old.window + length (held_part self.old.part (held_of self.old.packets)) < 2 ^ 64 }
        ensures window { OnOk result (self.new.window ≡ (window_from self.old.window, window_bytes self.old.window ++ held_part self.old.part (held_of self.old.packets))) }
        ensures same { (self.new.packets ≡ self.old.packets) × (self.new.has_ended ≡ self.old.has_ended) × (part_read self.new ≡ part_read self.old) }
    {
        let Some(packet) = self.packets.packet() else {
            return Ok(());
        };
        self.window.add(part_of(packet, self.part))
    }
}
