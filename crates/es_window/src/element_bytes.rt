ghost use Rattle.std.specs.Prelude.{◌≡◌, ℕ, ◌<◌, ◌≤◌, ◌^◌, ◌+◌, ◌-◌, ◌++◌, List, [], length, min, true, false, Option, Some, Ok, IfErr, IfNone, IfOk, IfSome, OnOk, IsErrOf};
ghost use Rattle.shelf_io.specs.Causes.{SourceCauses};
ghost use Rattle.ts_demux.specs.Pass.{IsEarly, IsWhole};
ghost use Rattle.program_stream.specs.declared.element_fault.ElementFault.TheVariants.{Outside};
ghost use Rattle.program_stream.specs.Elements.{Element};
ghost use Rattle.program_stream.specs.PassingElements.{AreRefused, IsShortFile, OnRefused};
ghost use Rattle.program_stream.specs.Split.{HasElements};
ghost use Rattle.pes_passing.specs.ElementPackets.{held_of};
ghost use Rattle.es_window.specs.EsWindow.{LacksPart, window_bytes, window_end, window_from};
ghost use Rattle.es_window.specs.ElementBytes.{EndsBefore, HasRead, part_read, read_id, stream_in};
ghost use Rattle.es_window.specs.PassingBytes.{IsPart};
ghost use Rattle.es_window.specs.Private.Steps.{element_steps_left, held_part};

use crate::held_part::{HeldPart, part_of};
use crate::window::EsWindow;
use list_types::OutOfMemory;
use pes_passing::ElementPackets;
use program_stream::ElementFault;
use shelf_io::{Fault, Source};
use std::alloc::Global;

/// The PES packets of one stream of a program stream or their payloads, one behind the other, read forward out of the elements of a source from its front on. The
/// bytes before a place that goes forward are let go.
#[derive(Drop)]
pub struct ElementBytes {
    packets: ElementPackets,
    part: HeldPart,
    window: EsWindow,
    /// Whether the source's end was met.
    has_ended: bool,
}

impl ElementBytes {
    /// A reader of the stream that has this id, before the first element of a source. An error is the source's fault, want of memory, or that the source has fewer
    /// bytes than a pack header.
    pub fn open<S: Source>(
        alloc: Global,
        source: &mut S,
        id: u16,
        part: HeldPart,
    ) -> Result<ElementBytes, ElementFault>
        ensures read { IfOk result (HasRead (S.left source.old) (S.left source.new) (S.most source.old) (S.most source.new)) }
        ensures stream { IfOk result (λ bytes. (read_id bytes ≡ id) × (part_read bytes ≡ part)) }
        ensures refused { IfErr result (λ fault. OnRefused fault (λ refusal. IsWhole (S.left source.old) (S.left source.new) (S.most source.old) (S.most source.new) [] (λ file. IsShortFile file refusal))) }
        ensures causes { SourceCauses S.faults S.absences (IsErrOf result (Outside Fault.Failed)) (IsErrOf result (Outside Fault.Missing)) source.old source.new }
        ensures keeps { S.keeps source.old source.new }
    {
        let packets = match ElementPackets::open(alloc, source, id) {
            Ok(packets) => packets,
            Err(fault) => return Err(fault),
        };
        Ok(ElementBytes {
            packets,
            part,
            window: EsWindow::new(alloc),
            has_ended: false,
        })
    }

    /// Reads on until the bytes of the stream up to a place have come, and answers true; or up to the source's end, and answers false. An error is the source's
    /// fault, want of memory, or why an element is refused.
    pub fn read_to<S: Source>(&mut self, source: &mut S, to: u64) -> Result<bool, ElementFault>
        requires { (left : Option (List ℕ)) × (most : ℕ) × HasRead left (S.left source.old) most (S.most source.old) self.old }
        ensures read { (left : Option (List ℕ)) (most : ℕ) → HasRead left (S.left source.old) most (S.most source.old) self.old →
            OnOk result (HasRead left (S.left source.new) most (S.most source.new) self.new) }
        ensures come { result ≡ Ok true → to ≤ window_end self.new.window }
        ensures short { result ≡ Ok false → (left : Option (List ℕ)) (most : ℕ) → HasRead left (S.left source.old) most (S.most source.old) self.old →
            EndsBefore left (S.left source.new) most (S.most source.new) (part_read self.old) (read_id self.old) to }
        ensures refused { (left : Option (List ℕ)) (most : ℕ) → HasRead left (S.left source.old) most (S.most source.old) self.old →
            IfErr result (λ fault. OnRefused fault (λ refusal. IsEarly left (S.left source.new) most (S.most source.new) [] (λ file. AreRefused file refusal))) }
        ensures same { OnOk result ((read_id self.new ≡ read_id self.old) × (part_read self.new ≡ part_read self.old) × (window_from self.new.window ≡ window_from self.old.window)) }
        ensures causes { SourceCauses S.faults S.absences (IsErrOf result (Outside Fault.Failed)) (IsErrOf result (Outside Fault.Missing)) source.old source.new }
        ensures keeps { S.keeps source.old source.new }
    {
        loop {
            if to <= self.window.end() {
                return Ok(true);
            }
            if self.has_ended {
                return Ok(false);
            }
            match self.step(source) {
                Ok(()) => {}
                Err(fault) => return Err(fault),
            }
        }
    }

    /// The place in the stream of the first byte that is held.
    pub fn from(&self) -> u64
        ensures { result ≡ window_from self.now.window }
    {
        self.window.from()
    }

    /// Lets go of the bytes that stand before a place, as far as they have come.
    pub fn pass(&mut self, to: u64)
        ensures read { (left left_after : Option (List ℕ)) (most most_after : ℕ) → HasRead left left_after most most_after self.old → HasRead left left_after most most_after self.new }
        ensures same { (read_id self.new ≡ read_id self.old) × (part_read self.new ≡ part_read self.old) }
        ensures from { window_from self.new.window ≡ window_from self.old.window + min (to - window_from self.old.window) (length (window_bytes self.old.window)) }
    {
        self.window.pass(to);
    }

    /// The bytes of the stream from a place up to another, where they are held.
    pub fn part(&self, from: u64, to: u64) -> Option<&[u8]>
        // Where the source tells its file they are those of the file's stream.
        ensures some { IfSome result (λ part. (file : List ℕ) (left_after : Option (List ℕ)) (most most_after : ℕ) (elements : List Element) (cut : ℕ) →
            HasRead (Some file) left_after most most_after self.now → HasElements file elements cut → IsPart (stream_in (part_read self.now) elements (read_id self.now)) from to part.now) }
        ensures none { IfNone result (LacksPart self.now.window from to) }
    {
        self.window.part(from, to)
    }

    /// Reads on until a PES packet has ended, whose bytes have come then; or up to the source's end, where those of the last one have.
    fn step<S: Source>(&mut self, source: &mut S) -> Result<(), ElementFault>
        requires going { self.old.has_ended ≡ false }
        requires read { (left : Option (List ℕ)) × (most : ℕ) × HasRead left (S.left source.old) most (S.most source.old) self.old }
        ensures read { (left : Option (List ℕ)) (most : ℕ) → HasRead left (S.left source.old) most (S.most source.old) self.old →
            OnOk result (HasRead left (S.left source.new) most (S.most source.new) self.new) }
        ensures refused { (left : Option (List ℕ)) (most : ℕ) → HasRead left (S.left source.old) most (S.most source.old) self.old →
            IfErr result (λ fault. OnRefused fault (λ refusal. IsEarly left (S.left source.new) most (S.most source.new) [] (λ file. AreRefused file refusal))) }
        ensures further { OnOk result (element_steps_left self.new < element_steps_left self.old) }
        ensures same { OnOk result ((read_id self.new ≡ read_id self.old) × (part_read self.new ≡ part_read self.old) × (window_from self.new.window ≡ window_from self.old.window)) }
        ensures causes { SourceCauses S.faults S.absences (IsErrOf result (Outside Fault.Failed)) (IsErrOf result (Outside Fault.Missing)) source.old source.new }
        ensures keeps { S.keeps source.old source.new }
    {
        let more = match self.packets.next(source) {
            Ok(more) => more,
            Err(fault) => return Err(fault),
        };
        match self.add() {
            Ok(()) => {}
            Err(OutOfMemory) => return Err(ElementFault::Outside(Fault::OutOfMemory)),
        }
        self.has_ended = !more;
        Ok(())
    }

    /// Holds what is read of the PES packet that has ended too, where there is one.
    fn add(&mut self) -> Result<(), OutOfMemory>
        requires { window_end self.old.window + length (held_part self.old.part (held_of self.old.packets)) < 2 ^ 64 }
        ensures window { OnOk result (self.new.window ≡ (window_from self.old.window, window_bytes self.old.window ++ held_part self.old.part (held_of self.old.packets))) }
        ensures same { (self.new.packets ≡ self.old.packets) × (self.new.has_ended ≡ self.old.has_ended) × (part_read self.new ≡ part_read self.old) }
    {
        let Some(packet) = self.packets.packet() else {
            return Ok(());
        };
        self.window.add(part_of(packet, self.part))
    }
}
