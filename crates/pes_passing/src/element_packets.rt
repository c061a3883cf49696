ghost use Rattle.std.specs.Prelude.{◌≡◌, ℕ, ◌+◌, ◌<◌, ◌≤◌, ◌^◌, List, [], ◌∷◌, ◌++◌, length, Option, None, IfOk, IfErr, OnOk, IsErrOf};
ghost use Rattle.std.specs.Option.{option_copied};
ghost use Rattle.shelf_io.specs.Causes.{SourceCauses};
ghost use Rattle.ts_demux.specs.declared.demuxed.PesUnit.{PesUnit};
ghost use Rattle.ts_demux.specs.Pass.{IsEarly, IsWhole};
ghost use Rattle.program_stream.specs.declared.element_fault.ElementFault.TheVariants.{Outside};
ghost use Rattle.program_stream.specs.Elements.{Element, all_spelled, element_bytes};
ghost use Rattle.program_stream.specs.PassingElements.{AreRefused, bytes_of, IsShortFile, OnRefused, place_of};

use crate::open_packet::OpenPacket;
use program_stream::{ElementFault, Passed, PassingElements};
use shelf_io::{Fault, Source};
use std::alloc::Global;
use ts_demux::{DemuxFault, PesUnit};

/// The PES packets of one stream of a program stream (ISO/IEC 13818-1, 2.5.3), one after the other, out of the elements of a source from its front on. All
/// elements are read, since the first of them that is refused is a file's refusal.
#[derive(Drop)]
pub struct ElementPackets {
    elements: PassingElements,
    /// The id of the stream whose PES packets are given.
    id: u16,
    pes: OpenPacket,
}

impl ElementPackets {
    ghost use Rattle.pes_passing.specs.ElementPackets.{AreIn, Goes, HasPassed, held_of, id_of, taken_of};
    ghost use Rattle.pes_passing.specs.Private.ElementWalk.{elements_of};
    ghost use Rattle.pes_passing.specs.Private.OpenPacket.{ended_behind, Holds};

    /// A reader of the stream that has this id, before the first element of a source. An error is the source's fault, want of memory, or that the source has
    /// fewer bytes than a pack header.
    pub fn open<S: Source>(
        alloc: Global,
        source: &mut S,
        id: u16,
    ) -> Result<ElementPackets, ElementFault>
        ensures passed { IfOk result (HasPassed (S.left source.old) (S.left source.new) (S.most source.old) (S.most source.new) []) }
        ensures id { IfOk result (λ packets. id_of packets ≡ id) }
        ensures refused { IfErr result (λ fault. OnRefused fault (λ refusal. IsWhole (S.left source.old) (S.left source.new) (S.most source.old) (S.most source.new) [] (λ file. IsShortFile file refusal))) }
        ensures causes { SourceCauses S.faults S.absences (IsErrOf result (Outside Fault.Failed)) (IsErrOf result (Outside Fault.Missing)) source.old source.new }
        ensures keeps { S.keeps source.old source.new }
    {
        let elements = match PassingElements::open(alloc, source) {
            Ok(elements) => elements,
            Err(fault) => return Err(fault),
        };
        Ok(ElementPackets {
            elements,
            id,
            pes: OpenPacket::new(alloc),
        })
    }

    /// Reads on until a PES packet of the stream has ended, since another one follows it, and answers true; or up to the source's end, and answers false. Then
    /// `packet` is that one, or the last one. An error is the source's fault, want of memory, or why an element is refused.
    pub fn next<S: Source>(&mut self, source: &mut S) -> Result<bool, ElementFault>
        requires stands { (left : Option (List ℕ)) × (most : ℕ) × (ended : List PesUnit) × HasPassed left (S.left source.old) most (S.most source.old) ended self.old }
        ensures passed { (left : Option (List ℕ)) (most : ℕ) (ended : List PesUnit) → HasPassed left (S.left source.old) most (S.most source.old) ended self.old →
            IfOk result (λ more. Goes more left (S.left source.new) most (S.most source.new) ended self.new) }
        ensures refused { (left : Option (List ℕ)) (most : ℕ) (ended : List PesUnit) → HasPassed left (S.left source.old) most (S.most source.old) ended self.old →
            IfErr result (λ fault. OnRefused fault (λ refusal. IsEarly left (S.left source.new) most (S.most source.new) [] (λ file. AreRefused file refusal))) }
        ensures same { OnOk result (id_of self.new ≡ id_of self.old) }
        ensures causes { SourceCauses S.faults S.absences (IsErrOf result (Outside Fault.Failed)) (IsErrOf result (Outside Fault.Missing)) source.old source.new }
        ensures keeps { S.keeps source.old source.new }
    {
        match self.pes.turn() {
            Ok(()) => {}
            Err(_want) => return Err(ElementFault::Outside(Fault::OutOfMemory)),
        }
        loop {
            match self.elements.next(source) {
                Ok(Passed::Element) => {}
                Ok(Passed::End { cut: _ }) => return Ok(false),
                Err(fault) => return Err(fault),
            }
            match self.take() {
                Ok(true) => return Ok(true),
                Ok(false) => {}
                Err(_want) => return Err(ElementFault::Outside(Fault::OutOfMemory)),
            }
        }
    }

    /// The PES packet that has ended last, or behind the source's end the last one; None before the first begins.
    pub fn packet(&self) -> Option<&PesUnit>
        ensures { option_copied result ≡ held_of self.now }
    {
        self.pes.held.as_ref()
    }

    /// How many bytes were taken from the source.
    pub fn taken(&self) -> u64
        requires { taken_of self.now < 2 ^ 64 }
        ensures { result ≡ taken_of self.now }
    {
        self.elements.taken()
    }

    /// Takes the element that has passed last, and answers whether that ends the held PES packet.
    fn take(&mut self) -> Result<bool, DemuxFault>
        requires turned { self.old.pes.begun ≡ None }
        requires some { 4 ≤ length (bytes_of (elements_of self.old)) }
        requires few { self.old.pes.count + 1 < 2 ^ 64 }
        ensures taken { (before : List Element) (element : Element) (ended : List PesUnit) → bytes_of (elements_of self.old) ≡ element_bytes element →
            place_of (elements_of self.old) ≡ length (all_spelled before) + element.zeros → AreIn before ended self.old →
            IfOk result (λ ends. AreIn (before ++ element ∷ []) (ended_behind ends ended (held_of self.new)) self.new) }
        ensures holds { IfOk result (λ ends. Holds ends self.new.pes) }
        ensures same { OnOk result ((elements_of self.new ≡ elements_of self.old) × (id_of self.new ≡ id_of self.old)) }
    {
        let bytes = self.elements.element();
        if u16::from(bytes[3]) != self.id {
            return Ok(false);
        }
        self.pes.add(self.elements.place(), true, bytes)
    }
}
