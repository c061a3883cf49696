ghost use Rattle.std.specs.Prelude.{◌≡◌, ℕ, ◌+◌, ◌^◌, ◌<◌, ◌≤◌, true, List, [], Option, Ok, length, drop, IfOk, IfErr, OnErr, IsErrOf};
ghost use Rattle.shelf_io.specs.Causes.{SourceCauses};
ghost use Rattle.ts_demux.specs.PacketBuffer.{Passes, IsAtEnd};
ghost use Rattle.ts_demux.specs.Pass.{IsEarly, IsWhole};
ghost use Rattle.program_stream.specs.declared.element_fault.ElementFault.TheVariants.{Outside};
ghost use Rattle.program_stream.specs.Elements.{Element, IsRefusedAt};
ghost use Rattle.program_stream.specs.PassingElements.{AreRefused, IsShortFile, KeepsTwo, OnRefused};
ghost use Rattle.program_stream.specs.Private.Fronts.{IsBehind, Reads, needs_more};

use crate::element_buffer::ElementBuffer;
use crate::element_fault::ElementFault;
use crate::front::{Front, needs_more, read_front, zeros_before};
use crate::split_fault::SplitFault;
use crate::stream_ids::PACK_HEADER_BYTES;
use shelf_io::{Fault, Source};
use std::alloc::Global;

/// What comes of a step.
#[derive(Clone, Copy, Debug, PartialEq, Eq)]
pub enum Passed {
    /// One element more has passed, which is held until the next step.
    Element,
    /// The source has ended, and no whole element stands behind those that have passed; so many last ones are cut, 0 or 1.
    End { cut: u32 },
}

/// The elements of a source (ISO/IEC 13818-1, 2.5.3), one after the other from its front on. The source is lent to each call. Held are the bytes
/// of the longest element and of one read at most.
#[derive(Drop)]
pub struct PassingElements {
    buffer: ElementBuffer,
    /// The byte of the source at which the element begins that has passed last.
    place: u64,
    /// How many bytes it has; they stand first in the buffer. None before the first element has passed.
    len: usize,
    /// How many zero bytes stand behind it that aren't held, before those that are.
    zeros: usize,
}

impl PassingElements {
    ghost use Rattle.program_stream.specs.PassingElements.{bytes_of, Goes, HasPassed, place_of, taken_of};
    ghost use Rattle.program_stream.specs.Private.Waiting.{waiting_of};

    /// A pass before the first element of a source. An error is the source's fault, want of memory, or that the source has fewer bytes than a
    /// pack header.
    pub fn open<S: Source>(alloc: Global, source: &mut S) -> Result<PassingElements, ElementFault>
        ensures passed { IfOk result (HasPassed (S.left source.old) (S.left source.new) (S.most source.old) (S.most source.new) []) }
        ensures refused { IfErr result (λ fault. OnRefused fault (λ refusal. IsWhole (S.left source.old) (S.left source.new) (S.most source.old) (S.most source.new) [] (λ file. IsShortFile file refusal))) }
        ensures causes { SourceCauses S.faults S.absences (IsErrOf result (Outside Fault.Failed)) (IsErrOf result (Outside Fault.Missing)) source.old source.new }
        ensures keeps { S.keeps source.old source.new }
    {
        let mut buffer = match ElementBuffer::new(alloc) {
            Ok(buffer) => buffer,
            Err(_want) => return Err(ElementFault::Outside(Fault::OutOfMemory)),
        };
        match buffer.fill(source, PACK_HEADER_BYTES) {
            Ok(()) => {}
            Err(fault) => return Err(ElementFault::Outside(fault)),
        }
        if buffer.rest().len() < PACK_HEADER_BYTES {
            return Err(ElementFault::Refused(SplitFault::ShortFile { at: 0 }));
        }
        Ok(PassingElements {
            buffer,
            place: 0,
            len: 0,
            zeros: 0,
        })
    }

    /// Goes on by an element: `element` and `place` are its own then; or up to the source's end. An error is the source's fault, or why what
    /// follows is refused. No byte is lost then: after a fault of the source a later call goes on where this one stopped.
    pub fn next<S: Source>(&mut self, source: &mut S) -> Result<Passed, ElementFault>
        requires stands { (left : Option (List ℕ)) × (most : ℕ) × (elements : List Element) × HasPassed left (S.left source.old) most (S.most source.old) elements self.old }
        ensures passed { (left : Option (List ℕ)) (most : ℕ) (elements : List Element) → HasPassed left (S.left source.old) most (S.most source.old) elements self.old →
            IfOk result (λ passed. Goes passed left (S.left source.new) most (S.most source.new) elements self.new) }
        ensures refused { (left : Option (List ℕ)) (most : ℕ) (elements : List Element) → HasPassed left (S.left source.old) most (S.most source.old) elements self.old →
            IfErr result (λ fault. OnRefused fault (λ refusal. IsEarly left (S.left source.new) most (S.most source.new) [] (λ file. AreRefused file refusal))) }
        ensures kept { (left : Option (List ℕ)) (most : ℕ) (elements : List Element) → HasPassed left (S.left source.old) most (S.most source.old) elements self.old →
            OnErr result (HasPassed left (S.left source.new) most (S.most source.new) elements self.new) }
        ensures causes { SourceCauses S.faults S.absences (IsErrOf result (Outside Fault.Failed)) (IsErrOf result (Outside Fault.Missing)) source.old source.new }
        ensures keeps { S.keeps source.old source.new }
    {
        self.turn();
        let front = match self.find(source) {
            Ok(front) => front,
            Err(fault) => return Err(fault),
        };
        match front {
            Front::Zeros => Ok(Passed::End { cut: 0 }),
            Front::Cut => Ok(Passed::End { cut: 1 }),
            Front::Whole { len } => {
                self.hold(len);
                Ok(Passed::Element)
            }
        }
    }

    /// The bytes of the element that has passed last, from its start code prefix on; none before the first.
    pub fn element(&self) -> &[u8]
        ensures { result.now ≡ bytes_of self.now }
    {
        self.buffer.front(self.len)
    }

    /// The byte of the source at which it begins.
    pub fn place(&self) -> u64
        ensures { result ≡ place_of self.now }
    {
        self.place
    }

    /// How many bytes were taken from the source.
    pub fn taken(&self) -> u64
        requires { taken_of self.now < 2 ^ 64 }
        ensures { result ≡ taken_of self.now }
    {
        self.place + self.zeros as u64 + self.buffer.rest().len() as u64
    }

    /// Holds no element more.
    fn turn(&mut self)
        requires held { self.old.len ≤ length self.old.buffer }
        requires place { self.old.place + self.old.len < 2 ^ 64 }
        ensures buffer { self.new.buffer ≡ drop self.old.len self.old.buffer }
        ensures place { self.new.place ≡ self.old.place + self.old.len }
        ensures rest { (self.new.len ≡ 0) × (self.new.zeros ≡ self.old.zeros) }
    {
        self.buffer.pass(self.len);
        self.place += self.len as u64;
        self.len = 0;
    }

    /// Holds the element of so many bytes that stands behind the zero bytes.
    fn hold(&mut self, len: usize)
        requires { self.old.place + self.old.zeros < 2 ^ 64 }
        ensures place { self.new.place ≡ self.old.place + self.old.zeros }
        ensures rest { (self.new.buffer ≡ self.old.buffer) × (self.new.len ≡ len) × (self.new.zeros ≡ 0) }
    {
        self.place += self.zeros as u64;
        self.zeros = 0;
        self.len = len;
    }

    /// Takes from the source until it is certain what stands first behind the elements that have passed, of which none is held: a whole
    /// element, or, where the source has ended, what is left. An error is the source's fault, or why that is refused, whatever follows.
    fn find<S: Source>(&mut self, source: &mut S) -> Result<Front, ElementFault>
        requires two { KeepsTwo self.old.zeros self.old.buffer }
        requires few { self.old.place + self.old.zeros + length self.old.buffer + S.most source.old < 2 ^ 64 }
        ensures passes { Passes (S.left source.old) (S.left source.new) (S.most source.old) (S.most source.new) (waiting_of self.old) [] (waiting_of self.new) }
        ensures two { KeepsTwo self.new.zeros self.new.buffer }
        ensures same { (self.new.place ≡ self.old.place) × (self.new.len ≡ self.old.len) }
        ensures found { IfOk result (λ front. Reads self.new.place self.new.zeros (waiting_of self.new) (Ok front)) }
        ensures end { IfOk result (λ front. needs_more front ≡ true → IsAtEnd (S.left source.new)) }
        ensures refused { IfErr result (λ fault. OnRefused fault (IsRefusedAt self.new.place (waiting_of self.new))) }
        ensures causes { SourceCauses S.faults S.absences (IsErrOf result (Outside Fault.Failed)) (IsErrOf result (Outside Fault.Missing)) source.old source.new }
        ensures keeps { S.keeps source.old source.new }
    {
        loop {
            self.pass_zeros();
            let front = match read_front(self.buffer.rest(), self.zeros, self.place) {
                Ok(front) => front,
                Err(fault) => return Err(ElementFault::Refused(fault)),
            };
            if !needs_more(front) {
                return Ok(front);
            }
            match self.buffer.take_more(source) {
                Ok(true) => {}
                Ok(false) => return Ok(front),
                Err(fault) => return Err(ElementFault::Outside(fault)),
            }
        }
    }

    /// Passes over the zero bytes that stand first, but for the last two.
    fn pass_zeros(&mut self)
        requires two { KeepsTwo self.old.zeros self.old.buffer }
        requires few { self.old.zeros + length self.old.buffer < 2 ^ 64 }
        ensures waiting { waiting_of self.new ≡ waiting_of self.old }
        ensures size { self.new.zeros + length self.new.buffer ≡ self.old.zeros + length self.old.buffer }
        ensures behind { IsBehind self.new.zeros self.new.buffer }
        ensures same { (self.new.place ≡ self.old.place) × (self.new.len ≡ self.old.len) }
    {
        let zeros = zeros_before(self.buffer.rest());
        self.buffer.pass(zeros);
        self.zeros += zeros;
    }
}
