//! A stream of a program stream that is read while the file passes out of a source.
ghost use Rattle.std.specs.Prelude.{ℕ, List, [], IfErr, IfOk, IsErrOf};
ghost use Rattle.shelf_io.specs.Causes.{SourceCauses};
ghost use Rattle.ts_demux.specs.Pass.{IsWhole};
ghost use Rattle.program_stream.specs.declared.element_fault.ElementFault.TheVariants.{Outside};
ghost use Rattle.stream_pass.specs.declared.read_fault.ReadFault.TheVariants as faults;
ghost use Rattle.stream_pass.specs.PassedElements.{IsOfId, IsIdRefused};

use crate::limited_walk::{begin, end_stream, take_packet};
use crate::read_fault::ReadFault;
use crate::stream_walk::StreamWalk;
use pes_passing::ElementPackets;
use program_stream::ElementFault;
use shelf_io::{Fault, Source};
use std::alloc::Global;

/// Reads a stream of a program stream by a walk that has taken nothing yet, out of a source that gives the file from its front on: the stream of this id. Of its
/// bytes none but those of the PES packet before the last one are held, those of one element, and what the walk keeps. An error is the source's fault, want of
/// memory, or the first refusal: a short file, that of the elements, that a limit is passed, and then the stream's.
pub fn pass_elements<W: StreamWalk, S: Source>(
    alloc: Global,
    source: &mut S,
    id: u16,
    walk: W,
) -> Result<W::Read, ReadFault<ElementFault, W::Fault>>
    requires { W.has_read walk [] walk }
    ensures read { IfOk result (λ read. IsWhole (S.left source.old) (S.left source.new) (S.most source.old) (S.most source.new) [] (λ file. IsOfId file id (W.reads walk) read)) }
    ensures refused { IfErr result (IsIdRefused (S.left source.old) (S.left source.new) (S.most source.old) (S.most source.new) id (W.refuses walk)) }
    ensures causes { SourceCauses S.faults S.absences (IsErrOf result (faults.Passing (Outside Fault.Failed))) (IsErrOf result (faults.Passing (Outside Fault.Missing))) source.old source.new }
    ensures keeps { S.keeps source.old source.new }
{
    let mut packets = match ElementPackets::open(alloc, source, id) {
        Ok(packets) => packets,
        Err(fault) => return Err(ReadFault::Passing(fault)),
    };
    let mut passed = begin(walk);
    loop {
        let more = match packets.next(source) {
            Ok(more) => more,
            Err(fault) => return Err(ReadFault::Passing(fault)),
        };
        if !more {
            return end_stream(passed, packets.packet(), packets.taken());
        }
        passed = match take_packet(passed, packets.packet()) {
            Ok(passed) => passed,
            Err(_) => return Err(ReadFault::OutOfMemory),
        };
    }
}
