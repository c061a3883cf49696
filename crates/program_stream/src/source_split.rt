ghost use Rattle.std.specs.Prelude.{◌≤◌, [], length, IfOk, IfErr, IsErrOf};
ghost use Rattle.shelf_io.specs.Causes.{SourceCauses};
ghost use Rattle.ts_demux.specs.Pass.{HoldsOfFile, IsWhole};
ghost use Rattle.program_stream.specs.declared.element_fault.ElementFault.TheVariants.{Outside};
ghost use Rattle.program_stream.specs.declared.stream_ids.TheConstants.{PACK_HEADER_BYTES};
ghost use Rattle.program_stream.specs.PassingElements.{OnRefused};
ghost use Rattle.program_stream.specs.Private.Walks.{HasWalked};
ghost use Rattle.program_stream.specs.Private.Steps.{StandsBehind};
ghost use Rattle.program_stream.specs.Split.{IsSplit, IsSplitRefused};

use crate::element_fault::ElementFault;
use crate::passing_elements::{Passed, PassingElements};
use crate::stream_walk::StreamWalk;
use shelf_io::{Fault, Source};
use std::alloc::Global;
use ts_demux::Demuxed;

/// What `split` takes out of a file, out of the file that a source gives: no bytes of it are kept but those that are answered. An error is the
/// source's fault, want of memory, or the first refusal.
pub fn split_source<S: Source>(
    alloc: Global,
    source: &mut S,
    drop: &[u16],
) -> Result<(Demuxed, u32), ElementFault>
    ensures split { IfOk result (λ answer. IsWhole (S.left source.old) (S.left source.new) (S.most source.old) (S.most source.new) [] (λ file. IsSplit file drop.now answer.0 answer.1)) }
    ensures refused { IfErr result (λ fault. OnRefused fault (λ refusal. HoldsOfFile (S.left source.old) (S.left source.new) (S.most source.old) (S.most source.new) [] (λ file. IsSplitRefused file drop.now refusal))) }
    ensures causes { SourceCauses S.faults S.absences (IsErrOf result (Outside Fault.Failed)) (IsErrOf result (Outside Fault.Missing)) source.old source.new }
    ensures keeps { S.keeps source.old source.new }
{
    let mut walk = StreamWalk::new(alloc);
    let cut = match take_elements(alloc, source, drop, &mut walk) {
        Ok(cut) => cut,
        Err(fault) => return Err(fault),
    };
    match walk.into_demuxed() {
        Ok(demuxed) => Ok((demuxed, cut)),
        Err(fault) => Err(ElementFault::Refused(fault)),
    }
}

/// Takes all elements of a source, and answers how many last ones are cut. An error is the source's fault, want of memory, or the first refusal
/// up to its elements.
fn take_elements<S: Source>(
    alloc: Global,
    source: &mut S,
    drop: &[u16],
    walk: &mut StreamWalk,
) -> Result<u32, ElementFault>
    requires { HasWalked drop.now [] walk.old }
    ensures cut { IfOk result (λ cut. IsWhole (S.left source.old) (S.left source.new) (S.most source.old) (S.most source.new) [] (λ file. (PACK_HEADER_BYTES ≤ length file) × StandsBehind file drop.now cut walk.new)) }
    ensures refused { IfErr result (λ fault. OnRefused fault (λ refusal. HoldsOfFile (S.left source.old) (S.left source.new) (S.most source.old) (S.most source.new) [] (λ file. IsSplitRefused file drop.now refusal))) }
    ensures causes { SourceCauses S.faults S.absences (IsErrOf result (Outside Fault.Failed)) (IsErrOf result (Outside Fault.Missing)) source.old source.new }
    ensures keeps { S.keeps source.old source.new }
{
    let mut passing = match PassingElements::open(alloc, source) {
        Ok(passing) => passing,
        Err(fault) => return Err(fault),
    };
    loop {
        match passing.next(source) {
            Ok(Passed::End { cut }) => return Ok(cut),
            Ok(Passed::Element) => {}
            Err(fault) => return Err(fault),
        }
        match walk.take(alloc, drop, passing.place(), passing.element()) {
            Ok(()) => {}
            Err(_want) => return Err(ElementFault::Outside(Fault::OutOfMemory)),
        }
    }
}
