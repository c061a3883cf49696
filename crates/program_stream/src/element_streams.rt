//! The streams that stand in a program stream, found while its elements pass.
ghost use Rattle.std.specs.Prelude.{◌≤◌, ◌⊎◌, [], length, IfOk, IfErr, IsErrOf};
ghost use Rattle.shelf_io.specs.Causes.{SourceCauses};
ghost use Rattle.ts_demux.specs.Pass.{HoldsOfFile, IsWhole};
ghost use Rattle.program_stream.specs.declared.element_fault.ElementFault.TheVariants.{Outside};
ghost use Rattle.program_stream.specs.declared.stream_ids.TheConstants.{PACK_HEADER_BYTES};
ghost use Rattle.program_stream.specs.ElementStreams.{HasElementStreams};
ghost use Rattle.program_stream.specs.PassingElements.{AreRefused, IsShortFile, OnRefused};
ghost use Rattle.program_stream.specs.Private.IdWalk.{HasAllIds, HasIds};
ghost use Rattle.program_stream.specs.Split.{IsSplitRefused};

use crate::element_fault::ElementFault;
use crate::id_walk::IdWalk;
use crate::passing_elements::{Passed, PassingElements};
use shelf_io::{Fault, Source};
use std::alloc::Global;
use ts_demux::CarriedStreams;

/// The streams that `split` takes out of the file that a source gives, without their packets: the map, the ids of the other streams, and how many last elements are
/// cut, 0 or 1. No bytes of the file are kept. An error is the source's fault, want of memory, or the first refusal.
pub fn read_streams<S: Source>(
    alloc: Global,
    source: &mut S,
    drop: &[u16],
) -> Result<(CarriedStreams, u32), ElementFault>
    ensures streams { IfOk result (λ answer. IsWhole (S.left source.old) (S.left source.new) (S.most source.old) (S.most source.new) [] (λ file. HasElementStreams file drop.now answer.0 answer.1)) }
    ensures refused { IfErr result (λ fault. OnRefused fault (λ refusal. HoldsOfFile (S.left source.old) (S.left source.new) (S.most source.old) (S.most source.new) [] (λ file. IsSplitRefused file drop.now refusal))) }
    ensures causes { SourceCauses S.faults S.absences (IsErrOf result (Outside Fault.Failed)) (IsErrOf result (Outside Fault.Missing)) source.old source.new }
    ensures keeps { S.keeps source.old source.new }
{
    let mut walk = IdWalk::new(alloc);
    let cut = match take_ids(alloc, source, &mut walk) {
        Ok(cut) => cut,
        Err(fault) => return Err(fault),
    };
    match walk.into_streams(alloc, drop) {
        Ok(carried) => Ok((carried, cut)),
        Err(fault) => Err(ElementFault::Refused(fault)),
    }
}

/// Takes the ids of all elements of a source, and answers how many last ones are cut. An error is the source's fault, want of memory, that the file is short, or the
/// first refusal among its elements.
fn take_ids<S: Source>(
    alloc: Global,
    source: &mut S,
    walk: &mut IdWalk,
) -> Result<u32, ElementFault>
    requires { HasIds [] walk.old }
    ensures cut { IfOk result (λ cut. IsWhole (S.left source.old) (S.left source.new) (S.most source.old) (S.most source.new) [] (λ file. (PACK_HEADER_BYTES ≤ length file) × HasAllIds file cut walk.new)) }
    ensures refused { IfErr result (λ fault. OnRefused fault (λ refusal. HoldsOfFile (S.left source.old) (S.left source.new) (S.most source.old) (S.most source.new) [] (λ file. IsShortFile file refusal ⊎ AreRefused file refusal))) }
    ensures causes { SourceCauses S.faults S.absences (IsErrOf result (Outside Fault.Failed)) (IsErrOf result (Outside Fault.Missing)) source.old source.new }
    ensures keeps { S.keeps source.old source.new }
{
    let mut passing = match PassingElements::open(alloc, source) {
        Ok(passing) => passing,
        Err(fault) => return Err(fault),
    };
    loop {
        match passing.next(source) {
            Ok(Passed::End { cut }) => return Ok(cut),
            Ok(Passed::Element) => {}
            Err(fault) => return Err(fault),
        }
        match walk.take(passing.element()) {
            Ok(()) => {}
            Err(_want) => return Err(ElementFault::Outside(Fault::OutOfMemory)),
        }
    }
}
