//! The elements of a source, found without taking them.
ghost use Rattle.std.specs.Prelude.{◌⊎◌, List, [], IfOk, IfErr, IsErrOf};
ghost use Rattle.shelf_io.specs.Causes.{SourceCauses};
ghost use Rattle.ts_demux.specs.Pass.{HoldsOfFile, IsWhole};
ghost use Rattle.program_stream.specs.declared.element_fault.ElementFault.TheVariants.{Outside};
ghost use Rattle.program_stream.specs.Elements.{Element};
ghost use Rattle.program_stream.specs.PassingElements.{AreRefused, IsShortFile, OnRefused};
ghost use Rattle.program_stream.specs.Split.{HasElements};

use crate::element_fault::ElementFault;
use crate::passing_elements::{Passed, PassingElements};
use shelf_io::{Fault, Source};
use std::alloc::Global;

/// Finds the elements of the file that a source gives, one behind the other, and answers how many last ones are cut, 0 or 1; none of them is kept. An error is the
/// source's fault, want of memory, that the file is shorter than a pack header, or the first refusal among them.
pub fn find_source_elements<S: Source>(alloc: Global, source: &mut S) -> Result<u32, ElementFault>
    ensures found { IfOk result (λ cut. IsWhole (S.left source.old) (S.left source.new) (S.most source.old) (S.most source.new) [] (λ file. (elements : List Element) × HasElements file elements cut)) }
    ensures refused { IfErr result (λ fault. OnRefused fault (λ refusal. HoldsOfFile (S.left source.old) (S.left source.new) (S.most source.old) (S.most source.new) [] (λ file. IsShortFile file refusal ⊎ AreRefused file refusal))) }
    ensures causes { SourceCauses S.faults S.absences (IsErrOf result (Outside Fault.Failed)) (IsErrOf result (Outside Fault.Missing)) source.old source.new }
    ensures keeps { S.keeps source.old source.new }
{
    let mut passing = match PassingElements::open(alloc, source) {
        Ok(passing) => passing,
        Err(fault) => return Err(fault),
    };
    loop {
        match passing.next(source) {
            Ok(Passed::Element) => {}
            Ok(Passed::End { cut }) => return Ok(cut),
            Err(fault) => return Err(fault),
        }
    }
}
