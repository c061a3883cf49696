//! The elements of a file, found without taking them.
ghost use Rattle.std.specs.Prelude.{◌≤◌, List, length, MatchResult, IfOk};
ghost use Rattle.program_stream.specs.Elements.{Element, AreElements, IsFirstRefusal};
ghost use Rattle.program_stream.specs.Private.Steps.{AreBefore, IsWithin, Finds, GoesOn};

use crate::front::{Front, read_front, zeros_before};
use crate::split_fault::SplitFault;

/// Finds the elements of a file one behind the other, and answers how many last ones are cut. An error is the first refusal among them.
pub fn find_elements(file: &[u8]) -> Result<u32, SplitFault>
    ensures { MatchResult result (λ cut. (elements : List Element) × AreElements file.now elements cut) (IsFirstRefusal file.now) }
{
    let mut at = 0;
    loop {
        match find_element(file, at) {
            Ok(Step::End { cut }) => return Ok(cut),
            Ok(Step::Next { at: next }) => at = next,
            Err(fault) => return Err(fault),
        }
    }
}

/// What comes of the elements of a file from a place on.
#[derive(Clone, Copy)]
pub enum Step {
    /// None follows; so many last ones are cut.
    End { cut: u32 },
    /// The next one stands at this place.
    Next { at: usize },
}

/// Where the element ends that stands at a place of a file, behind others.
fn find_element(file: &[u8], at: usize) -> Result<Step, SplitFault>
    requires within { at ≤ length file.now }
    requires before { (elements : List Element) × AreBefore file.now elements at }
    ensures finds { Finds file.now result }
    ensures within { IfOk result (λ step. IsWithin (length file.now) step) }
    ensures on { IfOk result (λ step. GoesOn at step) }
{
    let rest = &file[at..];
    let zeros = zeros_before(rest);
    let front = match read_front(&rest[zeros..], zeros, at as u64) {
        Ok(front) => front,
        Err(fault) => return Err(fault),
    };
    match front {
        Front::Zeros => Ok(Step::End { cut: 0 }),
        Front::Cut => Ok(Step::End { cut: 1 }),
        Front::Whole { len } => Ok(Step::Next {
            at: at + zeros + len,
        }),
    }
}
