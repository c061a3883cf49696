ghost use Rattle.std.specs.Prelude.{MatchResult};
ghost use Rattle.program_stream.specs.Split.{IsSplit, IsSplitRefused};

use crate::element_fault::ElementFault;
use crate::source_split::split_source;
use crate::split_fault::SplitFault;
use shelf_io::{SOURCE_BYTES_MOST, SliceSource};
use std::alloc::Global;
use ts_demux::Demuxed;

/// Takes the program out of a program stream (ISO/IEC 13818-1, 2.5.3): the packets of the first video stream that comes and of its
/// audio streams, but for those whose ids are in `drop`; and how many last elements are dropped since the file's end cuts them, 0 or 1.
/// An error is the first refusal in the order of reading: the file's length, its elements one behind the other, and then its streams.
/// Places are bytes of the file.
pub fn split(alloc: Global, file: &[u8], drop: &[u16]) -> Result<(Demuxed, u32), SplitFault>
    ensures { MatchResult result (λ answer. IsSplit file.now drop.now answer.0 answer.1) (IsSplitRefused file.now drop.now) }
{
    if file.len() as u64 > SOURCE_BYTES_MOST {
        return Err(SplitFault::OutOfMemory);
    }
    match split_source(alloc, &mut SliceSource::new(file), drop) {
        Ok(answer) => Ok(answer),
        Err(ElementFault::Refused(fault)) => Err(fault),
        Err(ElementFault::Outside(_)) => Err(SplitFault::OutOfMemory),
    }
}
