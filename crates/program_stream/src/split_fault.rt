use list_types::OutOfMemory;
use std::alloc::{AllocError, AllocFailed};
use thiserror::Error;

/// Why a program isn't taken out of a program stream: the first of these in the order of reading, and the byte of the file where it
/// stands. What no element has is at 0.
#[derive(Clone, Copy, Debug, PartialEq, Eq, Error)]
pub enum SplitFault {
    /// The file has fewer bytes than a pack header.
    #[error("a file shorter than a pack header from byte {at} on")]
    ShortFile { at: u64 },
    /// No start code of an element where one must stand.
    #[error("no start code at byte {at}")]
    BadStart { at: u64 },
    /// A pack header that isn't one of MPEG-2, as those of MPEG-1 aren't: other bits than `01` behind its start code, or a marker bit 0.
    #[error("no pack header of an MPEG-2 program stream at byte {at}")]
    BadPack { at: u64 },
    /// A video or audio packet that states no length.
    #[error("a packet without a length at byte {at}")]
    BadLength { at: u64 },
    /// No video stream.
    #[error("no video stream from byte {at} on")]
    NoVideo { at: u64 },
    /// More than eight audio streams.
    #[error("too many audio streams from byte {at} on")]
    ProgramLimit { at: u64 },
    /// Memory was wanted and not there.
    #[error("out of memory")]
    OutOfMemory,
}

impl From<OutOfMemory> for SplitFault {
    ghost use Rattle.std.specs.Prelude.{◌≡◌};
    ghost use Rattle.program_stream.specs.declared.split_fault.SplitFault.TheVariants as faults;

    ghost from_gives = { λ _ fault. fault ≡ faults.OutOfMemory };

    fn from(_e: OutOfMemory) -> SplitFault {
        SplitFault::OutOfMemory
    }
}

impl From<AllocError> for SplitFault {
    ghost use Rattle.std.specs.Prelude.{◌≡◌};
    ghost use Rattle.program_stream.specs.declared.split_fault.SplitFault.TheVariants as faults;

    ghost from_gives = { λ _ fault. fault ≡ faults.OutOfMemory };

    fn from(_e: AllocError) -> SplitFault {
        SplitFault::OutOfMemory
    }
}

impl<T: Drop> From<AllocFailed<T>> for SplitFault {
    ghost use Rattle.std.specs.Prelude.{◌≡◌};
    ghost use Rattle.program_stream.specs.declared.split_fault.SplitFault.TheVariants as faults;

    ghost from_gives = { λ _ fault. fault ≡ faults.OutOfMemory };

    fn from(_e: AllocFailed<T>) -> SplitFault {
        SplitFault::OutOfMemory
    }
}
