use list_types::OutOfMemory;
use macroblock_reader::SliceFault;
use shelf_io::Fault;
use thiserror::Error;

/// Why no picture was read. A place counts bits from the unit's first one.
#[derive(Clone, Copy, Debug, PartialEq, Eq, Error)]
pub enum PictureFault {
    /// No code of the table stands at this place.
    #[error("no code at bit {at}")]
    NoCode { at: u64 },
    /// The coefficient at this place leads past the block's last place.
    #[error("too many coefficients at bit {at}")]
    TooMany { at: u64 },
    /// The escape at this place has the level 0 or -2048, which are forbidden (Table B-16).
    #[error("bad escape at bit {at}")]
    BadEscape { at: u64 },
    /// At this place stands no macroblock_type, the motion type 0, the quantiser_scale_code 0 or a marker bit 0.
    #[error("bad type at bit {at}")]
    BadType { at: u64 },
    /// At this place stands no address code, or one that leads past the end of the row, or past a macroblock that an
    /// I-picture may not skip.
    #[error("bad address at bit {at}")]
    BadAddress { at: u64 },
    /// No coded_block_pattern stands at this place.
    #[error("bad pattern at bit {at}")]
    BadPattern { at: u64 },
    /// The bits end within the element that begins at this place.
    #[error("no more bits at bit {at}")]
    End { at: u64 },
    /// All elements are there, and a macroblock is in no slice or in two, or slices don't rise; the place is 0.
    #[error("macroblocks that are in no slice, or in two")]
    Uncovered { at: u64 },
    /// The element at this place isn't one that the order of a unit or its rules have there.
    #[error("bad header at bit {at}")]
    BadHeader { at: u64 },
    /// No extension of MPEG-2 stands at this place behind a sequence header or a picture header.
    #[error("no MPEG-2 extension at bit {at}")]
    NotMpeg2 { at: u64 },
    /// The element at this place is of another profile or level.
    #[error("another profile at bit {at}")]
    Profile { at: u64 },
    /// low_delay is set at this place.
    #[error("low delay at bit {at}")]
    LowDelay { at: u64 },
    /// The size or the rate at this place is outside the limits.
    #[error("size or rate outside the limits at bit {at}")]
    Size { at: u64 },
    /// Memory was wanted and not there.
    #[error("out of memory")]
    OutOfMemory,
}

impl From<OutOfMemory> for PictureFault {
    ghost use Rattle.std.specs.Prelude.{◌≡◌};
    ghost use Rattle.picture_reader.specs.declared.fault.PictureFault.TheVariants as fault;

    ghost from_gives = { λ _ picture_fault. picture_fault ≡ fault.OutOfMemory };

    fn from(_e: OutOfMemory) -> PictureFault {
        PictureFault::OutOfMemory
    }
}

ghost use Rattle.std.specs.Prelude.{◌≡◌, ◌+◌, ◌<◌, ◌≤◌, ◌^◌, IfSome};
ghost use Rattle.macroblock_reader.specs.SliceFault.{refusal_told as slice_told};
ghost use Rattle.picture_reader.specs.PictureFault.{refusal_told};
ghost use Rattle.picture_reader.specs.Private.Faults.{moved};
ghost use Rattle.picture_reader.specs.Told.{IsInside};

/// The fault of a slice that begins at this place of a unit.
pub(crate) fn fault_of_slice(fault: SliceFault, first: u64) -> PictureFault
    requires inside { IsInside fault }
    requires few { IfSome (slice_told fault) (λ said. first + said.at < 2 ^ 64) }
    ensures { refusal_told result ≡ moved first (slice_told fault) }
{
    match fault {
        SliceFault::NoCode { at } => PictureFault::NoCode { at: first + at },
        SliceFault::TooMany { at } => PictureFault::TooMany { at: first + at },
        SliceFault::BadEscape { at } => PictureFault::BadEscape { at: first + at },
        SliceFault::BadType { at } => PictureFault::BadType { at: first + at },
        SliceFault::BadAddress { at } => PictureFault::BadAddress { at: first + at },
        SliceFault::BadPattern { at } => PictureFault::BadPattern { at: first + at },
        SliceFault::End { at } => PictureFault::End { at: first + at },
        SliceFault::Outside(fault) => match fault {
            Fault::Failed => unreachable!(),
            Fault::Missing => unreachable!(),
            Fault::OutOfMemory => PictureFault::OutOfMemory,
        },
        SliceFault::OutOfMemory => PictureFault::OutOfMemory,
    }
}
