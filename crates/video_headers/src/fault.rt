use shelf_io::Fault;
use thiserror::Error;

/// Why no head was read. A place counts bits from the source's first one.
#[derive(Clone, Copy, Debug, PartialEq, Eq, Error)]
pub enum HeadFault {
    /// The element at this place isn't one that the order of a head or its rules have there.
    #[error("bad header at bit {at}")]
    BadHeader { at: u64 },
    /// No extension of MPEG-2 stands at this place behind a sequence header or a picture header.
    #[error("no MPEG-2 extension at bit {at}")]
    NotMpeg2 { at: u64 },
    /// The element at this place is of another profile or level.
    #[error("another profile at bit {at}")]
    Profile { at: u64 },
    /// low_delay is set at this place.
    #[error("low delay at bit {at}")]
    LowDelay { at: u64 },
    /// The size or the rate at this place is outside the limits.
    #[error("size or rate outside the limits at bit {at}")]
    Size { at: u64 },
    /// The bits end within the element that begins at this place.
    #[error("no more bits at bit {at}")]
    End { at: u64 },
    /// The source failed.
    #[error("{0}")]
    Outside(Fault),
}

impl From<Fault> for HeadFault {
    ghost use Rattle.std.specs.Prelude.{◌≡◌};
    ghost use Rattle.video_headers.specs.declared.fault.HeadFault.TheVariants.{Outside};

    ghost from_gives = { λ fault head_fault. head_fault ≡ Outside fault };

    fn from(fault: Fault) -> HeadFault {
        HeadFault::Outside(fault)
    }
}
