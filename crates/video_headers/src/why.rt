use crate::fault::HeadFault;

/// Why no element stands at some bits.
#[derive(Clone, Copy)]
pub enum Why {
    BadHeader,
    NotMpeg2,
    Profile,
    LowDelay,
    Size,
    End,
}

impl Why {
    ghost use Rattle.std.specs.Prelude.{◌≡◌};
    ghost use Rattle.video_headers.specs.Private.Why.{fault_at};

    /// The refusal at a place in bits.
    pub fn at(self, at: u64) -> HeadFault
        ensures { result ≡ fault_at self at }
    {
        match self {
            Why::BadHeader => HeadFault::BadHeader { at },
            Why::NotMpeg2 => HeadFault::NotMpeg2 { at },
            Why::Profile => HeadFault::Profile { at },
            Why::LowDelay => HeadFault::LowDelay { at },
            Why::Size => HeadFault::Size { at },
            Why::End => HeadFault::End { at },
        }
    }
}
