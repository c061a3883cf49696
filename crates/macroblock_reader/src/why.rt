use crate::fault::SliceFault;

/// Why no element stands at some bits.
#[derive(Clone, Copy)]
pub enum Why {
    NoCode,
    BadType,
    BadAddress,
    BadPattern,
    End,
}

impl Why {
    ghost use Rattle.std.specs.Prelude.{◌≡◌};
    ghost use Rattle.macroblock_reader.specs.Private.Why.{fault_at};

    /// The refusal at a place in bits.
    pub fn at(self, at: u64) -> SliceFault
        ensures { result ≡ fault_at self at }
    {
        match self {
            Why::NoCode => SliceFault::NoCode { at },
            Why::BadType => SliceFault::BadType { at },
            Why::BadAddress => SliceFault::BadAddress { at },
            Why::BadPattern => SliceFault::BadPattern { at },
            Why::End => SliceFault::End { at },
        }
    }
}
