use crate::fault::BlockFault;

/// Why no coefficient and no end of block stands at some bits.
#[derive(Clone, Copy)]
pub enum Why {
    NoCode,
    TooMany,
    BadEscape,
    End,
}

impl Why {
    ghost use Rattle.std.specs.Prelude.{◌≡◌};
    ghost use Rattle.block_coeffs.specs.Private.Why.{fault_at};

    /// The refusal at a place in bits.
    pub fn at(self, at: u64) -> BlockFault
        ensures { result ≡ fault_at self at }
    {
        match self {
            Why::NoCode => BlockFault::NoCode { at },
            Why::TooMany => BlockFault::TooMany { at },
            Why::BadEscape => BlockFault::BadEscape { at },
            Why::End => BlockFault::End { at },
        }
    }
}
