use shelf_io::Fault;
use thiserror::Error;

/// Why no block was read. A place counts bits from the source's first one.
#[derive(Clone, Copy, Debug, PartialEq, Eq, Error)]
pub enum BlockFault {
    /// No code of the table stands at this place.
    #[error("no code at bit {at}")]
    NoCode { at: u64 },
    /// The coefficient at this place leads past the block's last place.
    #[error("too many coefficients at bit {at}")]
    TooMany { at: u64 },
    /// The escape at this place has the level 0 or -2048, which are forbidden (Table B-16).
    #[error("bad escape at bit {at}")]
    BadEscape { at: u64 },
    /// The bits end within the element that begins at this place.
    #[error("no more bits at bit {at}")]
    End { at: u64 },
    /// The source failed.
    #[error("{0}")]
    Outside(Fault),
}

impl From<Fault> for BlockFault {
    ghost use Rattle.std.specs.Prelude.{◌≡◌};
    ghost use Rattle.block_coeffs.specs.declared.fault.BlockFault.TheVariants.{Outside};

    ghost from_gives = { λ fault block_fault. block_fault ≡ Outside fault };

    fn from(fault: Fault) -> BlockFault {
        BlockFault::Outside(fault)
    }
}
