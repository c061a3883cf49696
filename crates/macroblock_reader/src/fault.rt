use block_coeffs::BlockFault;
use list_types::OutOfMemory;
use shelf_io::Fault;
use thiserror::Error;

/// Why no part of a slice was read. A place counts bits from the source's first one.
#[derive(Clone, Copy, Debug, PartialEq, Eq, Error)]
pub enum SliceFault {
    /// No code of the table stands at this place.
    #[error("no code at bit {at}")]
    NoCode { at: u64 },
    /// The coefficient at this place leads past the block's last place.
    #[error("too many coefficients at bit {at}")]
    TooMany { at: u64 },
    /// The escape at this place has the level 0 or -2048, which are forbidden (Table B-16).
    #[error("bad escape at bit {at}")]
    BadEscape { at: u64 },
    /// At this place stands no macroblock_type, the motion type 0, the quantiser_scale_code 0 or a marker bit 0.
    #[error("bad type at bit {at}")]
    BadType { at: u64 },
    /// At this place stands no address code, or one that leads past the end of the row, or past a macroblock that an
    /// I-picture may not skip.
    #[error("bad address at bit {at}")]
    BadAddress { at: u64 },
    /// No coded_block_pattern stands at this place.
    #[error("bad pattern at bit {at}")]
    BadPattern { at: u64 },
    /// The bits end within the element that begins at this place.
    #[error("no more bits at bit {at}")]
    End { at: u64 },
    /// The source failed.
    #[error("{0}")]
    Outside(Fault),
    /// Memory was wanted and not there.
    #[error("out of memory")]
    OutOfMemory,
}

impl From<Fault> for SliceFault {
    ghost use Rattle.std.specs.Prelude.{◌≡◌};
    ghost use Rattle.macroblock_reader.specs.declared.fault.SliceFault.TheVariants.{Outside};

    ghost from_gives = { λ fault slice_fault. slice_fault ≡ Outside fault };

    fn from(fault: Fault) -> SliceFault {
        SliceFault::Outside(fault)
    }
}

impl From<BlockFault> for SliceFault {
    ghost use Rattle.std.specs.Prelude.{◌≡◌};
    ghost use Rattle.macroblock_reader.specs.SliceFault.{fault_of_block};

    ghost from_gives = { λ fault slice_fault. slice_fault ≡ fault_of_block fault };

    fn from(fault: BlockFault) -> SliceFault {
        match fault {
            BlockFault::NoCode { at } => SliceFault::NoCode { at },
            BlockFault::TooMany { at } => SliceFault::TooMany { at },
            BlockFault::BadEscape { at } => SliceFault::BadEscape { at },
            BlockFault::End { at } => SliceFault::End { at },
            BlockFault::Outside(outside) => SliceFault::Outside(outside),
        }
    }
}

impl From<OutOfMemory> for SliceFault {
    ghost use Rattle.std.specs.Prelude.{◌≡◌};
    ghost use Rattle.macroblock_reader.specs.declared.fault.SliceFault.TheVariants as fault;

    ghost from_gives = { λ _ slice_fault. slice_fault ≡ fault.OutOfMemory };

    fn from(_e: OutOfMemory) -> SliceFault {
        SliceFault::OutOfMemory
    }
}
