use shelf_io::Fault;
use thiserror::Error;

/// Why bits were not given.
#[derive(Clone, Copy, Debug, PartialEq, Eq, Error)]
pub enum BitFault {
    /// Fewer bits are left than were asked for.
    #[error("no more bits")]
    End,
    /// The source failed.
    #[error("{0}")]
    Outside(Fault),
}

impl From<Fault> for BitFault {
    ghost use Rattle.std.specs.Prelude.{◌≡◌};
    ghost use Rattle.bit_cursor.specs.declared.fault.BitFault.TheVariants.{Outside};

    ghost from_gives = { λ fault bit_fault. bit_fault ≡ Outside fault };

    fn from(fault: Fault) -> BitFault {
        BitFault::Outside(fault)
    }
}
