use list_types::OutOfMemory;
use thiserror::Error;

/// Why bytes gave no certificate.
#[derive(Clone, Copy, Debug, PartialEq, Eq, Error)]
pub enum CertFormat {
    /// No certificate has this byte there, counted from 0. Where the bytes end too early it is their number.
    #[error("no certificate has the byte at {0}")]
    CertSyntax(u64),
    /// Memory was wanted and not there.
    #[error("out of memory")]
    OutOfMemory,
}

/// Why a part of a certificate wasn't read.
#[derive(Clone, Copy)]
pub(crate) enum Stop {
    /// No certificate has the byte there, from which on so many bytes are left.
    At { left: usize },
    /// Memory was wanted and not there.
    OutOfMemory,
}

impl From<OutOfMemory> for Stop {
    ghost use Rattle.std.specs.Prelude.{◌≡◌};
    ghost use Rattle.bound_certificate.specs.declared.fault.Stop.TheVariants as stops;

    ghost from_gives = { λ _ e. e ≡ stops.OutOfMemory };

    fn from(_e: OutOfMemory) -> Stop {
        Stop::OutOfMemory
    }
}
