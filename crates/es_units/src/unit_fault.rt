use list_types::OutOfMemory;
use thiserror::Error;

/// Why a video stream isn't cut into units.
#[derive(Clone, Copy, Debug, PartialEq, Eq, Error)]
pub enum UnitFault {
    /// No sequence header stands in the stream, so no unit is left; `at` is the byte of the stream, 0.
    #[error("no sequence header from byte {at} on")]
    NoSequence { at: u64 },
    /// Memory was wanted and not there.
    #[error("out of memory")]
    OutOfMemory,
}

impl From<OutOfMemory> for UnitFault {
    ghost use Rattle.std.specs.Prelude.{◌≡◌};
    ghost use Rattle.es_units.specs.declared.unit_fault.UnitFault.TheVariants as faults;

    ghost from_gives = { λ _ fault. fault ≡ faults.OutOfMemory };

    fn from(_e: OutOfMemory) -> UnitFault {
        UnitFault::OutOfMemory
    }
}
