use crate::limits::NAME_MOST;
use crate::wording::{Allowed, field_trouble};
use arrayvec::ArrayString;
use list_types::OutOfMemory;
use thiserror::Error;

/// Why a text gave no job.
#[derive(Clone, Copy, Debug, PartialEq, Eq, Error)]
pub enum JobFault {
    /// The text is no TOML document.
    #[error("job: the text is no TOML document")]
    JobSyntax,
    /// The field of this name is missing or of another type, or there is no such field.
    #[error("job: {name} {trouble}; allowed: {allowed}", name = .0, trouble = field_trouble(.0), allowed = Allowed::of(.0))]
    JobField(ArrayString<NAME_MOST>),
    /// The value of the field of this name is out of range.
    #[error("job: {name} is out of range; allowed: {allowed}", name = .0, allowed = Allowed::of(.0))]
    JobLimit(ArrayString<NAME_MOST>),
    /// Memory was wanted and not there.
    #[error("out of memory")]
    OutOfMemory,
}

impl From<OutOfMemory> for JobFault {
    ghost use Rattle.std.specs.Prelude.{◌≡◌};
    ghost use Rattle.job_report.specs.declared.fault.JobFault.TheVariants as faults;

    ghost from_gives = { λ _ e. e ≡ faults.OutOfMemory };

    fn from(_e: OutOfMemory) -> JobFault {
        JobFault::OutOfMemory
    }
}
