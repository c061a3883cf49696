use arrayvec::ArrayString;
use job_programs::SourceFault;
use list_types::{OutOfMemory, Text};

/// Why the text of a job is refused.
#[derive(Clone, Copy, Debug, PartialEq, Eq)]
pub enum TextRefusal {
    /// It is no TOML document.
    NoDocument,
    /// The field of this name is missing or of another type, there is no such field, or it names a file of the command's own.
    Field(ArrayString<32>),
    /// The value of the field of this name is out of range.
    Limit(ArrayString<32>),
}

/// Why there is no table of a job.
#[derive(Drop)]
pub enum JobStop {
    /// The job's text is refused.
    Text(TextRefusal),
    /// A program is refused, and none before it.
    Source(SourceFault),
    /// This file can't be read.
    Unread(Text),
    /// This file isn't there.
    Missing(Text),
    /// Memory was wanted and not there.
    OutOfMemory,
}

impl From<OutOfMemory> for JobStop {
    ghost use Rattle.std.specs.Prelude.{◌≡◌};
    ghost use Rattle.job_files.specs.declared.job_stop.JobStop.TheVariants as stops;

    ghost from_gives = { λ _ stop. stop ≡ stops.OutOfMemory };

    fn from(_e: OutOfMemory) -> JobStop {
        JobStop::OutOfMemory
    }
}
