use list_types::OutOfMemory;
use program_reader::SourceKind;

/// Why a program of a job is refused: the first of what refuses it in the order of reading.
#[derive(Clone, Copy, Debug, PartialEq, Eq)]
pub struct SourceFault {
    /// The program in the job, from 0.
    pub program: u8,
    pub kind: SourceKind,
    /// The place that `program_reader` says; 0 for what has no place.
    pub at: u64,
}

/// Why the programs of a job aren't read.
#[derive(Clone, Copy, Debug, PartialEq, Eq)]
pub enum ProgramsFault {
    /// A program is refused, and none before it.
    Refused(SourceFault),
    /// The file of the program of this number, from 0, can't be read.
    Failed(u8),
    /// The file of the program of this number, from 0, isn't there.
    Missing(u8),
    /// Memory was wanted and not there.
    OutOfMemory,
}

impl From<OutOfMemory> for ProgramsFault {
    ghost use Rattle.std.specs.Prelude.{◌≡◌};
    ghost use Rattle.job_programs.specs.declared.source_fault.ProgramsFault.TheVariants as faults;

    ghost from_gives = { λ _ fault. fault ≡ faults.OutOfMemory };

    fn from(_e: OutOfMemory) -> ProgramsFault {
        ProgramsFault::OutOfMemory
    }
}
