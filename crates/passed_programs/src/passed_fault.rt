use program_reader::ProgramFault;

/// Why a program isn't read of a file of a shelf.
#[derive(Clone, Copy, Debug, PartialEq, Eq)]
pub enum PassedFault {
    /// The file is refused, first for this; or memory was wanted and not there.
    Refused(ProgramFault),
    /// The file can't be read.
    Failed,
    /// The file isn't there.
    Missing,
}
