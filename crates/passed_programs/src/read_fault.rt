use program_reader::ProgramFault;
use thiserror::Error;
use ts_demux::PassFault;

/// Why a reading out of a source has no answer.
#[derive(Clone, Copy, Debug, PartialEq, Eq, Error)]
pub enum ReadFault {
    /// The source answered a fault, or the first transport packet that is refused has it.
    #[error("{0}")]
    Passing(PassFault),
    /// What the transport packets carry is refused.
    #[error("{0}")]
    Refused(ProgramFault),
}
