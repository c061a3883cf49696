use crate::split_fault::SplitFault;
use shelf_io::Fault;
use thiserror::Error;

/// Why a pass over the elements of a source has no answer.
#[derive(Clone, Copy, Debug, PartialEq, Eq, Error)]
pub enum ElementFault {
    /// The source answered a fault, or memory was wanted.
    #[error("{0}")]
    Outside(Fault),
    /// What it gave is refused.
    #[error("{0}")]
    Refused(SplitFault),
}
