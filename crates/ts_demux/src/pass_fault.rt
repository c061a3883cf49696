use crate::demux_fault::DemuxFault;
use shelf_io::Fault;
use thiserror::Error;

/// Why a pass over the packets of a source has no answer.
#[derive(Clone, Copy, Debug, PartialEq, Eq, Error)]
pub enum PassFault {
    /// The source answered a fault.
    #[error("{0}")]
    Outside(Fault),
    /// What it gave is refused.
    #[error("{0}")]
    Refused(DemuxFault),
}
