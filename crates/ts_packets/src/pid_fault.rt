use crate::packet_fault::PacketFault;
use thiserror::Error;

/// Why a packet of a PID is refused behind the others of its PID: the first of these that it has.
#[derive(Clone, Copy, Debug, PartialEq, Eq, Error)]
pub enum PidFault {
    /// Its bytes are no packet.
    #[error("{0}")]
    Refused(PacketFault),
    /// It isn't the first packet of the PID, and its `discontinuity_indicator` is 1.
    #[error("discontinuity")]
    Discontinuity,
    /// It has payload, its counter isn't the one behind that of the packet with payload before it, and it doesn't repeat
    /// that packet.
    #[error("gap in the continuity counter")]
    Gap,
}
