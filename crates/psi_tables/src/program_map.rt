use crate::stream::{STREAMS_MOST, Stream};
use arrayvec::ArrayVec;

/// What is kept of a program map section (ISO/IEC 13818-1, 2.4.4.8).
#[derive(Debug, Default, PartialEq, Eq, Drop)]
pub struct ProgramMap {
    /// `program_number`.
    pub number: u16,
    /// `PCR_PID`, 13 bits.
    pub pcr_pid: u16,
    /// The streams in the section's order.
    pub streams: ArrayVec<Stream, STREAMS_MOST>,
    /// How many descriptors aren't kept: those of the program itself, and those of streams whose tags aren't 2, 3 and 10.
    pub dropped: u32,
}
