use crate::pmt::PACKET_SECTION_BYTES;
use arrayvec::ArrayVec;

/// The most streams of a program map that is kept.
pub const STREAMS_MOST: usize = 64;

/// The most bytes of a stream's kept descriptors.
pub const DESCRIPTOR_BYTES: usize = PACKET_SECTION_BYTES;

/// What is kept of an elementary stream in a program map (ISO/IEC 13818-1, 2.4.4.8).
#[derive(Debug, Default, PartialEq, Eq, Drop)]
pub struct Stream {
    /// `stream_type`.
    pub kind: u8,
    /// `elementary_PID`, 13 bits.
    pub pid: u16,
    /// Its descriptors of the tags 2, 3 and 10, each whole, one behind the other.
    pub descriptors: ArrayVec<u8, DESCRIPTOR_BYTES>,
}
