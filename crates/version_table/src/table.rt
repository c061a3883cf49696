use crate::limits::VERSIONS_MOST;
use arrayvec::ArrayVec;
use list_types::ListOf;

/// One way to send a coded picture.
#[derive(Clone, Copy, Debug, Default, PartialEq)]
pub struct Version {
    /// Bytes of its PES packet, header included.
    pub bytes: u32,
    /// The sum of squared differences of its coefficients from the source's, times the program's weight.
    pub distortion: u64,
}

/// A coded picture with its versions.
#[derive(Drop)]
pub struct Unit {
    /// The decoding time, in ticks, at which all its bytes are removed from the buffer.
    pub due: u64,
    /// Its versions, version 0 being the source.
    pub versions: ArrayVec<Version, VERSIONS_MOST>,
}

/// The payload of one transport packet of an audio stream.
#[derive(Clone, Copy, Debug, Default, PartialEq)]
pub struct AudioPacket {
    /// When its first byte is wanted, in ticks.
    pub due: u64,
    /// When its last byte is removed, in ticks.
    pub gone: u64,
    /// Payload bytes.
    pub bytes: u8,
}

/// What is known of one program.
#[derive(Drop)]
pub struct ProgramRow {
    /// The size of the video's elementary buffer in units of 2,048 bytes.
    pub vbv: u8,
    /// The coded pictures in decoding order.
    pub units: ListOf<Unit>,
    /// The audio streams, each with its packets in order.
    pub audios: ListOf<ListOf<AudioPacket>>,
}

/// What the planner is given.
#[derive(Drop)]
pub struct Table {
    /// Ticks of a packet slot.
    pub slot: u32,
    /// Nodes that the search may use.
    pub nodes: u32,
    /// Runs of the slot rule that the search may spend on single changes.
    pub evaluations: u32,
    /// The programs in order.
    pub programs: ListOf<ProgramRow>,
}

/// A version number for each unit, over all programs in order.
pub type Choice = ListOf<u8>;
