/// What stands in a slot.
#[derive(Clone, Copy, Debug, PartialEq, Eq)]
pub enum Sent {
    /// A null packet.
    Null,
    /// The program association section.
    Pat,
    /// The program map section of the program of this number, from 0.
    Pmt(u8),
    /// A PCR reference on the video PID of the program of this number, from 0.
    Pcr(u8),
    /// A piece of a coded picture: stream over all programs, unit within the stream, packet within the unit, from 0.
    Video { stream: u32, unit: u32, piece: u32 },
    /// A packet of an audio stream: stream over all programs, packet within the stream, from 0.
    Audio { stream: u32, packet: u32 },
}

/// A packet that comes too late, whatever goes in the slots after it.
#[derive(Clone, Copy, Debug, PartialEq, Eq)]
pub struct Miss {
    /// The stream, over all programs, from 0.
    pub stream: u32,
    /// The unit or audio packet within its stream, from 0.
    pub unit: u32,
    /// The slot after which the miss shows, from 0.
    pub slot: u32,
    /// The due time of the packet, in ticks.
    pub due: u64,
}
