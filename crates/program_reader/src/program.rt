use crate::timed_picture::Role;
use list_types::ListOf;
use pes_units::Times;
use psi_tables::ProgramMap;
use version_table::AudioPacket;

/// A coded picture of a program: where its bytes stand, and its times.
#[derive(Clone, Copy, Debug, PartialEq, Eq)]
pub struct UnitSource {
    /// The place of its first byte among the bytes of the video, and the one behind its last.
    pub begin: u64,
    pub end: u64,
    /// The times of its PES header, where it has any.
    pub times: Times,
    /// When it is decoded, in ticks of 1/27,000,000 s.
    pub due: u64,
    /// Its picture_coding_type: `I_PICTURE`, `P_PICTURE` or `B_PICTURE`.
    pub kind: u8,
    /// What its picture is of its coded frame.
    pub role: Role,
}

/// The payload of one transport packet of an audio stream.
#[derive(Clone, Copy, Debug, PartialEq)]
pub struct AudioPiece {
    /// When its first byte is wanted and its last one is gone, in ticks, and the number of its bytes.
    pub packet: AudioPacket,
    /// True exactly where a PES packet begins with it.
    pub start: bool,
    /// The place of its first byte among the bytes of the stream.
    pub at: u64,
}

/// An audio stream of a program: its PES packets, and their pieces in order.
#[derive(Drop)]
pub struct AudioSource {
    /// The bytes of the PES packets, header and payload, one packet behind the other.
    pub bytes: ListOf<u8>,
    pub pieces: ListOf<AudioPiece>,
}

/// A program of a file.
#[derive(Drop)]
pub struct Program {
    /// The carried streams, the video first.
    pub map: ProgramMap,
    /// Its earliest decoding time less the time at which that is due, in ticks, modulo 300 * 2^33.
    pub base: u64,
    /// The size of the video's elementary buffer in units of 2,048 bytes.
    pub vbv: u8,
    /// The bytes of the video, from the first payload byte to the last.
    pub video: ListOf<u8>,
    /// The coded pictures in decoding order.
    pub units: ListOf<UnitSource>,
    /// The audio streams in the order of `map`.
    pub audios: ListOf<AudioSource>,
    /// How many coded pictures were dropped at both ends.
    pub units_dropped: u32,
    /// How many cut PES packets were dropped, a cut last element of a program stream among them.
    pub pes_dropped: u32,
    /// Bytes behind the last whole transport packet; 0 of a program stream.
    pub rest: u8,
    /// The PIDs, or stream ids, of the program's other streams, in order.
    pub not_carried: ListOf<u16>,
}
