use list_types::ListOf;
use program_reader::{AudioPiece, UnitSource};
use psi_tables::ProgramMap;

/// A program of a file, without the bytes of its streams.
#[derive(Drop)]
pub struct PassedProgram {
    /// The carried streams, the video first.
    pub map: ProgramMap,
    /// Its earliest decoding time less the time at which that is due, in ticks, modulo 300 * 2^33.
    pub base: u64,
    /// The size of the video's elementary buffer in units of 2,048 bytes.
    pub vbv: u8,
    /// The coded pictures in decoding order.
    pub units: ListOf<UnitSource>,
    /// The pieces of each audio stream in order, the streams in the order of `map`.
    pub audios: ListOf<ListOf<AudioPiece>>,
    /// How many coded pictures were dropped at both ends.
    pub units_dropped: u32,
    /// How many cut PES packets were dropped.
    pub pes_dropped: u32,
    /// Bytes behind the last whole transport packet.
    pub rest: u8,
    /// The PIDs of the program's other streams, in order.
    pub not_carried: ListOf<u16>,
}
