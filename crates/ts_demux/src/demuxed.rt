use list_types::ListOf;
use psi_tables::ProgramMap;

/// A PES packet: the byte of the file where its first transport packet stands, and its bytes.
#[derive(Drop)]
pub struct PesUnit {
    pub at: u64,
    pub bytes: ListOf<u8>,
}

/// An audio stream: its PID and its PES packets in order.
#[derive(Drop)]
pub struct AudioStream {
    pub pid: u16,
    pub units: ListOf<PesUnit>,
}

/// The carried streams of a program.
#[derive(Drop)]
pub struct Demuxed {
    /// The carried streams alone, the video first, then the audio streams as the PMT has them; with the PMT's number, PCR
    /// PID and count of dropped descriptors.
    pub map: ProgramMap,
    /// The PES packets of the video.
    pub video: ListOf<PesUnit>,
    /// Those of each audio stream, in the order of `map`.
    pub audios: ListOf<AudioStream>,
    /// Bytes behind the last whole packet.
    pub rest: u8,
    /// The PIDs of the PMT's other streams, in order.
    pub not_carried: ListOf<u16>,
}
