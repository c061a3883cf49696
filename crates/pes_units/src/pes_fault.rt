use thiserror::Error;

/// Why bytes aren't read as a PES header: the first of these that they have (ISO/IEC 13818-1, 2.4.3.7).
#[derive(Clone, Copy, Debug, PartialEq, Eq, Error)]
pub enum PesFault {
    /// Of the first four bytes those that stand aren't 00 00 01 and a stream id of the kind.
    #[error("no start code prefix and stream id")]
    BadPrefix,
    /// The header passes the bytes, or nothing follows it.
    #[error("short packet")]
    Short,
    /// `PES_scrambling_control` isn't 00.
    #[error("scrambled")]
    Scrambled,
    /// Byte 6 doesn't begin with the bits 10, `PTS_DTS_flags` are 01, the header is too short for its times, or a marker
    /// bit of a time is 0.
    #[error("bad marker")]
    BadMarker,
    /// A whole PES packet isn't as long as it states, or an audio packet states the length 0. No header has this fault.
    #[error("bad length")]
    BadLength,
}
