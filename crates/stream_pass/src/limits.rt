//! How much a program may have of a stream.

/// Bytes of a file, at most: as many as the payload of an audio stream may have.
pub const FILE_BYTES_MOST: u64 = audio_frames::PAYLOAD_BYTES_MOST;

/// PES packets of a carried stream, at most: as many as have times on one axis.
pub const PES_PACKETS_MOST: u64 = elementary_streams::PES_PACKETS_MOST as u64;
