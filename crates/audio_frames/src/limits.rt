//! How long an audio stream may be, so that all its times are numbers of 64 bits.

/// Bytes of the joined payload of an audio stream, at most.
pub const PAYLOAD_BYTES_MOST: u64 = 1_099_511_627_776;

const _: () = prove!(PAYLOAD_BYTES_MOST == 1 << 40);

/// Its frames, at most: each has a header of four bytes.
pub const FRAMES_MOST: u64 = PAYLOAD_BYTES_MOST / 4;
