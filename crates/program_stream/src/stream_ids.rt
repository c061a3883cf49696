//! The bytes behind a start code prefix of a program stream (ISO/IEC 13818-1, 2.5.3 and Table 2-22), and the length of a pack header.

/// MPEG_program_end_code. No element has a lower id.
pub const END_CODE: u8 = 0xB9;

/// pack_start_code.
pub const PACK_START_CODE: u8 = 0xBA;

/// system_header_start_code.
pub const SYSTEM_HEADER: u8 = 0xBB;

/// program_stream_map.
pub const PROGRAM_STREAM_MAP: u8 = 0xBC;

/// padding_stream.
pub const PADDING_STREAM: u8 = 0xBE;

/// The first id of an audio stream.
pub const FIRST_AUDIO: u8 = 0xC0;

/// The last id of an audio stream.
pub const LAST_AUDIO: u8 = 0xDF;

/// The first id of a video stream.
pub const FIRST_VIDEO: u8 = 0xE0;

/// The last id of a video stream.
pub const LAST_VIDEO: u8 = 0xEF;

// Table 2-22 in order: the map, private stream 1, padding, private stream 2, 32 audio streams, 16 video streams, and 16 more
const _: () = prove!(PACK_START_CODE == END_CODE + 1 && SYSTEM_HEADER == PACK_START_CODE + 1);

const _: () = prove!(
    PROGRAM_STREAM_MAP == SYSTEM_HEADER + 1 && PADDING_STREAM == PROGRAM_STREAM_MAP + 2
);

const _: () = prove!(FIRST_AUDIO == PADDING_STREAM + 2 && LAST_AUDIO == FIRST_AUDIO + 31);

const _: () = prove!(FIRST_VIDEO == LAST_AUDIO + 1 && LAST_VIDEO == FIRST_VIDEO + 15);

const _: () = prove!(LAST_VIDEO as u32 + 16 == 0xFF);

/// Bytes of a pack header without stuffing (2.5.3.3).
pub const PACK_HEADER_BYTES: usize = 14;

// the start code and `01`; 33 bits of the clock reference in three parts and 9 of its extension, each with a marker bit behind it; the
// rate and two marker bits; reserved bits and the length of the stuffing
const _: () = prove!(
    8 * PACK_HEADER_BYTES == 32 + 2 + (3 + 1 + 15 + 1 + 15 + 1 + 9 + 1) + (22 + 2) + (5 + 3)
);
