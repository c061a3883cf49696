//! The bytes behind the start code prefix (Table 6-1), and extension_start_code_identifier (Table 6-2).

/// Bits of start_code_prefix, 23 zeros and a one.
pub const PREFIX_BITS: u32 = 24;

/// Bytes of a start code: its prefix 00 00 01 and its value (6.2.1).
pub const START_CODE_BYTES: usize = 4;

const _: () = prove!(PREFIX_BITS == 23 + 1);

const _: () = prove!(8 * START_CODE_BYTES == PREFIX_BITS as usize + 8);

/// Bytes of a group of pictures header, with its start code and the zero bits that close it (6.2.2.6).
pub const GROUP_HEADER_BYTES: usize = 8;

// the start code, time_code, closed_gop and broken_link, and five zero bits
const _: () = prove!(8 * GROUP_HEADER_BYTES == 32 + 25 + 2 + 5);

/// picture_start_code.
pub const PICTURE: u8 = 0x00;

/// slice_start_code of the first macroblock row.
pub const FIRST_SLICE: u8 = 0x01;

/// The greatest slice_start_code.
pub const LAST_SLICE: u8 = 0xAF;

/// user_data_start_code.
pub const USER_DATA: u8 = 0xB2;

/// sequence_header_code.
pub const SEQUENCE_HEADER: u8 = 0xB3;

/// extension_start_code.
pub const EXTENSION: u8 = 0xB5;

/// sequence_end_code.
pub const SEQUENCE_END: u8 = 0xB7;

/// group_start_code.
pub const GROUP: u8 = 0xB8;

// Table 6-1 in order: picture, 175 slices, B0 and B1 reserved, user data, sequence header, sequence error, extension,
// B6 reserved, sequence end, group, and system start codes from B9 on
const _: () = prove!(PICTURE == 0 && FIRST_SLICE == PICTURE + 1 && LAST_SLICE == 175);

const _: () = prove!(USER_DATA == LAST_SLICE + 3 && SEQUENCE_HEADER == USER_DATA + 1);

const _: () = prove!(EXTENSION == SEQUENCE_HEADER + 2 && SEQUENCE_END == EXTENSION + 2);

const _: () = prove!(GROUP == SEQUENCE_END + 1 && GROUP + 1 == 0xB9);

/// Sequence extension.
pub const SEQUENCE_EXTENSION: u8 = 1;

/// Sequence display extension.
pub const SEQUENCE_DISPLAY: u8 = 2;

/// Quant matrix extension.
pub const QUANT_MATRIX: u8 = 3;

/// Copyright extension.
pub const COPYRIGHT: u8 = 4;

/// Sequence scalable extension.
pub const SEQUENCE_SCALABLE: u8 = 5;

/// Picture display extension.
pub const PICTURE_DISPLAY: u8 = 7;

/// Picture coding extension.
pub const PICTURE_CODING: u8 = 8;

/// Picture spatial scalable extension.
pub const SPATIAL_SCALABLE: u8 = 9;

/// Picture temporal scalable extension.
pub const TEMPORAL_SCALABLE: u8 = 10;

// Table 6-2 in order, where 0 and 6 are reserved
const _: () = prove!(SEQUENCE_EXTENSION == 1 && SEQUENCE_DISPLAY == SEQUENCE_EXTENSION + 1);

const _: () = prove!(QUANT_MATRIX == SEQUENCE_DISPLAY + 1 && COPYRIGHT == QUANT_MATRIX + 1);

const _: () = prove!(
    SEQUENCE_SCALABLE == COPYRIGHT + 1 && PICTURE_DISPLAY == SEQUENCE_SCALABLE + 2
);

const _: () = prove!(PICTURE_CODING == PICTURE_DISPLAY + 1);

const _: () = prove!(SPATIAL_SCALABLE == PICTURE_CODING + 1);

const _: () = prove!(TEMPORAL_SCALABLE == SPATIAL_SCALABLE + 1 && TEMPORAL_SCALABLE == 0b1010);
