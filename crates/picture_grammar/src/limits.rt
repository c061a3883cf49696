//! What headers may say, beside the greatest buffer of Main level, which `stream_constants` has.

/// The least horizontal_size, in samples.
pub const WIDTH_LEAST: u16 = 16;

/// The greatest horizontal_size of Main level, in samples (Table 8-11).
pub const WIDTH_MOST: u16 = 720;

/// The least vertical_size, in samples.
pub const HEIGHT_LEAST: u16 = 16;

/// The greatest vertical_size of Main level, in samples (Table 8-11).
pub const HEIGHT_MOST: u16 = 576;

/// The greatest frame_rate_code of Main level, 30 pictures/s (Tables 6-4 and 8-11).
pub const RATE_CODE_MOST: u8 = 5;

/// profile_and_level_indication of Main profile at Main level (Tables 8-2 to 8-4).
pub const MAIN_AT_MAIN: u8 = 0x48;

/// chroma_format 4:2:0 (Table 6-5).
pub const CHROMA_420: u8 = 1;

/// The greatest f_code (Table 7-8).
pub const F_CODE_MOST: u8 = 9;

/// Luminance samples of a macroblock in a row and in a column.
pub const MACROBLOCK_SIZE: u16 = 16;

/// Zero bits that close a slice (6.2.4).
pub const SLICE_CLOSING_BITS: usize = 23;

/// Bits of vbv_delay (6.2.3).
pub const VBV_DELAY_BITS: u32 = 16;

/// Macroblocks that one macroblock_escape stands for (6.3.17).
pub const ESCAPE_INCREMENT: u16 = 33;
