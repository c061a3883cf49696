//! What Main profile at Main level allows (13818-2, 8.2 and 8.3).

/// The greatest vbv_buffer_size, in units of 16,384 bits: 1,835,008 bits in all (Table 8-14).
pub const VBV_MOST: u8 = 112;

const _: () = prove!(VBV_MOST as u64 * 16_384 == 1_835_008);

/// The bit rate that is allowed at most, in bits per second (Table 8-13).
pub const BITS_PER_SECOND_MOST: u64 = 15_000_000;
