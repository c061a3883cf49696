use arrayvec::ArrayVec;

/// The places of a block's coefficients, in scan order.
pub const BLOCK_PLACES: usize = 64;

/// A coefficient as it is coded: how many zeros stand before it in scan order, and its level (7.2.2).
#[derive(Clone, Copy, Debug, Default, PartialEq, Eq)]
pub struct RunLevel {
    pub run: u8,
    pub level: i16,
}

/// The DC coefficient of an intra block as it is coded (7.2.1).
#[derive(Clone, Copy, Debug, PartialEq, Eq)]
pub struct Dc {
    /// dct_dc_size, the number of bits that follow.
    pub size: u8,
    /// dct_dc_differential, the value of these bits.
    pub bits: u16,
}

/// How the blocks of a macroblock are coded (7.2).
#[derive(Clone, Copy)]
pub struct BlockWay {
    /// The macroblock is intra.
    pub intra: bool,
    /// The block is one of luminance.
    pub luma: bool,
    /// intra_vlc_format: Table B-15 in place of Table B-14 in intra blocks.
    pub vlc_one: bool,
}

/// The coefficients of a block of 8 by 8 samples (6.2.6). A block that isn't coded has neither.
#[derive(Default, Drop)]
pub struct Block {
    /// The DC coefficient, in intra blocks alone.
    pub dc: Option<Dc>,
    /// The other coefficients, in scan order.
    pub pairs: ArrayVec<RunLevel, BLOCK_PLACES>,
}
