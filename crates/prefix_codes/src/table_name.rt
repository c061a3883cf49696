/// The code tables of ISO/IEC 13818-2, Annex B, and what the symbols of each stand for.
#[derive(Clone, Copy, Debug, PartialEq, Eq)]
pub enum TableName {
    /// Table B-1, macroblock_address_increment: 1 to 33, and `symbol::ADDRESS_ESCAPE`.
    Address,
    /// Table B-2, macroblock_type in I-pictures: a sum of the flags of `symbol`, as in the next two.
    TypeI,
    /// Table B-3, macroblock_type in P-pictures.
    TypeP,
    /// Table B-4, macroblock_type in B-pictures.
    TypeB,
    /// Table B-9, coded_block_pattern of 4:2:0 pictures: 1 to 63, block 0 being 32 and block 5 being 1.
    Pattern,
    /// Table B-10, the magnitude of motion_code: 0 to 16. A sign bit follows where it isn't 0.
    Motion,
    /// Table B-12, dct_dc_size_luminance: 0 to 11.
    DcLuma,
    /// Table B-13, dct_dc_size_chrominance: 0 to 11.
    DcChroma,
    /// Table B-14: `symbol::LEVELS_PER_RUN` times the run, plus the size of the level, whose sign bit follows;
    /// `symbol::END_OF_BLOCK`; and `symbol::ESCAPE`.
    CoeffZero,
    /// Table B-14 for the first coefficient of a non-intra block, which has no end of block and a code of its own for
    /// run 0 with level 1.
    CoeffFirst,
    /// Table B-15, with the symbols of `CoeffZero`.
    CoeffOne,
}
