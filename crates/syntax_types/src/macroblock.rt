ghost use Rattle.std.specs.Prelude.{◌≡◌};
ghost use Rattle.syntax_types.specs.EmptyMacroblock.{empty_macroblock};

use crate::block::Block;
use arrayvec::ArrayVec;

/// The blocks of a macroblock in 4:2:0 format: four of luminance, then Cb and Cr (6.1.3.1).
pub const BLOCKS: usize = 6;

/// Field-based prediction: in a frame picture two vectors, each from a field (frame_motion_type, Table 6-17), in a field
/// picture one from a field (field_motion_type, Table 6-18).
pub const FIELD_BASED: u8 = 1;

/// frame_motion_type frame-based prediction: one vector.
pub const FRAME_BASED: u8 = 2;

/// field_motion_type 16x8 motion compensation: a vector for the upper half of the macroblock, and one for the lower.
pub const SIXTEEN_BY_EIGHT: u8 = 2;

/// Dual prime prediction, in frame and field pictures: one vector, with a small difference.
pub const DUAL_PRIME: u8 = 3;

/// The most vectors that a macroblock has in one direction.
pub const VECTORS_MOST: usize = 2;

/// A motion vector as it is coded (6.2.5.2.1). The arrays have the horizontal part, then the vertical one.
#[derive(Clone, Copy, Default)]
pub struct Vector {
    /// motion_vertical_field_select, where it stands.
    pub select: Option<bool>,
    /// motion_code, -16 to 16.
    pub code: [i8; 2],
    /// motion_residual, 0 where none stands.
    pub residual: [u16; 2],
    /// dmvector, -1 to 1, where it stands.
    pub dual: Option<[i8; 2]>,
}

/// The flags of a macroblock_type (Tables B-2 to B-4).
#[derive(Clone, Copy)]
pub struct Kind {
    /// macroblock_quant: a quantiser_scale_code stands.
    pub quant: bool,
    /// macroblock_motion_forward.
    pub forward: bool,
    /// macroblock_motion_backward.
    pub backward: bool,
    /// macroblock_pattern: a coded_block_pattern stands.
    pub pattern: bool,
    /// macroblock_intra.
    pub intra: bool,
}

/// A macroblock that isn't skipped (6.2.5).
#[derive(Drop)]
pub struct Macroblock {
    /// The skipped macroblocks before it in its slice; for the first macroblock of a slice, its column.
    pub skipped_before: u16,
    /// macroblock_type.
    pub kind: Kind,
    /// frame_motion_type in a frame picture (Table 6-17), `FRAME_BASED` where none stands; field_motion_type in a field
    /// picture (Table 6-18), `FIELD_BASED` where none stands.
    pub motion_type: u8,
    /// dct_type: the luminance blocks are those of the two fields. False where none stands, as in field pictures.
    pub field_dct: bool,
    /// quantiser_scale_code, where it stands.
    pub code: Option<u8>,
    /// The forward vectors; for an intra macroblock the concealment vector.
    pub forward: ArrayVec<Vector, VECTORS_MOST>,
    /// The backward vectors.
    pub backward: ArrayVec<Vector, VECTORS_MOST>,
    /// coded_block_pattern, block 0 being 32 and block 5 being 1. 0 for intra, and where none stands.
    pub pattern: u8,
    /// The blocks in their order; those that aren't coded are empty.
    pub blocks: [Block; BLOCKS],
}

impl Macroblock {
    /// A macroblock to be lent: none skipped before it, no vector and no coefficient.
    pub fn empty() -> Macroblock
        ensures { result ≡ empty_macroblock }
    {
        Macroblock {
            skipped_before: 0,
            kind: Kind {
                quant: false,
                forward: false,
                backward: false,
                pattern: false,
                intra: false,
            },
            motion_type: FRAME_BASED,
            field_dct: false,
            code: None,
            forward: ArrayVec::new(),
            backward: ArrayVec::new(),
            pattern: 0,
            blocks: [
                Block::default(),
                Block::default(),
                Block::default(),
                Block::default(),
                Block::default(),
                Block::default(),
            ],
        }
    }
}
