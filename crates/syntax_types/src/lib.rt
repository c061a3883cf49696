//! The syntax of a coded picture as a tree: what the elements of ISO/IEC 13818-2, 6.2 stand for, in plain types.
//!
//! Nothing is decoded here: vectors stay codes, coefficients stay runs and levels. Which trees are lawful, and which
//! bits spell them, is said by `picture_grammar`. Stands on `list_types`.
#![tactic(auto)]

mod block;
mod macroblock;
mod picture;
mod slice;

pub use block::{BLOCK_PLACES, Block, BlockWay, Dc, RunLevel};
pub use list_types::{ListOf, OutOfMemory};
pub use macroblock::{
    BLOCKS, DUAL_PRIME, FIELD_BASED, FRAME_BASED, Kind, Macroblock, SIXTEEN_BY_EIGHT, VECTORS_MOST,
    Vector,
};
pub use picture::{
    B_PICTURE, BOTTOM_FIELD, FRAME_PICTURE, I_PICTURE, P_PICTURE, PicCoding, Picture,
    PictureParameters, SeqState, TOP_FIELD,
};
pub use slice::{Slice, SliceInfo};
