//! How many macroblocks a picture has in a row and in a column (ISO/IEC 13818-2, 6.3.3).
ghost use Rattle.std.specs.Prelude.{◌≡◌, ◌≤◌};
ghost use Rattle.picture_grammar.specs.Picture.{rows as rows_of};
ghost use Rattle.picture_grammar.specs.Slice.{columns as columns_of};

use crate::limits::MACROBLOCK_SIZE;
use syntax_types::{FRAME_PICTURE, PicCoding, SeqState};

/// mb_width.
#[inline]
pub fn columns(seq: &SeqState) -> usize
    ensures value { result ≡ columns_of seq.now }
    ensures few { result ≤ 4096 }
{
    let size = usize::from(MACROBLOCK_SIZE);
    (usize::from(seq.width) + (size - 1)) / size
}

/// mb_height.
#[inline]
pub fn rows(seq: &SeqState, coding: &PicCoding) -> usize
    ensures value { result ≡ rows_of seq.now coding.now }
    ensures few { result ≤ 4098 }
{
    let height = usize::from(seq.height);
    let size = usize::from(MACROBLOCK_SIZE);
    let field = (height + (2 * size - 1)) / (2 * size);
    if coding.structure != FRAME_PICTURE {
        return field;
    }
    if seq.progressive {
        (height + (size - 1)) / size
    } else {
        2 * field
    }
}
