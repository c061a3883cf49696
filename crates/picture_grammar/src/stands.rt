//! What stands in a macroblock, by its picture and its type (6.2.5).
ghost use Rattle.std.specs.Prelude.{◌≡◌, ◌<◌, IsTrue};
ghost use Rattle.prefix_codes.specs.TableName.{is_sizes};
ghost use Rattle.picture_grammar.specs.Block.{dc_table};
ghost use Rattle.picture_grammar.specs.Macroblock.{is_frame as is_frame_picture, has_motion_type as motion_type_stands, has_dct_type as dct_type_stands, has_concealment as concealment_stands, is_coded as is_block_coded, block_way as way_of_block, type_table as table_of_types};

use prefix_codes::TableName;
use syntax_types::{BLOCKS, BlockWay, FRAME_PICTURE, I_PICTURE, Kind, P_PICTURE, PicCoding};

/// The blocks of luminance stand before those of chrominance (6.1.3.1).
const LUMINANCE_BLOCKS: usize = 4;

/// The picture is a frame, and no field.
pub fn is_frame(coding: &PicCoding) -> bool
    ensures { result ≡ is_frame_picture coding.now }
{
    coding.structure == FRAME_PICTURE
}

/// The table of macroblock_type: B-2, B-3 or B-4 by picture_coding_type.
pub fn type_table(coding: &PicCoding) -> TableName
    ensures { result ≡ table_of_types coding.now }
{
    if coding.kind == I_PICTURE {
        TableName::TypeI
    } else if coding.kind == P_PICTURE {
        TableName::TypeP
    } else {
        TableName::TypeB
    }
}

/// The table of the DC coefficient's size (7.2.1).
#[inline]
pub fn size_table(way: BlockWay) -> TableName
    ensures table { result ≡ dc_table way.luma }
    ensures sizes { IsTrue (is_sizes result) }
{
    if way.luma {
        TableName::DcLuma
    } else {
        TableName::DcChroma
    }
}

/// frame_motion_type or field_motion_type stands (6.2.5.1).
pub fn has_motion_type(coding: &PicCoding, kind: Kind) -> bool
    ensures { result ≡ motion_type_stands coding.now kind }
{
    (kind.forward || kind.backward) && !(is_frame(coding) && coding.frame_pred_frame_dct)
}

/// dct_type stands (6.2.5.1).
pub fn has_dct_type(coding: &PicCoding, kind: Kind) -> bool
    ensures { result ≡ dct_type_stands coding.now kind }
{
    is_frame(coding) && !coding.frame_pred_frame_dct && (kind.intra || kind.pattern)
}

/// A concealment vector stands, and a marker bit behind it (6.2.5).
pub fn has_concealment(coding: &PicCoding, kind: Kind) -> bool
    ensures { result ≡ concealment_stands coding.now kind }
{
    kind.intra && coding.concealment
}

/// A block is coded: each of an intra macroblock, and otherwise those whose bit of the pattern is set (6.3.17.4).
pub fn is_coded(kind: Kind, pattern: u8, i: usize) -> bool
    requires { i < BLOCKS }
    ensures { result ≡ is_block_coded kind pattern i }
{
    kind.intra || (pattern >> (BLOCKS - 1 - i)) % 2 == 1
}

/// How a block of a macroblock is coded (7.2).
pub fn block_way(coding: &PicCoding, kind: Kind, i: usize) -> BlockWay
    ensures { result ≡ way_of_block coding.now kind i }
{
    BlockWay {
        intra: kind.intra,
        luma: i < LUMINANCE_BLOCKS,
        vlc_one: coding.intra_vlc_format,
    }
}
