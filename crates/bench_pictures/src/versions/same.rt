//! Whether two pictures are the same tree, part by part.

use syntax_types::{
    Block, Kind, Macroblock, PicCoding, Picture, SeqState, Slice, SliceInfo, Vector,
};

/// Whether two pictures are the same tree.
pub fn same_picture(one: &Picture, other: &Picture) -> bool {
    same_state(&one.seq, &other.seq)
        && same_coding(&one.coding, &other.coding)
        && one.head.as_slice() == other.head.as_slice()
        && same_slices(one.slices.as_slice(), other.slices.as_slice())
        && one.sequence_end == other.sequence_end
}

fn same_state(one: &SeqState, other: &SeqState) -> bool {
    one.width == other.width
        && one.height == other.height
        && one.rate_code == other.rate_code
        && one.vbv == other.vbv
        && one.progressive == other.progressive
        && one.intra == other.intra
        && one.non_intra == other.non_intra
}

fn same_coding(one: &PicCoding, other: &PicCoding) -> bool {
    one.kind == other.kind
        && one.vbv_delay == other.vbv_delay
        && one.f_code == other.f_code
        && one.dc_precision == other.dc_precision
        && one.structure == other.structure
        && one.top_field_first == other.top_field_first
        && same_flags(one, other)
}

/// The flags of the picture coding extension behind top_field_first.
fn same_flags(one: &PicCoding, other: &PicCoding) -> bool {
    one.frame_pred_frame_dct == other.frame_pred_frame_dct
        && one.concealment == other.concealment
        && one.q_scale_type == other.q_scale_type
        && one.intra_vlc_format == other.intra_vlc_format
        && one.alternate_scan == other.alternate_scan
        && one.repeat_first_field == other.repeat_first_field
        && one.progressive_frame == other.progressive_frame
}

fn same_slices(one: &[Slice], other: &[Slice]) -> bool {
    if one.len() != other.len() {
        return false;
    }
    for (slice, twin) in one.iter().zip(other) {
        if !same_slice(slice, twin) {
            return false;
        }
    }
    true
}

fn same_slice(one: &Slice, other: &Slice) -> bool {
    one.row == other.row
        && one.code == other.code
        && same_information(one.info.as_ref(), other.info.as_ref())
        && same_macroblocks(one.macroblocks.as_slice(), other.macroblocks.as_slice())
}

fn same_information(one: Option<&SliceInfo>, other: Option<&SliceInfo>) -> bool {
    match (one, other) {
        (Some(info), Some(twin)) => {
            info.intra_slice == twin.intra_slice
                && info.reserved == twin.reserved
                && info.bytes.as_slice() == twin.bytes.as_slice()
        }
        (None, None) => true,
        _ => false,
    }
}

fn same_macroblocks(one: &[Macroblock], other: &[Macroblock]) -> bool {
    if one.len() != other.len() {
        return false;
    }
    for (macroblock, twin) in one.iter().zip(other) {
        if !same_macroblock(macroblock, twin) {
            return false;
        }
    }
    true
}

fn same_macroblock(one: &Macroblock, other: &Macroblock) -> bool {
    one.skipped_before == other.skipped_before
        && same_kind(one.kind, other.kind)
        && one.motion_type == other.motion_type
        && one.field_dct == other.field_dct
        && one.code == other.code
        && same_vectors(one.forward.as_slice(), other.forward.as_slice())
        && same_vectors(one.backward.as_slice(), other.backward.as_slice())
        && one.pattern == other.pattern
        && same_blocks(&one.blocks, &other.blocks)
}

fn same_kind(one: Kind, other: Kind) -> bool {
    one.quant == other.quant
        && one.forward == other.forward
        && one.backward == other.backward
        && one.pattern == other.pattern
        && one.intra == other.intra
}

fn same_vectors(one: &[Vector], other: &[Vector]) -> bool {
    if one.len() != other.len() {
        return false;
    }
    for (vector, twin) in one.iter().zip(other) {
        if !same_vector(*vector, *twin) {
            return false;
        }
    }
    true
}

fn same_vector(one: Vector, other: Vector) -> bool {
    one.select == other.select
        && one.code == other.code
        && one.residual == other.residual
        && one.dual == other.dual
}

fn same_blocks(one: &[Block], other: &[Block]) -> bool {
    if one.len() != other.len() {
        return false;
    }
    for (block, twin) in one.iter().zip(other) {
        if block.dc != twin.dc || block.pairs.as_slice() != twin.pairs.as_slice() {
            return false;
        }
    }
    true
}
