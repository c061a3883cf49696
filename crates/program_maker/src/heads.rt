//! What stands before the slices of a picture (ISO/IEC 13818-2, 6.2.2 and 6.2.3).
ghost use Rattle.std.specs.Prelude.{◌≡◌, ◌<◌, ◌++◌, true, OnOk};
ghost use Rattle.shelf_io.specs.Sink.{with_bytes};
ghost use Rattle.program_maker.specs.Heads.{both, coding_of, is_predicted as is_predicted_by, head_of, generated_picture_header, generated_picture_coding_extension};

use crate::format::GROUP_PICTURES;
use shelf_io::{Fault, Sink, put_all};
use syntax_types::{FRAME_PICTURE, I_PICTURE, P_PICTURE, PicCoding};

/// sequence_header(), sequence_extension(), group_of_pictures_header(), picture_header() and picture_coding_extension() of
/// an I-picture.
const I_HEAD: [u8; 47] = [
    0x00, 0x00, 0x01, 0xB3, 0x16, 0x01, 0x20, 0x23, 0x24, 0x9F, 0x23, 0x80, //
    0x00, 0x00, 0x01, 0xB5, 0x14, 0x8A, 0x00, 0x01, 0x00, 0x00, //
    0x00, 0x00, 0x01, 0xB8, 0x00, 0x08, 0x00, 0x40, //
    0x00, 0x00, 0x01, 0x00, 0x00, 0x0F, 0xFF, 0xF8, //
    0x00, 0x00, 0x01, 0xB5, 0x8F, 0xFF, 0xF3, 0x41, 0x80,
];

/// Picture k is a P-picture.
pub fn is_predicted(k: u32) -> bool
    ensures { result ≡ is_predicted_by k }
{
    k % GROUP_PICTURES != 0
}

/// How P-pictures are coded, or I-pictures.
pub fn coding(predicted: bool) -> PicCoding
    ensures { result ≡ coding_of predicted }
{
    PicCoding {
        kind: if predicted { P_PICTURE } else { I_PICTURE },
        vbv_delay: 0xFFFF,
        f_code: [[if predicted { 1 } else { 15 }; 2], [15; 2]],
        dc_precision: 0,
        structure: FRAME_PICTURE,
        top_field_first: false,
        frame_pred_frame_dct: true,
        concealment: false,
        q_scale_type: false,
        intra_vlc_format: false,
        alternate_scan: false,
        repeat_first_field: false,
        progressive_frame: true,
    }
}

/// Writes the head of picture k. A fault is the sink's own.
pub fn write_head<K: Sink>(to: &mut K, k: u32) -> Result<(), Fault>
    ensures { OnOk result (K.written to.new ≡ with_bytes (K.written to.old) (head_of k)) }
{
    let reference = (k % GROUP_PICTURES) as u8;
    if reference == 0 {
        put_all(to, &I_HEAD)
    } else {
        put_all(to, &p_head(reference))
    }
}

// picture_header() and picture_coding_extension() of a P-picture.
fn p_head(reference: u8) -> [u8; 18]
    requires { reference < GROUP_PICTURES }
    ensures { result ≡ generated_picture_header true reference ++ generated_picture_coding_extension (coding_of true) }
{
    [
        0x00,
        0x00,
        0x01,
        0x00,
        reference / 4,
        reference % 4 * 64 + 0x17,
        0xFF,
        0xFB,
        0x80,
        0x00,
        0x00,
        0x01,
        0xB5,
        0x81,
        0x1F,
        0xF3,
        0x41,
        0x80,
    ]
}
