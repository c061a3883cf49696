//! A slice of the file, and how its picture is coded.
ghost use Rattle.std.specs.Prelude.{◌≤◌, ◌^◌, ◌≡◌, length, IfSome};
ghost use Rattle.std.specs.List.{AllByRecursion};
ghost use Rattle.picture_grammar.specs.Picture.{IsCoding, IsFCode};
ghost use Rattle.requantiser.specs.Levels.{HasWeights};

use picture_grammar::limits::F_CODE_MOST;
use quant_math::default_matrix;
use syntax_types::{B_PICTURE, FRAME_PICTURE, I_PICTURE, PicCoding, SeqState, TOP_FIELD};

/// The bytes that say how long a slice is.
const LENGTH_BYTES: usize = 4;

/// The bytes before a slice.
const HEAD_BYTES: usize = 11;

/// A slice, from behind its start code on.
#[derive(Clone, Copy)]
pub struct CodedSlice<'a> {
    /// The head that says how its picture is coded.
    pub head: &'a [u8],
    pub bytes: &'a [u8],
}

/// The first slice of these bytes, and the bytes behind it.
pub fn first_slice(bytes: &[u8]) -> Option<(CodedSlice<'_>, &[u8])>
    ensures bytes { IfSome result (λ found. length found.0.bytes.now ≤ length bytes.now) }
    ensures head { IfSome result (λ found. length found.0.head.now ≡ HEAD_BYTES) }
    ensures rest { IfSome result (λ found. length found.1.now ≤ length bytes.now) }
{
    if bytes.len() < HEAD_BYTES {
        return None;
    }
    let (head, behind) = bytes.split_at(HEAD_BYTES);
    let count = number(&head[..LENGTH_BYTES]) as usize;
    if behind.len() < count {
        return None;
    }
    let (bytes, rest) = behind.split_at(count);
    Some((CodedSlice { head, bytes }, rest))
}

/// Bytes as a number, the most significant first.
fn number(bytes: &[u8]) -> u32 {
    let mut number: u32 = 0;
    for byte in bytes {
        number = number << 8 | u32::from(*byte);
    }
    number
}

/// The sequence that a head speaks of, with the matrices that a sequence header loads none for.
pub fn sequence(head: &[u8]) -> SeqState
    requires { length head.now ≡ HEAD_BYTES }
    ensures { HasWeights result }
{
    SeqState {
        width: u16::from(head[9]) << 8 | u16::from(head[10]),
        height: 0,
        rate_code: 0,
        vbv: 0,
        progressive: false,
        intra: default_matrix(true),
        non_intra: default_matrix(false),
    }
}

/// How the picture that a head speaks of is coded. Numbers that no picture has are held within the limits.
pub fn coding(head: &[u8]) -> PicCoding
    requires { length head.now ≡ HEAD_BYTES }
    ensures { IsCoding result }
{
    let structure = head[7].clamp(TOP_FIELD, FRAME_PICTURE);
    let flags = head[8];
    PicCoding {
        kind: head[4].clamp(I_PICTURE, B_PICTURE),
        vbv_delay: 0,
        f_code: [f_codes(head[5]), f_codes(head[6])],
        dc_precision: 0,
        structure,
        top_field_first: false,
        frame_pred_frame_dct: flag(flags, 0) && structure == FRAME_PICTURE,
        concealment: flag(flags, 1),
        q_scale_type: flag(flags, 2),
        intra_vlc_format: flag(flags, 3),
        alternate_scan: flag(flags, 4),
        repeat_first_field: false,
        progressive_frame: false,
    }
}

/// A flag of a byte.
fn flag(flags: u8, index: u32) -> bool
    requires { index ≤ 7 }
{
    flags >> index & 1 == 1
}

/// The f_codes of a direction, of which a picture may have none that counts.
fn f_codes(byte: u8) -> [u8; 2]
    ensures { (length result ≡ 2) × AllByRecursion IsFCode result }
{
    [
        (byte >> 4).clamp(1, F_CODE_MOST),
        (byte & 15).clamp(1, F_CODE_MOST),
    ]
}
