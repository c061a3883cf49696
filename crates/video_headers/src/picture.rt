//! Picture headers and their extension (6.2.3, 6.2.3.1).
ghost use Rattle.std.specs.Prelude.{◌≡◌, ◌≤◌, ◌==◌, ◌&&◌, ◌||◌, []};
ghost use Rattle.picture_grammar.specs.Grammar.{optional};
ghost use Rattle.picture_grammar.specs.Element.{uimsbf};
ghost use Rattle.video_headers.specs.Private.Information.{information_bytes};
ghost use Rattle.picture_grammar.specs.Headers.{is_f_code, old_f_code, picture_header, picture_coding_extension};
ghost use Rattle.bit_lists.specs.Fields.{flag};
ghost use Rattle.video_headers.specs.Private.Limits.{limit, IsFCodeLimit, IsStructureLimit};
ghost use Rattle.video_headers.specs.Private.Reading.{Answers, AnswersBits, Rests};

use crate::fault::HeadFault;
use crate::fields::{read_bits, read_flag, read_limited, read_limited_flag};
use crate::limit::Limit;
use crate::why::Why;
use bit_cursor::BitReader;
use picture_grammar::limits::F_CODE_MOST;
use shelf_io::Source;
use syntax_types::{B_PICTURE, FRAME_PICTURE, I_PICTURE, P_PICTURE, PicCoding};

const KIND: Limit = Limit {
    least: I_PICTURE as u32,
    most: B_PICTURE as u32,
    otherwise: Why::BadHeader,
};

const STRUCTURE: Limit = Limit {
    least: 1,
    most: FRAME_PICTURE as u32,
    otherwise: Why::BadHeader,
};

const F_CODE: Limit = Limit {
    least: 1,
    most: F_CODE_MOST as u32,
    otherwise: Why::BadHeader,
};

const ANY_F_CODE: Limit = Limit {
    least: 0,
    most: 15,
    otherwise: Why::BadHeader,
};

/// What a picture header says, as far as it is used.
#[derive(Clone, Copy)]
pub struct PictureHeader {
    /// picture_coding_type.
    pub kind: u8,
    /// vbv_delay, in units of 1/90,000 s.
    pub vbv_delay: u16,
}

/// A picture header behind its start code.
pub fn read_picture_header<S: Source>(
    reader: &mut BitReader<'_, S>,
) -> Result<PictureHeader, HeadFault>
    ensures { Answers picture_header (λ h. (h.kind, h.vbv_delay)) result (Rests reader.old) (λ _. Rests reader.new) reader.old reader.new }
{
    let _reference = read_bits(reader, 10)?;
    let number = read_limited(reader, 3, &[KIND])?;
    let vbv_delay = read_bits(reader, 16)?;
    let kind = number as u8;
    let _forward = read_forward_f_code(reader, kind)?;
    let _backward = read_optional_f_code(reader, kind == B_PICTURE)?;
    let _extra = read_extra_information(reader)?;
    Ok(PictureHeader {
        kind,
        vbv_delay: vbv_delay as u16,
    })
}

/// Whether a picture of this type has forward vectors of its own.
fn has_forward(kind: u8) -> bool
    ensures { result ≡ (kind == P_PICTURE || kind == B_PICTURE) }
{
    kind == P_PICTURE || kind == B_PICTURE
}

/// The forward full-pel flag and f_code of MPEG-1, in a picture of this type.
fn read_forward_f_code<S: Source>(
    reader: &mut BitReader<'_, S>,
    kind: u8,
) -> Result<Option<u32>, HeadFault>
    ensures { AnswersBits (optional (kind == P_PICTURE || kind == B_PICTURE) old_f_code) result reader.old reader.new }
{
    read_optional_f_code(reader, has_forward(kind))
}

/// The full-pel flag and f_code of MPEG-1, which aren't used, where they stand.
fn read_optional_f_code<S: Source>(
    reader: &mut BitReader<'_, S>,
    stands: bool,
) -> Result<Option<u32>, HeadFault>
    ensures { AnswersBits (optional stands old_f_code) result reader.old reader.new }
{
    if !stands {
        return Ok(None);
    }
    let code = read_old_f_code(reader)?;
    Ok(Some(code))
}

/// The same, where they do.
fn read_old_f_code<S: Source>(reader: &mut BitReader<'_, S>) -> Result<u32, HeadFault>
    ensures { AnswersBits old_f_code result reader.old reader.new }
{
    let _full_pel = read_flag(reader)?;
    let code = read_bits(reader, 3)?;
    Ok(code)
}

/// So many bits, where they stand.
fn read_optional_bits<S: Source>(
    reader: &mut BitReader<'_, S>,
    stands: bool,
    n: u32,
) -> Result<Option<u32>, HeadFault>
    requires { n ≤ 32 }
    ensures { AnswersBits (optional stands (uimsbf n [])) result reader.old reader.new }
{
    if !stands {
        return Ok(None);
    }
    let number = read_bits(reader, n)?;
    Ok(Some(number))
}

/// The bytes of extra_information_picture, which nobody reads, and the bit 0 behind them.
fn read_extra_information<S: Source>(reader: &mut BitReader<'_, S>) -> Result<(), HeadFault>
    ensures { AnswersBits information_bytes result reader.old reader.new }
{
    'bytes: loop {
        let another = read_flag(reader)?;
        if !another {
            return Ok(());
        }
        let _byte = read_bits(reader, 8)?;
    }
}

/// A picture coding extension behind its identifier, by progressive_sequence and the picture header.
pub fn read_picture_coding_extension<S: Source>(
    reader: &mut BitReader<'_, S>,
    progressive: bool,
    header: PictureHeader,
) -> Result<PicCoding, HeadFault>
    ensures { AnswersBits (picture_coding_extension progressive header.kind header.vbv_delay) result reader.old reader.new }
{
    let forward = forward_limit(header.kind);
    let backward = backward_limit(header.kind);
    let f_00 = read_limited(reader, 4, &[forward])?;
    let f_01 = read_limited(reader, 4, &[forward])?;
    let f_10 = read_limited(reader, 4, &[backward])?;
    let f_11 = read_limited(reader, 4, &[backward])?;
    let dc_precision = read_bits(reader, 2)?;
    let by_sequence = structure_limit(progressive);
    let structure = read_limited(reader, 2, &[STRUCTURE, by_sequence])?;
    let top_field_first = read_flag(reader)?;
    let frame = frame_limit(structure);
    let frame_pred_frame_dct = read_limited_flag(reader, frame)?;
    let vectors = concealment_limit(f_00, f_01);
    let concealment = read_limited_flag(reader, vectors)?;
    let q_scale_type = read_flag(reader)?;
    let intra_vlc_format = read_flag(reader)?;
    let alternate_scan = read_flag(reader)?;
    let repeat_first_field = read_flag(reader)?;
    let _chroma_420_type = read_flag(reader)?;
    let progressive_frame = read_flag(reader)?;
    let composite = read_flag(reader)?;
    let _composite = read_optional_bits(reader, composite, 20)?;
    Ok(PicCoding {
        kind: header.kind,
        vbv_delay: header.vbv_delay,
        f_code: [[f_00 as u8, f_01 as u8], [f_10 as u8, f_11 as u8]],
        dc_precision: dc_precision as u8,
        structure: structure as u8,
        top_field_first,
        frame_pred_frame_dct,
        concealment,
        q_scale_type,
        intra_vlc_format,
        alternate_scan,
        repeat_first_field,
        progressive_frame,
    })
}

/// The limit of a forward f_code: one that a P- or a B-picture needs counts, from 1 to 9 (Table 7-8).
fn forward_limit(kind: u8) -> Limit
    ensures { IsFCodeLimit (kind == P_PICTURE || kind == B_PICTURE) result }
{
    if has_forward(kind) {
        F_CODE
    } else {
        ANY_F_CODE
    }
}

/// The limit of a backward f_code, which a B-picture needs.
fn backward_limit(kind: u8) -> Limit
    ensures { IsFCodeLimit (kind == B_PICTURE) result }
{
    if kind == B_PICTURE {
        F_CODE
    } else {
        ANY_F_CODE
    }
}

/// A progressive sequence has frame pictures alone (6.3.10).
fn structure_limit(progressive: bool) -> Limit
    ensures { IsStructureLimit progressive result }
{
    Limit {
        least: if progressive {
            u32::from(FRAME_PICTURE)
        } else {
            0
        },
        most: 3,
        otherwise: Why::BadHeader,
    }
}

/// frame_pred_frame_dct may be set in a frame picture alone.
fn frame_limit(structure: u32) -> Limit
    ensures { result ≡ limit 0 (flag (structure == FRAME_PICTURE)) Why.BadHeader }
{
    Limit {
        least: 0,
        most: u32::from(structure == u32::from(FRAME_PICTURE)),
        otherwise: Why::BadHeader,
    }
}

/// Concealment vectors need forward f_codes that count.
fn concealment_limit(horizontal: u32, vertical: u32) -> Limit
    ensures { result ≡ limit 0 (flag (is_f_code horizontal && is_f_code vertical)) Why.BadHeader }
{
    let both = is_f_code(horizontal) && is_f_code(vertical);
    Limit {
        least: 0,
        most: u32::from(both),
        otherwise: Why::BadHeader,
    }
}

/// Whether an f_code counts.
fn is_f_code(number: u32) -> bool
    ensures { result ≡ is_f_code number }
{
    1 <= number && number <= u32::from(F_CODE_MOST)
}
