//! Sequence headers and their extension (6.2.2.1, 6.2.2.3).
ghost use Rattle.std.specs.Option.{option_copied};
ghost use Rattle.picture_grammar.specs.Headers.{sequence_header, sequence_extension};
ghost use Rattle.video_headers.specs.Private.Reading.{AnswersBits};

use crate::fault::HeadFault;
use crate::fields::{MARKER, read_bits, read_flag, read_limited, read_limited_flag};
use crate::limit::Limit;
use crate::matrix::{matrix_or, read_matrix};
use crate::repeated::limits_behind;
use crate::why::Why;
use bit_cursor::BitReader;
use picture_grammar::limits::{
    CHROMA_420, HEIGHT_LEAST, HEIGHT_MOST, MAIN_AT_MAIN, RATE_CODE_MOST, WIDTH_LEAST, WIDTH_MOST,
};
use quant_math::default_matrix;
use shelf_io::Source;
use stream_constants::main_level::VBV_MOST;
use syntax_types::SeqState;

const WIDTH: Limit = Limit {
    least: WIDTH_LEAST as u32,
    most: WIDTH_MOST as u32,
    otherwise: Why::Size,
};

const HEIGHT: Limit = Limit {
    least: HEIGHT_LEAST as u32,
    most: HEIGHT_MOST as u32,
    otherwise: Why::Size,
};

const RATE_CODE: Limit = Limit {
    least: 1,
    most: RATE_CODE_MOST as u32,
    otherwise: Why::Size,
};

const VBV: Limit = Limit {
    least: 1,
    most: VBV_MOST as u32,
    otherwise: Why::BadHeader,
};

const PROFILE_AND_LEVEL: Limit = Limit {
    least: MAIN_AT_MAIN as u32,
    most: MAIN_AT_MAIN as u32,
    otherwise: Why::Profile,
};

const CHROMA_FORMAT: Limit = Limit {
    least: CHROMA_420 as u32,
    most: CHROMA_420 as u32,
    otherwise: Why::Profile,
};

const NO_SIZE_EXTENSION: Limit = Limit {
    least: 0,
    most: 0,
    otherwise: Why::Size,
};

const NO_VBV_EXTENSION: Limit = Limit {
    least: 0,
    most: 0,
    otherwise: Why::BadHeader,
};

const NO_LOW_DELAY: Limit = Limit {
    least: 0,
    most: 0,
    otherwise: Why::LowDelay,
};

/// A sequence header behind its start code. The state has its matrices, the default ones where it loads none (6.3.11).
pub fn read_sequence_header<S: Source>(
    reader: &mut BitReader<'_, S>,
    before: Option<&SeqState>,
) -> Result<SeqState, HeadFault>
    ensures { AnswersBits (sequence_header (option_copied before.entry)) result reader.old reader.new }
{
    let repeated = limits_behind(before);
    let width = read_limited(reader, 12, &[WIDTH, repeated.width])?;
    let height = read_limited(reader, 12, &[HEIGHT, repeated.height])?;
    let _aspect_ratio = read_bits(reader, 4)?;
    let rate_code = read_limited(reader, 4, &[RATE_CODE, repeated.rate_code])?;
    let _bit_rate = read_bits(reader, 18)?;
    let _marker = read_limited(reader, 1, &[MARKER])?;
    let vbv = read_limited(reader, 10, &[VBV, repeated.vbv])?;
    let _constrained = read_flag(reader)?;
    let loaded_intra = read_matrix(reader)?;
    let loaded_non_intra = read_matrix(reader)?;
    let default_intra = default_matrix(true);
    let default_non_intra = default_matrix(false);
    let intra = matrix_or(&loaded_intra, default_intra);
    let non_intra = matrix_or(&loaded_non_intra, default_non_intra);
    Ok(SeqState {
        width: width as u16,
        height: height as u16,
        rate_code: rate_code as u8,
        vbv: vbv as u8,
        progressive: false,
        intra,
        non_intra,
    })
}

/// progressive_sequence, of a sequence extension behind its identifier (6.2.2.3).
pub fn read_sequence_extension<S: Source>(
    reader: &mut BitReader<'_, S>,
    before: Option<&SeqState>,
) -> Result<bool, HeadFault>
    ensures { AnswersBits (sequence_extension (option_copied before.entry)) result reader.old reader.new }
{
    let repeated = limits_behind(before);
    let _profile = read_limited(reader, 8, &[PROFILE_AND_LEVEL])?;
    let progressive = read_limited_flag(reader, repeated.progressive)?;
    let _chroma = read_limited(reader, 2, &[CHROMA_FORMAT])?;
    let _width = read_limited(reader, 2, &[NO_SIZE_EXTENSION])?;
    let _height = read_limited(reader, 2, &[NO_SIZE_EXTENSION])?;
    let _bit_rate = read_bits(reader, 12)?;
    let _marker = read_limited(reader, 1, &[MARKER])?;
    let _vbv = read_limited(reader, 8, &[NO_VBV_EXTENSION])?;
    let _low_delay = read_limited_flag(reader, NO_LOW_DELAY)?;
    let _rate_n = read_bits(reader, 2)?;
    let _rate_d = read_bits(reader, 5)?;
    Ok(progressive)
}
