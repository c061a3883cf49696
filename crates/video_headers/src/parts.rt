//! The three parts of a head (6.2.2).
ghost use Rattle.std.specs.Prelude.{Some};
ghost use Rattle.std.specs.Option.{option_copied};
ghost use Rattle.picture_grammar.specs.Head.{sequence_headers, sequence_part, group_part, picture_part};
ghost use Rattle.video_headers.specs.Private.NextCode.{NextRests};
ghost use Rattle.video_headers.specs.Private.Reading.{Answers, AnswersUnit};

use crate::code::{NextCode, read_next_code};
use crate::extensions::{Behind, read_extensions};
use crate::fault::HeadFault;
use crate::fields::read_limited;
use crate::group::read_group_header;
use crate::limit::Limit;
use crate::part::Part;
use crate::picture::{read_picture_coding_extension, read_picture_header};
use crate::sequence::{read_sequence_extension, read_sequence_header};
use crate::why::Why;
use crate::zeros::read_zero_bits;
use bit_cursor::BitReader;
use shelf_io::Source;
use stream_constants::start_codes::{
    EXTENSION, GROUP, PICTURE, PICTURE_CODING, SEQUENCE_EXTENSION, SEQUENCE_HEADER,
};
use syntax_types::{PicCoding, SeqState};

const SEQUENCE_EXTENSION_ALONE: Limit = Limit {
    least: SEQUENCE_EXTENSION as u32,
    most: SEQUENCE_EXTENSION as u32,
    otherwise: Why::NotMpeg2,
};

const PICTURE_CODING_ALONE: Limit = Limit {
    least: PICTURE_CODING as u32,
    most: PICTURE_CODING as u32,
    otherwise: Why::NotMpeg2,
};

/// The state in force before a picture: that of a sequence header, or the one before where none comes.
pub fn read_sequence_part<S: Source>(
    reader: &mut BitReader<'_, S>,
    before: Option<&SeqState>,
    next: NextCode,
) -> Result<Behind, HeadFault>
    ensures { Answers (sequence_part (option_copied before.entry)) (λ behind. behind.seq) result (NextRests next reader.old) (λ behind. NextRests behind.next reader.new) reader.old reader.new }
{
    match before {
        None => read_sequence_headers(reader, None, next),
        Some(seq) => read_later_sequence_part(reader, seq, next),
    }
}

/// The same behind a state.
fn read_later_sequence_part<S: Source>(
    reader: &mut BitReader<'_, S>,
    before: &SeqState,
    next: NextCode,
) -> Result<Behind, HeadFault>
    ensures { Answers (sequence_part (Some before.now)) (λ behind. behind.seq) result (NextRests next reader.old) (λ behind. NextRests behind.next reader.new) reader.old reader.new }
{
    let has_header = next.is(SEQUENCE_HEADER);
    if !has_header {
        return Ok(Behind { seq: *before, next });
    }
    read_sequence_headers(reader, Some(before), next)
}

/// A sequence header, its extension, and what may stand behind them.
fn read_sequence_headers<S: Source>(
    reader: &mut BitReader<'_, S>,
    before: Option<&SeqState>,
    next: NextCode,
) -> Result<Behind, HeadFault>
    ensures { Answers (sequence_headers (option_copied before.entry)) (λ behind. behind.seq) result (NextRests next reader.old) (λ behind. NextRests behind.next reader.new) reader.old reader.new }
{
    let has_header = next.is(SEQUENCE_HEADER);
    if !has_header {
        let no_header = next.refusal(Why::BadHeader);
        return Err(no_header);
    }
    let header = read_sequence_header(reader, before)?;
    let _zeros = read_zero_bits(reader)?;
    let code = read_next_code(reader)?;
    let has_extension = code.is(EXTENSION);
    if !has_extension {
        let no_extension = code.refusal(Why::NotMpeg2);
        return Err(no_extension);
    }
    let _identifier = read_limited(reader, 4, &[SEQUENCE_EXTENSION_ALONE])?;
    let progressive = read_sequence_extension(reader, before)?;
    let _more_zeros = read_zero_bits(reader)?;
    let intra = header.intra;
    let non_intra = header.non_intra;
    let seq = SeqState {
        width: header.width,
        height: header.height,
        rate_code: header.rate_code,
        vbv: header.vbv,
        progressive,
        intra,
        non_intra,
    };
    let behind = read_extensions(reader, Part::Sequence, seq)?;
    Ok(Behind {
        seq,
        next: behind.next,
    })
}

/// A group of pictures header and user data, where such a header comes. The state isn't changed by them.
pub fn read_group_part<S: Source>(
    reader: &mut BitReader<'_, S>,
    seq: SeqState,
    next: NextCode,
) -> Result<NextCode, HeadFault>
    ensures { AnswersUnit group_part result (NextRests next reader.old) (λ next. NextRests next reader.new) reader.old reader.new }
{
    let has_group = next.is(GROUP);
    if !has_group {
        return Ok(next);
    }
    let _broken = read_group_header(reader)?;
    let _zeros = read_zero_bits(reader)?;
    let behind = read_extensions(reader, Part::Group, seq)?;
    Ok(behind.next)
}

/// How a picture is coded, with the state that its extensions leave, and what comes behind them.
#[derive(Clone, Copy)]
pub struct PictureBehind {
    pub seq: SeqState,
    pub coding: PicCoding,
    pub next: NextCode,
}

/// A picture header, its extension, and what may stand behind them.
pub fn read_picture_part<S: Source>(
    reader: &mut BitReader<'_, S>,
    seq: SeqState,
    next: NextCode,
) -> Result<PictureBehind, HeadFault>
    ensures { Answers (picture_part seq) (λ behind. (behind.seq, behind.coding)) result (NextRests next reader.old) (λ behind. NextRests behind.next reader.new) reader.old reader.new }
{
    let has_header = next.is(PICTURE);
    if !has_header {
        let no_header = next.refusal(Why::BadHeader);
        return Err(no_header);
    }
    let header = read_picture_header(reader)?;
    let _zeros = read_zero_bits(reader)?;
    let code = read_next_code(reader)?;
    let has_extension = code.is(EXTENSION);
    if !has_extension {
        let no_extension = code.refusal(Why::NotMpeg2);
        return Err(no_extension);
    }
    let _identifier = read_limited(reader, 4, &[PICTURE_CODING_ALONE])?;
    let coding = read_picture_coding_extension(reader, seq.progressive, header)?;
    let _more_zeros = read_zero_bits(reader)?;
    let behind = read_extensions(reader, Part::Picture, seq)?;
    Ok(PictureBehind {
        seq: behind.seq,
        coding,
        next: behind.next,
    })
}
