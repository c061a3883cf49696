//! Group of pictures headers (6.2.2.6).
ghost use Rattle.picture_grammar.specs.Headers.{group_header};
ghost use Rattle.video_headers.specs.Private.Reading.{AnswersBits};

use crate::fault::HeadFault;
use crate::fields::{read_bits, read_flag};
use bit_cursor::BitReader;
use shelf_io::Source;

/// broken_link, of a group of pictures header behind its start code. Nothing of it is compared.
pub fn read_group_header<S: Source>(reader: &mut BitReader<'_, S>) -> Result<bool, HeadFault>
    ensures { AnswersBits group_header result reader.old reader.new }
{
    let _time_code = read_bits(reader, 25)?;
    let _closed_gop = read_flag(reader)?;
    let broken_link = read_flag(reader)?;
    Ok(broken_link)
}
