//! Zero bits to a whole byte (5.2.3).
ghost use Rattle.picture_grammar.specs.Refusal.Refusal.{BadHeader};
ghost use Rattle.picture_grammar.specs.StartCode.{zero_bits};
ghost use Rattle.video_headers.specs.Private.Reading.{Answers, Rests};
ghost use Rattle.video_headers.specs.Private.Wholes.{Wholes};

use crate::fault::HeadFault;
use crate::fields::read_limited;
use crate::limit::Limit;
use crate::why::Why;
use bit_cursor::BitReader;
use shelf_io::Source;

const ZERO: Limit = Limit {
    least: 0,
    most: 0,
    otherwise: Why::BadHeader,
};

/// Zero bits to a whole byte, behind a header.
pub fn read_zero_bits<S: Source>(reader: &mut BitReader<'_, S>) -> Result<u32, HeadFault>
    ensures { Answers (zero_bits BadHeader) (λ v. v) result (Rests reader.old) (λ _. Wholes reader.new) reader.old reader.new }
{
    let count = (8 - (reader.place() % 8) as u32) % 8;
    read_limited(reader, count, &[ZERO])
}
