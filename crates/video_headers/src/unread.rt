//! User data, and extensions that nobody reads (6.2.2.2).
ghost use Rattle.video_headers.specs.Private.Reading.{Answers, AnswersLook, Rests};
ghost use Rattle.video_headers.specs.Private.Unread.{bits_to_byte, passed_bytes, unread_bytes};
ghost use Rattle.video_headers.specs.Private.Wholes.{Wholes};

use crate::fault::HeadFault;
use crate::fields::read_limited;
use crate::stands::{look, pass};
use bit_cursor::BitReader;
use shelf_io::Source;

/// What nobody reads: the bits to a whole byte and the bytes behind them, up to a start code prefix, which is left.
pub fn read_unread<S: Source>(reader: &mut BitReader<'_, S>) -> Result<(), HeadFault>
    ensures { Answers unread_bytes (λ v. v) result (Rests reader.old) (λ _. Wholes reader.new) reader.old reader.new }
{
    let _bits = read_bits_to_byte(reader)?;
    pass_bytes(reader)
}

/// The bits to a whole byte.
fn read_bits_to_byte<S: Source>(reader: &mut BitReader<'_, S>) -> Result<u32, HeadFault>
    ensures { Answers bits_to_byte (λ v. v) result (Rests reader.old) (λ _. Wholes reader.new) reader.old reader.new }
{
    let count = (8 - (reader.place() % 8) as u32) % 8;
    read_limited(reader, count, &[])
}

/// Passes bytes up to a start code prefix.
fn pass_bytes<S: Source>(reader: &mut BitReader<'_, S>) -> Result<(), HeadFault>
    ensures { Answers passed_bytes (λ v. v) result (Wholes reader.old) (λ _. Wholes reader.new) reader.old reader.new }
{
    'bytes: loop {
        let stands = look(reader)?;
        if stands.is_prefix() {
            return Ok(());
        }
        if stands.is_nothing() {
            return Err(HeadFault::End { at: reader.place() });
        }
        pass(reader, 8);
    }
}
