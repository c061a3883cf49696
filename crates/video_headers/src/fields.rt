ghost use Rattle.std.specs.Prelude.{◌≡◌, ◌+◌, ◌^◌, ◌<◌, ◌≤◌, [], ◌∷◌, List, ℕ, Bool, None, IfOk};
ghost use Rattle.bit_cursor.specs.BitReader.{place};
ghost use Rattle.picture_grammar.specs.Element.{Rule, uimsbf, flag_where};
ghost use Rattle.video_headers.specs.Private.Limits.{first_broken, AreRules, IsFlagRule};
ghost use Rattle.video_headers.specs.Private.Reading.{AnswersBits};

use crate::fault::HeadFault;
use crate::limit::{Limit, first_broken};
use crate::why::Why;
use bit_cursor::{BitFault, BitReader};
use shelf_io::Source;

/// The next n bits as a number, n at most 32.
pub fn read_bits<S: Source>(reader: &mut BitReader<'_, S>, n: u32) -> Result<u32, HeadFault>
    requires { n ≤ 32 }
    ensures answers { AnswersBits (uimsbf n []) result reader.old reader.new }
    ensures moved { IfOk result (λ _. place reader.new ≡ place reader.old + n) }
    ensures below { IfOk result (λ number. number < 2 ^ n) }
{
    let at = reader.place();
    match reader.bits(n) {
        Ok(number) => Ok(number),
        Err(BitFault::End) => Err(HeadFault::End { at }),
        Err(BitFault::Outside(fault)) => Err(HeadFault::Outside(fault)),
    }
}

/// The next n bits as a number that keeps the limits, n at most 24. Where it keeps none, or the bits end within it and no
/// number that begins so keeps them, the answer is the first limit that is broken.
pub fn read_limited<S: Source>(
    reader: &mut BitReader<'_, S>,
    n: u32,
    limits: &[Limit],
) -> Result<u32, HeadFault>
    requires { n ≤ 24 }
    ensures answers { (rules : List (Rule ℕ)) → AreRules n limits.now rules → AnswersBits (uimsbf n rules) result reader.old reader.new }
    ensures below { IfOk result (λ number. number < 2 ^ n) }
    ensures kept { IfOk result (λ number. first_broken number number limits.now ≡ None) }
{
    let at = reader.place();
    let (number, known) = reader.peek(n)?;
    let last = number + ((1 << (n - known)) - 1);
    if let Some(why) = first_broken(number, last, limits) {
        return Err(why.at(at));
    }
    if known < n {
        return Err(HeadFault::End { at });
    }
    reader.skip(n);
    Ok(number)
}

/// The next bit as a flag.
pub fn read_flag<S: Source>(reader: &mut BitReader<'_, S>) -> Result<bool, HeadFault>
    ensures { AnswersBits (flag_where []) result reader.old reader.new }
{
    let bit = read_limited(reader, 1, &[])?;
    Ok(bit == 1)
}

/// The next bit as a flag that keeps a limit of its bit.
pub fn read_limited_flag<S: Source>(
    reader: &mut BitReader<'_, S>,
    limit: Limit,
) -> Result<bool, HeadFault>
    ensures { (r : Rule Bool) → IsFlagRule limit r → AnswersBits (flag_where (r ∷ [])) result reader.old reader.new }
{
    let bit = read_limited(reader, 1, &[limit])?;
    Ok(bit == 1)
}

/// marker_bit, which is 1 (6.3.3).
pub const MARKER: Limit = Limit {
    least: 1,
    most: 1,
    otherwise: Why::BadHeader,
};
