//! What stands next where zero bytes or a start code may stand (5.2.3).
ghost use Rattle.std.specs.Prelude.{◌≡◌, ◌≤◌, ◌%◌, ◌^◌, ◌<◌, ◌+◌, ℕ, List, length, drop, IfOk};
ghost use Rattle.bit_cursor.specs.Shown.{IsWindow};
ghost use Rattle.bit_cursor.specs.BitReader.{bits_held, place};
ghost use Rattle.video_headers.specs.Runs.{Runs};
ghost use Rattle.video_headers.specs.Private.Reading.{AnswersLook, Rests};
ghost use Rattle.video_headers.specs.Private.Stands.{StandsAt, StandsNext, known_for, is_zero, is_prefix, is_nothing, shows_prefix};
ghost use Rattle.video_headers.specs.Private.Wholes.{Wholes};

use crate::fault::HeadFault;
use bit_cursor::BitReader;
use shelf_io::Source;
use stream_constants::start_codes::PREFIX_BITS;

/// What whole bytes begin with.
#[derive(Clone, Copy)]
pub enum Stands {
    /// A start code prefix.
    Prefix,
    /// A zero byte that begins no prefix.
    Zero,
    /// Another byte.
    Other,
    /// There are none.
    Nothing,
}

impl Stands {
    /// Whether a zero byte stands there.
    pub fn is_zero(self) -> bool
        ensures { result ≡ is_zero self }
    {
        match self {
            Stands::Prefix => false,
            Stands::Zero => true,
            Stands::Other => false,
            Stands::Nothing => false,
        }
    }

    /// Whether a start code prefix stands there.
    pub fn is_prefix(self) -> bool
        ensures { result ≡ is_prefix self }
    {
        match self {
            Stands::Prefix => true,
            Stands::Zero => false,
            Stands::Other => false,
            Stands::Nothing => false,
        }
    }

    /// Whether nothing stands there.
    pub fn is_nothing(self) -> bool
        ensures { result ≡ is_nothing self }
    {
        match self {
            Stands::Prefix => false,
            Stands::Zero => false,
            Stands::Other => false,
            Stands::Nothing => true,
        }
    }
}

/// What stands next, which isn't taken.
pub fn look<S: Source>(reader: &mut BitReader<'_, S>) -> Result<Stands, HeadFault>
    ensures answers { AnswersLook result (Wholes reader.old) (λ stands. StandsNext stands reader.new) reader.old reader.new }
    ensures held { IfOk result (λ stands. known_for stands ≤ bits_held reader.new) }
{
    let (window, known) = reader.peek(PREFIX_BITS)?;
    let stands = what_stands(window, known);
    Ok(stands)
}

/// What stands at the front of a window of 24 bits.
fn what_stands(window: u32, known: u32) -> Stands
    requires { window < 2 ^ 24 }
    ensures stands { (bits : List ℕ) → IsWindow 24 bits window known → length bits % 8 ≡ 0 → StandsAt result bits }
    ensures held { known_for result ≤ known }
{
    if shows_prefix(window, known) {
        return Stands::Prefix;
    }
    if known < 8 {
        return Stands::Nothing;
    }
    if window >> 16 == 0 {
        return Stands::Zero;
    }
    Stands::Other
}

/// Whether a window of 24 bits, all of them known, is a start code prefix.
fn shows_prefix(window: u32, known: u32) -> bool
    ensures { result ≡ shows_prefix window known }
{
    known == PREFIX_BITS && window == 1
}

/// Passes n bits that are held.
pub fn pass<S: Source>(reader: &mut BitReader<'_, S>, n: u32)
    requires { n ≤ bits_held reader.old }
    ensures runs { Runs reader.old reader.new }
    ensures left { (end : ℕ) (bits : List ℕ) → n ≤ length bits → Rests reader.old end bits → Rests reader.new end (drop n bits) }
    ensures place { place reader.new ≡ place reader.old + n }
{
    reader.skip(n);
}
