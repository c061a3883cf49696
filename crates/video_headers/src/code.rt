//! Start codes, and the zero bytes before them (5.2.3, 6.2.1).
ghost use Rattle.std.specs.Prelude.{◌≡◌, ◌≤◌, ◌<◌, ◌==◌, ℕ, Bool, false, true, IfOk};
ghost use Rattle.bit_cursor.specs.BitReader.{place, bits_held};
ghost use Rattle.stream_constants.specs.SliceCodes.{is_slice};
ghost use Rattle.video_headers.specs.declared.stands.Stands.TheVariants.{Prefix};
ghost use Rattle.video_headers.specs.Private.NextCode.{BehindZeros, ComesNext, NextRests, ByteTaken, comes_of, is_one, byte_of, refused_code};
ghost use Rattle.video_headers.specs.Private.Reading.{AnswersLook};
ghost use Rattle.video_headers.specs.Private.Stands.{StandsNext, known_for, is_zero};
ghost use Rattle.video_headers.specs.Private.Wholes.{Wholes};

use crate::fault::HeadFault;
use crate::stands::{Stands, look, pass};
use crate::why::Why;
use bit_cursor::{BitFault, BitReader};
use shelf_io::Source;
use stream_constants::start_codes::{FIRST_SLICE, LAST_SLICE, PREFIX_BITS};

/// What comes behind zero bytes.
#[derive(Clone, Copy)]
pub enum Comes {
    /// A start code, by its last byte.
    Code { byte: u8 },
    /// A byte that is neither zero nor of a start code.
    NoCode,
    /// The end of the bits, also behind a start code prefix.
    Nothing,
}

/// What comes next where a start code may come.
#[derive(Clone, Copy)]
pub struct NextCode {
    /// The place from which on it was looked for.
    pub from: u64,
    /// The place of what comes, behind zero bytes.
    pub at: u64,
    pub comes: Comes,
}

impl NextCode {
    /// Whether this start code comes.
    pub fn is(&self, code: u8) -> bool
        ensures { result ≡ is_one (λ byte. byte == code) self.now.comes }
    {
        match self.comes {
            Comes::Code { byte } => byte == code,
            Comes::NoCode => false,
            Comes::Nothing => false,
        }
    }

    /// Whether the start code of a slice comes.
    pub fn is_slice(&self) -> bool
        ensures { result ≡ is_one is_slice self.now.comes }
    {
        match self.comes {
            Comes::Code { byte } => FIRST_SLICE <= byte && byte <= LAST_SLICE,
            Comes::NoCode => false,
            Comes::Nothing => false,
        }
    }

    /// The last byte of the start code that comes.
    pub fn byte(&self) -> u8
        ensures { result ≡ byte_of self.now.comes }
    {
        match self.comes {
            Comes::Code { byte } => byte,
            Comes::NoCode => 0,
            Comes::Nothing => 0,
        }
    }

    /// The refusal of what comes.
    pub fn refusal(&self, why: Why) -> HeadFault
        ensures { result ≡ refused_code self.now.comes why self.now.at }
    {
        match self.comes {
            Comes::Code { .. } => why.at(self.at),
            Comes::NoCode => why.at(self.at),
            Comes::Nothing => HeadFault::End { at: self.at },
        }
    }
}

/// What comes next, behind zero bytes. They and a start code are taken.
pub fn read_next_code<S: Source>(reader: &mut BitReader<'_, S>) -> Result<NextCode, HeadFault>
    ensures answers { AnswersLook result (Wholes reader.old) (λ next. NextRests next reader.new) reader.old reader.new }
    ensures moved { IfOk result (λ next. (codes : ℕ → Bool) → is_one codes next.comes ≡ true → place reader.old < place reader.new) }
{
    let from = reader.place();
    let stands = skip_zero_bytes(reader)?;
    let at = reader.place();
    let comes = take_code(reader, stands)?;
    Ok(NextCode { from, at, comes })
}

/// What stands behind zero bytes, which are taken.
fn skip_zero_bytes<S: Source>(reader: &mut BitReader<'_, S>) -> Result<Stands, HeadFault>
    ensures answers { AnswersLook result (Wholes reader.old) (λ stands. BehindZeros stands (place reader.old) reader.new) reader.old reader.new }
    ensures held { IfOk result (λ stands. known_for stands ≤ bits_held reader.new) }
    ensures no_zero { IfOk result (λ stands. is_zero stands ≡ false) }
{
    'zeros: loop {
        let stands = look(reader)?;
        if !stands.is_zero() {
            return Ok(stands);
        }
        pass(reader, 8);
    }
}

/// The start code whose prefix stands next, which is taken, or why there is none.
fn take_code<S: Source>(reader: &mut BitReader<'_, S>, stands: Stands) -> Result<Comes, HeadFault>
    requires held { known_for stands ≤ bits_held reader.old }
    requires no_zero { is_zero stands ≡ false }
    ensures answers { AnswersLook result (StandsNext stands reader.old) (λ comes. ComesNext comes (place reader.old) reader.new) reader.old reader.new }
    ensures moved { IfOk result (λ comes. (codes : ℕ → Bool) → is_one codes comes ≡ true → place reader.old < place reader.new) }
{
    match stands {
        Stands::Prefix => take_prefix_and_byte(reader),
        Stands::Zero => unreachable!(),
        Stands::Other => Ok(Comes::NoCode),
        Stands::Nothing => Ok(Comes::Nothing),
    }
}

/// The start code, by its last byte.
fn take_prefix_and_byte<S: Source>(reader: &mut BitReader<'_, S>) -> Result<Comes, HeadFault>
    requires { 24 ≤ bits_held reader.old }
    ensures answers { AnswersLook result (StandsNext Prefix reader.old) (λ comes. ComesNext comes (place reader.old) reader.new) reader.old reader.new }
    ensures moved { IfOk result (λ _. place reader.old < place reader.new) }
{
    pass(reader, PREFIX_BITS);
    let byte = next_byte(reader)?;
    Ok(comes_of(byte))
}

/// What comes, by the byte behind a prefix.
fn comes_of(byte: Option<u8>) -> Comes
    ensures { result ≡ comes_of byte }
{
    match byte {
        None => Comes::Nothing,
        Some(byte) => Comes::Code { byte },
    }
}

/// The next byte, which is taken, or none.
fn next_byte<S: Source>(reader: &mut BitReader<'_, S>) -> Result<Option<u8>, HeadFault>
    ensures { AnswersLook result (Wholes reader.old) (λ byte. ByteTaken byte reader.new) reader.old reader.new }
{
    match reader.bits(8) {
        Ok(byte) => Ok(Some(byte as u8)),
        Err(BitFault::End) => Ok(None),
        Err(BitFault::Outside(fault)) => Err(HeadFault::Outside(fault)),
    }
}
