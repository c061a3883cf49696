//! The bits of macroblock_type in the versions of a macroblock.
ghost use Rattle.std.specs.Prelude.{◌≡◌, ◌≤◌, if◌then◌else◌};
ghost use Rattle.macroblock_writer.specs.Parts.{kind_length};
ghost use Rattle.version_maker.specs.Private.Kinds.{AreKindBits};

use macroblock_writer::kind_bits;
use syntax_types::{Kind, PicCoding};

/// Bits of quantiser_scale_code.
pub const CODE_BITS: u32 = 5;

/// The bits of macroblock_type, dct_type and quantiser_scale_code of a macroblock in its versions, by whether that code and
/// coded_block_pattern stand there.
#[derive(Clone, Copy)]
pub struct KindBits {
    pub neither: u32,
    pub pattern: u32,
    pub code: u32,
    pub both: u32,
    ghost few: { (neither ≤ 30) × (pattern ≤ 30) × (code ≤ 30) × (both ≤ 30) },
}

impl KindBits {
    /// Those of a macroblock that is of this kind in the source.
    pub fn of(coding: &PicCoding, source: Kind) -> KindBits
        ensures { AreKindBits coding.now source result.neither result.pattern result.code result.both }
    {
        KindBits {
            neither: bits_with(coding, source, false, false),
            pattern: bits_with(coding, source, false, true),
            code: bits_with(coding, source, true, false) + CODE_BITS,
            both: bits_with(coding, source, true, true) + CODE_BITS,
        }
    }

    /// Those where a code and a pattern stand or not.
    #[inline]
    pub fn at(self, code: bool, pattern: bool) -> u32
        ensures value { result ≡ (if code then (if pattern then self.both else self.code) else (if pattern then self.pattern else self.neither)) }
        ensures few { result ≤ 30 }
    {
        if code {
            if pattern { self.both } else { self.code }
        } else if pattern {
            self.pattern
        } else {
            self.neither
        }
    }
}

/// The bits of macroblock_type and dct_type where a code and a pattern stand or not.
#[inline]
fn bits_with(coding: &PicCoding, source: Kind, quant: bool, pattern: bool) -> u32
    ensures value { result ≡ kind_length coding.now (record source { quant = quant; pattern = pattern }) }
    ensures few { result ≤ 25 }
{
    let kind = Kind {
        quant,
        pattern,
        ..source
    };
    kind_bits(coding, kind)
}
