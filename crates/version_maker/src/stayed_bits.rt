//! The bits of a macroblock that stays as it is in a version but for its coefficients.
ghost use Rattle.std.specs.Prelude.{◌≡◌, ◌≤◌, ◌+◌, ◌^◌, ◌==◌, ℕ, Option, false, not};
ghost use Rattle.macroblock_writer.specs.Parts.{head_length};
ghost use Rattle.syntax_types.specs.declared.macroblock.Macroblock.{Macroblock as MacroblockOf};
ghost use Rattle.syntax_types.specs.declared.picture.PicCoding.{PicCoding as CodingOf};
ghost use Rattle.version_maker.specs.Private.Kinds.{AreKindBits, AreStayedBits};

use crate::kind_bits::KindBits;
use macroblock_writer::{increment_bits, pattern_bits};
use syntax_types::Macroblock;

/// The bits of its head, its motion and its DC coefficients where no coded_block_pattern stands, and where one stands, without
/// those of that.
#[derive(Clone, Copy)]
pub struct StayedBits {
    pub neither: u32,
    pub pattern: u32,
    ghost few: { (neither ≤ 2 ^ 17) × (pattern ≤ 2 ^ 17) },
}

impl StayedBits {
    /// Those of a macroblock whose types have so many bits, and its motion and DC coefficients so many.
    #[inline]
    pub fn of(kinds: KindBits, from: &Macroblock, shared: u32) -> StayedBits
        requires few { shared ≤ 2 ^ 15 }
        ensures { (coding : CodingOf) → AreKindBits coding from.now.kind kinds.neither kinds.pattern kinds.code kinds.both → AreStayedBits coding from.now shared result.neither result.pattern }
    {
        let around = increment_bits(u32::from(from.skipped_before) + 1) + shared;
        StayedBits {
            neither: around + kinds.neither,
            pattern: around + kinds.pattern,
        }
    }

    /// Those with this pattern.
    #[inline]
    pub fn at(&self, pattern: u8) -> u32
        ensures value { (coding : CodingOf) (from : MacroblockOf) (shared : ℕ) → AreStayedBits coding from shared self.now.neither self.now.pattern
            → result ≡ head_length coding from.skipped_before (record from.kind { quant = false; pattern = not (pattern == 0) }) Option.None pattern + shared }
        ensures few { result ≤ 2 ^ 17 + 24 }
    {
        if pattern == 0 {
            self.neither
        } else {
            self.pattern + pattern_bits(true, pattern)
        }
    }
}
