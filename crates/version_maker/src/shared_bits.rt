//! The bits that all versions of a macroblock share.
ghost use Rattle.version_maker.specs.Private.SharedBits.{AreSharedBits};

use crate::kind_bits::KindBits;
use crate::stayed_bits::StayedBits;
use macroblock_writer::motion_and_dc_bits;
use syntax_types::{Macroblock, PicCoding};

/// The bits of a macroblock that are the same in all its versions, or are told by what stands there.
#[derive(Clone, Copy)]
pub struct SharedBits {
    /// Those of its motion and its DC coefficients.
    pub motion_and_dc: u32,
    /// Those of its types.
    pub kinds: KindBits,
    /// Those of all but its coefficients, where it stays as it is.
    pub stayed: StayedBits,
}

impl SharedBits {
    /// Those of this macroblock.
    #[inline]
    pub fn of(coding: &PicCoding, from: &Macroblock) -> SharedBits
        ensures { AreSharedBits coding.now from.now result }
    {
        let motion_and_dc = motion_and_dc_bits(coding, from);
        let kinds = KindBits::of(coding, from.kind);
        SharedBits {
            motion_and_dc,
            kinds,
            stayed: StayedBits::of(kinds, from, motion_and_dc),
        }
    }
}
