//! The sizes of all versions, while the slices of a unit are counted.
ghost use Rattle.std.specs.Prelude.{◌≡◌, ◌≤◌, ◌<◌, ◌+◌, ◌%◌, ◌^◌, ◌∷◌, ◌++◌, [], ℕ, List, length, map};
ghost use Rattle.syntax_types.specs.declared.picture.PicCoding.{PicCoding as CodingValue};
ghost use Rattle.syntax_types.specs.declared.picture.SeqState.{SeqState as SeqValue};
ghost use Rattle.syntax_types.specs.declared.slice.Slice.{Slice as SliceValue};
ghost use Rattle.version_maker.specs.Private.Read.{IsSliceCounted};
ghost use Rattle.version_maker.specs.Private.Sized.{AreSized, first_size, with_bytes};

use crate::slice_count::{SliceCount, slice_size};
use crate::slice_read::SliceRead;
use crate::version::VersionSize;
use arrayvec::ArrayVec;
use version_table::limits::VERSIONS_MOST;

/// Sizes before the first slice, one for each ratio.
pub fn no_sizes(coarser: &[u16]) -> ArrayVec<VersionSize, VERSIONS_MOST>
    requires { length coarser.now < VERSIONS_MOST }
    ensures { (seq : SeqValue) (coding : CodingValue) → AreSized seq coding [] coarser.now result.items }
{
    let mut sizes = ArrayVec::new();
    for _m in coarser {
        sizes.push(VersionSize {
            bytes: 0,
            distortion: 0,
        });
    }
    sizes
}

/// Adds one more slice, which was counted in each version, to the sizes.
pub fn add_slice(read: &SliceRead, sizes: &mut [VersionSize])
    requires counted { (seq : SeqValue) × (coding : CodingValue) × (ratios : List ℕ) × (found : SliceValue) ×
        IsSliceCounted seq coding ratios found read.now × (length ratios ≡ length sizes.old) }
    requires few { length sizes.old < VERSIONS_MOST }
    ensures sized { (seq : SeqValue) (coding : CodingValue) (ratios : List ℕ) (found : SliceValue) (slices : List SliceValue) → IsSliceCounted seq coding ratios found read.now →
        AreSized seq coding slices ratios sizes.old → AreSized seq coding (slices ++ found ∷ []) ratios sizes.new }
    ensures as_many { length sizes.new ≡ length sizes.old }
{
    for i in 0..sizes.len() {
        let count = slice_size(read.info_bits, read.counts[i]);
        sizes[i] = sum(sizes[i], count);
    }
}

/// A size and one more slice. The sums go round, which those of a picture that is taken never do.
fn sum(before: VersionSize, count: SliceCount) -> VersionSize
    ensures bytes { result.bytes ≡ (before.bytes + count.bytes) % 2 ^ 64 }
    ensures distortion { result.distortion ≡ (before.distortion + count.distortion) % 2 ^ 64 }
{
    VersionSize {
        bytes: before.bytes.wrapping_add(count.bytes),
        distortion: before.distortion.wrapping_add(count.distortion),
    }
}

/// The size of version 0, and those of the others with the bytes around their slices.
pub fn all_sizes(
    unit: u64,
    around: u64,
    coarser: &[VersionSize],
) -> ArrayVec<VersionSize, VERSIONS_MOST>
    requires few { length coarser.now < VERSIONS_MOST }
    ensures { result.items ≡ first_size unit ∷ map (with_bytes around) coarser.now }
{
    let mut sizes = ArrayVec::new();
    sizes.push(VersionSize {
        bytes: unit,
        distortion: 0,
    });
    for size in coarser {
        sizes.push(with_around(*size, around));
    }
    sizes
}

/// A size with the bytes around its slices, which go round likewise.
fn with_around(size: VersionSize, around: u64) -> VersionSize
    ensures { result ≡ with_bytes around size }
{
    VersionSize {
        bytes: size.bytes.wrapping_add(around),
        distortion: size.distortion,
    }
}
