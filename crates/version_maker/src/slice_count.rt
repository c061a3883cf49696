//! A slice in its versions, counted macroblock by macroblock and neither kept nor written.
ghost use Rattle.std.specs.Prelude.{◌≡◌, ◌≤◌, ◌<◌, ◌+◌, ◌*◌, ◌/◌, ◌^◌, ◌&&◌, ℕ, not, length, slice_index, slice_index_or, IfSome};
ghost use Rattle.std.specs.List.{flat_map};
ghost use Rattle.std.specs.Option.{option_to_list};
ghost use Rattle.quant_math.specs.Scales.{IsCode};
ghost use Rattle.picture_grammar.specs.Written.{written_macroblock, written_slice_info};
ghost use Rattle.requantiser.specs.Levels.{HasWeights};
ghost use Rattle.macroblock_writer.specs.Parts.{head_length};
ghost use Rattle.requantiser.specs.declared.tally.Tally.{Tally as TallyOf};
ghost use Rattle.requantiser.specs.Tallies.{kind_under, told_by};
ghost use Rattle.requantiser.specs.VersionState.{IsSpelledMacroblock};
ghost use Rattle.version_maker.specs.declared.slice_count.VersionCount.{VersionCount as CountOf};
ghost use Rattle.syntax_types.specs.declared.macroblock.Kind.{Kind as KindOf};
ghost use Rattle.syntax_types.specs.declared.picture.PicCoding.{PicCoding as CodingOf};
ghost use Rattle.version_maker.specs.Private.Kinds.{AreKindBits};
ghost use Rattle.version_maker.specs.Private.SharedBits.{AreSharedBits};
ghost use Rattle.version_maker.specs.Private.Counts.{CanCount, IsCountedMacroblock, IsStartCount};

use crate::kind_bits::{CODE_BITS, KindBits};
use crate::shared_bits::SharedBits;
use macroblock_writer::{increment_bits, macroblock_bits, pattern_bits};
use requantiser::{
    Head, Outline, Tally, VERSIONS_AT_ONCE, VersionRoom, VersionState, coded_head, is_emptied,
    outline_macroblock, stayed_head, stays,
};
use syntax_types::{Macroblock, PicCoding, PictureParameters, SliceInfo};

/// Where one version stands in a slice, and what was counted of it.
#[derive(Clone, Copy)]
pub struct VersionCount {
    pub state: VersionState,
    /// The bits of its macroblocks.
    pub bits: u64,
    pub distortion: u64,
}

/// A slice of a version.
#[derive(Clone, Copy)]
pub struct SliceCount {
    /// Its bytes, those of its start code among them.
    pub bytes: u64,
    pub distortion: u64,
}

/// Bits of a start code.
const START_CODE_BITS: u64 = 32;

impl VersionCount {
    /// Nothing of a slice with this code, in the version at `m` sixteenths.
    pub fn new(coding: &PicCoding, m: u16, code: u8) -> VersionCount
        requires { IsCode code }
        ensures { IsStartCount coding.now m code result }
    {
        VersionCount {
            state: VersionState::new(coding, m, code),
            bits: 0,
            distortion: 0,
        }
    }
}

/// Starts the counts of a slice with this code, in the version at each ratio.
pub fn start_counts(
    coding: &PicCoding,
    ratios: &[u16],
    code: u8,
    counts: &mut [VersionCount; VERSIONS_AT_ONCE],
)
    requires code { IsCode code }
    requires ratios { length ratios.now ≤ VERSIONS_AT_ONCE }
    ensures { (k : ℕ) (d : CountOf) → k < length ratios.now → IsStartCount coding.now (slice_index ratios.now k) code (slice_index_or counts.new k d) }
{
    for k in 0..ratios.len() {
        counts[k] = VersionCount::new(coding, ratios[k], code);
    }
}

/// The slice of a version whose macroblocks were counted, with so many bits in its header behind the code.
pub fn slice_size(info_bits: u64, count: VersionCount) -> SliceCount
    requires info { info_bits ≤ 2 ^ 36 }
    requires few { count.bits ≤ 2 ^ 40 }
    ensures bytes { result.bytes ≡ (37 + info_bits + count.bits + 7) / 8 }
    ensures distortion { result.distortion ≡ count.distortion }
{
    let bits = START_CODE_BITS + u64::from(CODE_BITS) + info_bits + count.bits;
    SliceCount {
        bytes: whole_bytes(bits),
        distortion: count.distortion,
    }
}

/// The bytes that so many bits begin.
fn whole_bytes(bits: u64) -> u64
    requires { bits ≤ 2 ^ 63 }
    ensures { result ≡ (bits + 7) / 8 }
{
    bits.div_ceil(8)
}

/// A macroblock is neither the first of its slice nor the last one, behind which the slice is closed.
pub fn is_inner(is_first: bool, closed: bool) -> bool
    ensures { result ≡ (not is_first && not closed) }
{
    !is_first && !closed
}

/// Counts what becomes of one more macroblock in the first so many versions, through room that is lent.
pub fn count_macroblock(
    picture: PictureParameters<'_>,
    inner: bool,
    from: &Macroblock,
    count: usize,
    tallies: &[Tally; VERSIONS_AT_ONCE],
    lent: &mut VersionRoom,
    counts: &mut [VersionCount; VERSIONS_AT_ONCE],
)
    requires weights { HasWeights picture.seq.now }
    requires spelled { IsSpelledMacroblock picture.coding.now from.now }
    requires count { count ≤ VERSIONS_AT_ONCE }
    requires each { (k : ℕ) (d : CountOf) (e : TallyOf) → k < count → CanCount picture.seq.now picture.coding.now from.now (slice_index_or tallies.now k e) (slice_index_or counts.old k d) }
    ensures { (k : ℕ) (d : CountOf) → k < count → IsCountedMacroblock picture.entry.seq.now picture.entry.coding.now inner from.now (slice_index_or counts.old k d) (slice_index_or counts.new k d) }
{
    if count == 0 {
        return;
    }
    let bits = SharedBits::of(picture.coding, from);
    for k in 0..count {
        count_version(
            picture,
            inner,
            from,
            &bits,
            &tallies[k],
            lent,
            &mut counts[k],
        );
    }
}

/// Counts what becomes of one more macroblock in a version, through room that is lent, where all versions share these bits.
#[inline]
fn count_version(
    picture: PictureParameters<'_>,
    inner: bool,
    from: &Macroblock,
    bits: &SharedBits,
    tally: &Tally,
    lent: &mut VersionRoom,
    count: &mut VersionCount,
)
    requires weights { HasWeights picture.seq.now }
    requires spelled { IsSpelledMacroblock picture.coding.now from.now }
    requires bits { AreSharedBits picture.coding.now from.now bits.now }
    requires can { CanCount picture.seq.now picture.coding.now from.now tally.now count.old }
    ensures { IsCountedMacroblock picture.entry.seq.now picture.entry.coding.now inner from.now count.old count.new }
{
    if stays(tally, &count.state, from) {
        let head = stayed_head(tally, from);
        count.bits += u64::from(bits.stayed.at(head.pattern) + tally.bits);
        count.distortion += tally.distortion;
        return;
    }
    count_changed(picture, inner, from, *bits, *tally, lent, count);
}

/// The same of a macroblock whose head changes, which is rare.
#[cold]
#[inline(never)]
fn count_changed(
    picture: PictureParameters<'_>,
    inner: bool,
    from: &Macroblock,
    bits: SharedBits,
    tally: Tally,
    lent: &mut VersionRoom,
    count: &mut VersionCount,
)
    requires weights { HasWeights picture.seq.now }
    requires spelled { IsSpelledMacroblock picture.coding.now from.now }
    requires bits { AreSharedBits picture.coding.now from.now bits }
    requires can { CanCount picture.seq.now picture.coding.now from.now tally count.old }
    ensures { IsCountedMacroblock picture.entry.seq.now picture.entry.coding.now inner from.now count.old count.new }
{
    if is_emptied(from.kind, tally) {
        count_emptied(picture, inner, from, bits, tally, lent, count);
        return;
    }
    let head = coded_head(tally, &mut count.state, from);
    let outline = head_in_version(bits.kinds, head) + bits.motion_and_dc;
    count.bits += u64::from(outline + tally.bits);
    count.distortion += tally.distortion;
}

/// The same of a macroblock that has no coefficients left, which is rare.
#[cold]
fn count_emptied(
    picture: PictureParameters<'_>,
    inner: bool,
    from: &Macroblock,
    bits: SharedBits,
    tally: Tally,
    lent: &mut VersionRoom,
    count: &mut VersionCount,
)
    requires weights { HasWeights picture.seq.now }
    requires spelled { IsSpelledMacroblock picture.coding.now from.now }
    requires bits { AreSharedBits picture.coding.now from.now bits }
    requires can { CanCount picture.seq.now picture.coding.now from.now tally count.old }
    ensures { IsCountedMacroblock picture.entry.seq.now picture.entry.coding.now inner from.now count.old count.new }
{
    let made = outline_macroblock(picture, inner, tally, &mut count.state, from, lent);
    let outline = outline_bits(picture.coding, from, bits, made.outline, &lent.macroblock);
    count.bits += u64::from(outline + made.bits);
    count.distortion += made.distortion;
}

/// The bits of what an outline tells of a macroblock, of which all versions share these.
fn outline_bits(
    coding: &PicCoding,
    from: &Macroblock,
    bits: SharedBits,
    outline: Outline,
    lent: &Macroblock,
) -> u32
    requires spelled { IsSpelledMacroblock coding.now from.now }
    requires bits { AreSharedBits coding.now from.now bits }
    ensures value { result ≡ length (flat_map (written_macroblock coding.now) (option_to_list (told_by coding.now from.now lent.now outline))) }
    ensures few { result < 2 ^ 17 }
{
    match outline {
        Outline::Coded(head) => head_in_version(bits.kinds, head) + bits.motion_and_dc,
        Outline::Kept => macroblock_bits(coding, lent),
        Outline::Skipped => 0,
    }
}

/// The bits of a macroblock's head in a version, where it has these of its types.
#[inline]
fn head_in_version(kinds: KindBits, head: Head) -> u32
    ensures value { (coding : CodingOf) (source : KindOf) → AreKindBits coding source kinds.neither kinds.pattern kinds.code kinds.both → result ≡ head_length coding head.skipped_before (kind_under source head) head.code head.pattern }
    ensures few { result ≤ 2 ^ 16 + 54 }
{
    let has_pattern = head.pattern != 0;
    increment_bits(u32::from(head.skipped_before) + 1)
        + kinds.at(head.code.is_some(), has_pattern)
        + pattern_bits(has_pattern, head.pattern)
}

/// The bits of slice_extension_flag and of what it calls for.
pub fn info_bits(info: &Option<SliceInfo>) -> u64
    requires { IfSome info.now (λ i. length i.bytes ≤ 2 ^ 32) }
    ensures value { result ≡ length (written_slice_info info.now) }
    ensures few { result ≤ 2 ^ 36 }
{
    match info {
        None => 1,
        Some(info) => 10 + 9 * info.bytes.len() as u64,
    }
}
