//! One slice of a unit, read and counted macroblock by macroblock.
ghost use Rattle.std.specs.Prelude.{◌≡◌, ◌≤◌, ◌<◌, ◌+◌, ◌^◌, ℕ, List, Some, length, slice_index, slice_index_or, unwrap_or, IfErr, IsErrOf, MatchResult};
ghost use Rattle.shelf_io.specs.Counts.{Rose};
ghost use Rattle.bit_lists.specs.Fields.{bit_list};
ghost use Rattle.bit_cursor.specs.BitReader.{bits_left, place, faults_of, absences_of, KeepsSource};
ghost use Rattle.quant_math.specs.Scales.{IsCode};
ghost use Rattle.picture_grammar.specs.Grammar.{many};
ghost use Rattle.picture_grammar.specs.Picture.{IsCoding};
ghost use Rattle.picture_grammar.specs.Slice.{next_macroblock, slice as slice_of};
ghost use Rattle.macroblock_reader.specs.SliceFault.{refusal_told};
ghost use Rattle.picture_reader.specs.Told.{IsInside, RefusesTold};
ghost use Rattle.requantiser.specs.Levels.{HasWeights};
ghost use Rattle.requantiser.specs.VersionState.{IsSpelledMacroblock};
ghost use Rattle.version_maker.specs.declared.slice_count.VersionCount.{VersionCount as CountOf};
ghost use Rattle.version_maker.specs.Private.Counts.{CanCountBehind, IsCountedMacroblock, IsStartCount};
ghost use Rattle.version_maker.specs.Private.Read.{AreMacroblocksRead, IsSliceRead};

use crate::lent::Lent;
use crate::slice_count::{VersionCount, count_macroblock, info_bits, is_inner, start_counts};
use bit_cursor::BitReader;
use macroblock_reader::{SliceCursor, SliceFault, read_slice_head};
use picture_grammar::grid::columns;
use picture_reader::Span;
use quant_math::WHOLE_RATIO;
use requantiser::{Ladder, VERSIONS_AT_ONCE, tally_macroblock};
use shelf_io::{Fault, SliceSource, Source};
use std::alloc::Global;
use syntax_types::{PicCoding, PictureParameters};

/// What was counted of a slice that was read.
#[derive(Clone, Copy)]
pub struct SliceRead {
    /// How many bits spell it.
    pub bits: u64,
    /// The columns that it holds.
    pub span: Span,
    /// The bits of slice_extension_flag and of what it calls for.
    pub info_bits: u64,
    /// Its macroblocks in each version.
    pub counts: [VersionCount; VERSIONS_AT_ONCE],
}

impl SliceRead {
    /// Nothing.
    pub fn new(coding: &PicCoding) -> SliceRead {
        SliceRead {
            bits: 0,
            span: Span::new(),
            info_bits: 0,
            counts: [VersionCount::new(coding, WHOLE_RATIO as u16, 1); VERSIONS_AT_ONCE],
        }
    }
}

/// Reads the slice at the front of these bytes, behind its start code, and counts it in the version at each ratio into one
/// that is lent. Each of its macroblocks is read into one that is lent, and outlined through room that is lent.
pub fn read_and_count(
    alloc: Global,
    bytes: &[u8],
    picture: PictureParameters<'_>,
    ratios: &[u16],
    ladder: &mut Ladder,
    lent: &mut Lent,
    slice: &mut SliceRead,
) -> Result<(), SliceFault>
    requires coding { IsCoding picture.coding.now }
    requires weights { HasWeights picture.seq.now }
    requires length { length bytes.now ≤ 2 ^ 20 }
    requires ratios { length ratios.now ≤ VERSIONS_AT_ONCE }
    ensures gives { (row : ℕ) → MatchResult result (λ _. IsSliceRead picture.entry.seq.now picture.entry.coding.now ratios.now row slice.new (bit_list bytes.now))
        (λ fault. RefusesTold (slice_of picture.entry.seq.now picture.entry.coding.now row) (refusal_told fault) (length (bit_list bytes.now)) (bit_list bytes.now)) }
    ensures inside { IfErr result IsInside }
{
    let mut source = SliceSource::new(bytes);
    let mut reader = BitReader::new(&mut source);
    let head = read_slice_head(&mut reader, alloc)?;
    start_counts(picture.coding, ratios, head.code, &mut slice.counts);
    let span = count_macroblocks(
        &mut reader,
        picture,
        ratios,
        head.code,
        ladder,
        lent,
        &mut slice.counts,
    )?;
    slice.bits = reader.place();
    slice.span = span;
    slice.info_bits = info_bits(&head.info);
    Ok(())
}

/// Counts the macroblocks of a slice with this code in the version at each ratio, up to the close of the slice. It answers
/// the columns that they hold.
fn count_macroblocks<S: Source>(
    from: &mut BitReader<'_, S>,
    picture: PictureParameters<'_>,
    ratios: &[u16],
    code: u8,
    ladder: &mut Ladder,
    lent: &mut Lent,
    counts: &mut [VersionCount; VERSIONS_AT_ONCE],
) -> Result<Span, SliceFault>
    requires coding { IsCoding picture.coding.now }
    requires weights { HasWeights picture.seq.now }
    requires told { (bits : List ℕ) × (bits_left from.old ≡ Some bits) }
    requires code { IsCode code }
    requires ratios { length ratios.now ≤ VERSIONS_AT_ONCE }
    requires start { (k : ℕ) (d : CountOf) → k < length ratios.now → IsStartCount picture.coding.now (slice_index ratios.now k) code (slice_index_or counts.old k d) }
    ensures gives { (bits : List ℕ) → bits_left from.old ≡ Some bits →
        MatchResult result (λ span. AreMacroblocksRead picture.entry.seq.now picture.entry.coding.now (length ratios.now) counts.old counts.new span bits from.old from.new)
        (λ fault. RefusesTold (many (next_macroblock picture.entry.seq.now picture.entry.coding.now)) (refusal_told fault) (place from.old + length bits) bits) }
    ensures failed { IsErrOf result (SliceFault.Outside Fault.Failed) → Rose (faults_of from.old) (faults_of from.new) }
    ensures missing { IsErrOf result (SliceFault.Outside Fault.Missing) → Rose (absences_of from.old) (absences_of from.new) }
    ensures keeps { KeepsSource from.old from.new }
{
    let _columns = columns(picture.seq);
    let mut cursor = SliceCursor::new(picture.seq);
    let mut span = Span::new();
    let mut in_force = code;
    'macroblocks: loop {
        let is_more = cursor.next(from, picture.coding, &mut lent.from)?;
        if !is_more {
            return Ok(span);
        }
        let closed = cursor.is_closed(from)?;
        let inner = is_inner(span.end == 0, closed);
        span = span.with(lent.from.skipped_before);
        in_force = count_next(picture, inner, in_force, ratios, ladder, lent, counts);
    }
}

/// Counts the macroblock that was read in the version at each ratio, where this code of the source is in force before it. It
/// answers the code behind it.
fn count_next(
    picture: PictureParameters<'_>,
    inner: bool,
    code: u8,
    ratios: &[u16],
    ladder: &mut Ladder,
    lent: &mut Lent,
    counts: &mut [VersionCount; VERSIONS_AT_ONCE],
) -> u8
    requires weights { HasWeights picture.seq.now }
    requires code { IsCode code }
    requires spelled { IsSpelledMacroblock picture.coding.now lent.old.from }
    requires ratios { length ratios.now ≤ VERSIONS_AT_ONCE }
    requires each { (k : ℕ) (d : CountOf) → k < length ratios.now → CanCountBehind code (slice_index ratios.now k) lent.old.from (slice_index_or counts.old k d) }
    ensures code { result ≡ unwrap_or lent.old.from.code code }
    ensures is_code { IsCode result }
    ensures each { (k : ℕ) (d : CountOf) → k < length ratios.now → IsCountedMacroblock picture.entry.seq.now picture.entry.coding.now inner lent.old.from (slice_index_or counts.old k d) (slice_index_or counts.new k d) }
{
    let behind = tally_macroblock(picture, code, ratios, &lent.from, &mut lent.tallies, ladder);
    count_macroblock(
        picture,
        inner,
        &lent.from,
        ratios.len(),
        &lent.tallies,
        &mut lent.made,
        counts,
    );
    behind
}
