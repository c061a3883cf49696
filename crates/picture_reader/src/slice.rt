//! A slice read from its bytes, macroblock by macroblock (6.2.4).
ghost use Rattle.std.specs.Prelude.{◌≡◌, ◌≤◌, ◌<◌, ◌+◌, ◌^◌, [], ◌∷◌, ◌++◌, ℕ, List, length, IfOk, IfErr, IsErrOf, OnOk, MatchResult};
ghost use Rattle.shelf_io.specs.Counts.{Rose};
ghost use Rattle.bit_lists.specs.Fields.{bit_list};
ghost use Rattle.bit_cursor.specs.BitReader.{faults_of, absences_of, KeepsSource};
ghost use Rattle.picture_grammar.specs.Grammar.{many};
ghost use Rattle.picture_grammar.specs.Picture.{IsCoding};
ghost use Rattle.picture_grammar.specs.Slice.{next_macroblock, slice};
ghost use Rattle.video_headers.specs.Private.Reading.{Rests};
ghost use Rattle.macroblock_reader.specs.SliceFault.{refusal_told};
ghost use Rattle.picture_reader.specs.declared.keep.Keep.TheVariants.{Tree};
ghost use Rattle.picture_reader.specs.Told.{IsInside};
ghost use Rattle.picture_reader.specs.Private.Reading.{AllRead, SliceRead};
ghost use Rattle.picture_reader.specs.Told.{RefusesTold};

use crate::coverage::Span;
use crate::keep::Keep;
use bit_cursor::BitReader;
use list_types::{ListOf, OutOfMemory};
use macroblock_reader::{SliceCursor, SliceFault, read_slice_head};
use picture_grammar::grid::columns;
use shelf_io::{Fault, SliceSource, Source};
use std::alloc::Global;
use std::mem;
use syntax_types::{Macroblock, PictureParameters, Slice};

/// A slice that was read.
#[derive(Drop)]
pub struct SliceWalked {
    /// The slice, without its macroblocks where these aren't kept.
    pub slice: Slice,
    /// The columns that it holds.
    pub span: Span,
    /// How many bits spell it.
    pub bits: u64,
}

/// The macroblocks of a slice that were read.
#[derive(Drop)]
pub struct MacroblocksWalked {
    /// The macroblocks, where they are kept.
    pub macroblocks: ListOf<Macroblock>,
    /// The columns that they hold.
    pub span: Span,
}

/// Reads the slice at the front of these bytes, behind its start code, through a macroblock that is lent.
pub fn walk_slice(
    bytes: &[u8],
    picture: PictureParameters<'_>,
    row: u8,
    keep: Keep,
    lent: &mut Macroblock,
    alloc: Global,
) -> Result<SliceWalked, SliceFault>
    requires coding { IsCoding picture.coding.now }
    requires length { length bytes.now ≤ 2 ^ 60 }
    ensures gives { MatchResult result (λ walked. SliceRead picture.entry.seq.now picture.entry.coding.now row keep walked (bit_list bytes.now))
        (λ fault. RefusesTold (slice picture.entry.seq.now picture.entry.coding.now row) (refusal_told fault) (length (bit_list bytes.now)) (bit_list bytes.now)) }
    ensures inside { IfErr result IsInside }
    ensures few { IfOk result (λ walked. walked.span.end ≤ 4096) }
{
    let mut source = SliceSource::new(bytes);
    let mut reader = BitReader::new(&mut source);
    let head = read_slice_head(&mut reader, alloc)?;
    let walked = walk_macroblocks(&mut reader, picture, keep, lent, alloc)?;
    let bits = reader.place();
    Ok(SliceWalked {
        slice: Slice {
            row,
            code: head.code,
            info: head.info,
            macroblocks: walked.macroblocks,
        },
        span: walked.span,
        bits,
    })
}

/// Reads macroblocks up to the close of their slice, each into one that is lent.
fn walk_macroblocks<S: Source>(
    from: &mut BitReader<'_, S>,
    picture: PictureParameters<'_>,
    keep: Keep,
    lent: &mut Macroblock,
    alloc: Global,
) -> Result<MacroblocksWalked, SliceFault>
    requires { IsCoding picture.coding.now }
    ensures gives { (end : ℕ) (bits : List ℕ) → Rests from.old end bits →
        MatchResult result (λ walked. AllRead picture.entry.seq.now picture.entry.coding.now keep walked end bits from.new)
        (λ fault. RefusesTold (many (next_macroblock picture.entry.seq.now picture.entry.coding.now)) (refusal_told fault) end bits) }
    ensures few { IfOk result (λ walked. walked.span.end ≤ 4096) }
    ensures failed { IsErrOf result (SliceFault.Outside Fault.Failed) → Rose (faults_of from.old) (faults_of from.new) }
    ensures missing { IsErrOf result (SliceFault.Outside Fault.Missing) → Rose (absences_of from.old) (absences_of from.new) }
    ensures keeps { KeepsSource from.old from.new }
{
    let _columns = columns(picture.seq);
    let mut cursor = SliceCursor::new(picture.seq);
    let mut kept = ListOf::new(alloc);
    let mut span = Span::new();
    'macroblocks: loop {
        let is_more = cursor.next(from, picture.coding, lent)?;
        if !is_more {
            return Ok(MacroblocksWalked {
                macroblocks: kept,
                span,
            });
        }
        span = span.with(lent.skipped_before);
        keep_macroblock(keep, &mut kept, lent)?;
    }
}

/// Puts a macroblock that was lent behind those that are kept, if they are.
fn keep_macroblock(
    keep: Keep,
    kept: &mut ListOf<Macroblock>,
    lent: &mut Macroblock,
) -> Result<(), OutOfMemory>
    ensures { OnOk result (keep ≡ Tree → kept.new ≡ kept.old ++ lent.old ∷ []) }
{
    match keep {
        Keep::Tree => kept.push(mem::replace(lent, Macroblock::empty())),
        Keep::Nothing => Ok(()),
    }
}
