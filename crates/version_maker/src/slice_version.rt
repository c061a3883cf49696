//! The version of a slice, written while the slice is read: one macroblock after another, of which none is kept.
ghost use Rattle.std.specs.Prelude.{◌≡◌, ◌≤◌, ◌<◌, ◌+◌, ◌^◌, ◌++◌, ℕ, List, true, false, is_err, length, IfOk, IfErr, IfSome, IsErrOf, MatchResult, OnOk};
ghost use Rattle.std.specs.List.{flat_map};
ghost use Rattle.std.specs.Option.{option_to_list};
ghost use Rattle.shelf_io.specs.Counts.{Rose};
ghost use Rattle.bit_lists.specs.Bits.{bits_of};
ghost use Rattle.bit_lists.specs.Fields.{bit_list};
ghost use Rattle.bit_cursor.specs.BitReader.{faults_of, absences_of, KeepsSource};
ghost use Rattle.bit_cursor.specs.BitWriter.{is_stopped, odd_bits, zeros_to_byte};
ghost use Rattle.quant_math.specs.Scales.{IsCode};
ghost use Rattle.picture_grammar.specs.Grammar.{many};
ghost use Rattle.picture_grammar.specs.Picture.{IsCoding};
ghost use Rattle.picture_grammar.specs.Slice.{next_macroblock, slice as slice_grammar};
ghost use Rattle.picture_grammar.specs.StartCode.{start_code_bits};
ghost use Rattle.picture_grammar.specs.Written.{written_macroblock, written_slice_info};
ghost use Rattle.video_headers.specs.Private.Reading.{Rests};
ghost use Rattle.macroblock_reader.specs.SliceFault.{refusal_told};
ghost use Rattle.macroblock_writer.specs.Private.Going.{GoesOn};
ghost use Rattle.picture_reader.specs.Told.{IsInside, RefusesTold};
ghost use Rattle.requantiser.specs.Levels.{HasWeights};
ghost use Rattle.requantiser.specs.VersionState.{IsSpelledMacroblock, made_of};
ghost use Rattle.version_maker.specs.Private.Making.{AreMade, IsMadeBehind, IsMadeSlice, IsWrittenStep};

use crate::lent::Lent;
use crate::slice_count::is_inner;
use bit_cursor::{BitReader, BitWriter};
use list_types::OutOfMemory;
use macroblock_reader::{SliceCursor, SliceFault, SliceHead, read_slice_head};
use macroblock_writer::{write_macroblock, write_slice_head};
use picture_grammar::grid::columns;
use picture_reader::Span;
use picture_writer::write_start_code;
use requantiser::{VersionState, requantise_macroblock};
use shelf_io::{Fault, Sink, SliceSource, Source};
use std::alloc::Global;
use stream_constants::start_codes::FIRST_SLICE;
use syntax_types::{Macroblock, PicCoding, PictureParameters, SliceInfo};

/// A slice that was read, and whose version was written.
#[derive(Clone, Copy)]
pub struct SliceMade {
    /// The columns that it holds.
    pub span: Span,
    /// How many bits spell it.
    pub bits: u64,
}

/// Reads the slice at the front of these bytes, behind its start code, and writes the one of the version at `m`
/// sixteenths, behind its start code and up to a whole byte. A fault of the sink is answered as want of memory.
pub fn make_slice<K: Sink>(
    alloc: Global,
    bytes: &[u8],
    picture: PictureParameters<'_>,
    row: u8,
    m: u16,
    lent: &mut Lent,
    to: &mut K,
) -> Result<SliceMade, SliceFault>
    requires coding { IsCoding picture.coding.now }
    requires weights { HasWeights picture.seq.now }
    requires length { length bytes.now ≤ 2 ^ 60 }
    requires row { row + FIRST_SLICE < 2 ^ 8 }
    ensures gives { MatchResult result (λ made. IsMadeSlice picture.entry.seq.now picture.entry.coding.now m row made (bit_list bytes.now) (K.written to.old) (K.written to.new))
        (λ fault. RefusesTold (slice_grammar picture.entry.seq.now picture.entry.coding.now row) (refusal_told fault) (length (bit_list bytes.now)) (bit_list bytes.now)) }
    ensures inside { IfErr result IsInside }
{
    let mut source = SliceSource::new(bytes);
    let mut reader = BitReader::new(&mut source);
    let head = read_slice_head(&mut reader, alloc)?;
    let span = make_behind_head(&mut reader, picture, row, m, &head, lent, to)?;
    let bits = reader.place();
    Ok(SliceMade { span, bits })
}

/// Reads the macroblocks of a slice with this head, up to its close, and writes the slice of the version.
fn make_behind_head<S: Source, K: Sink>(
    from: &mut BitReader<'_, S>,
    picture: PictureParameters<'_>,
    row: u8,
    m: u16,
    head: &SliceHead,
    lent: &mut Lent,
    to: &mut K,
) -> Result<Span, SliceFault>
    requires coding { IsCoding picture.coding.now }
    requires weights { HasWeights picture.seq.now }
    requires told { (end : ℕ) × (bits : List ℕ) × Rests from.old end bits }
    requires row { row + FIRST_SLICE < 2 ^ 8 }
    requires code { IsCode head.now.code }
    requires reserved { IfSome head.now.info (λ info. info.reserved < 2 ^ 7) }
    ensures gives { (end : ℕ) (bits : List ℕ) → Rests from.old end bits →
        MatchResult result (λ span. IsMadeBehind picture.entry.seq.now picture.entry.coding.now m row head.now span end bits from.new (K.written to.old) (K.written to.new))
        (λ fault. RefusesTold (many (next_macroblock picture.entry.seq.now picture.entry.coding.now)) (refusal_told fault) end bits) }
    ensures few { IfOk result (λ span. span.end ≤ 4096) }
    ensures failed { IsErrOf result (SliceFault.Outside Fault.Failed) → Rose (faults_of from.old) (faults_of from.new) }
    ensures missing { IsErrOf result (SliceFault.Outside Fault.Missing) → Rose (absences_of from.old) (absences_of from.new) }
    ensures keeps { KeepsSource from.old from.new }
{
    let start = VersionState::new(picture.coding, m, head.code);
    let mut writer = BitWriter::new(to);
    write_front(row, start.version_code, &head.info, &mut writer)?;
    let span = make_macroblocks(from, picture, start, lent, &mut writer)?;
    write_close(&mut writer)?;
    in_memory(writer.finish())?;
    Ok(span)
}

/// Reads macroblocks up to the close of their slice, and writes what becomes of each behind the others, from the state at
/// the slice's start.
fn make_macroblocks<S: Source, K: Sink>(
    from: &mut BitReader<'_, S>,
    picture: PictureParameters<'_>,
    start: VersionState,
    lent: &mut Lent,
    to: &mut BitWriter<'_, K>,
) -> Result<Span, SliceFault>
    requires coding { IsCoding picture.coding.now }
    requires weights { HasWeights picture.seq.now }
    requires told { (end : ℕ) × (bits : List ℕ) × Rests from.old end bits }
    requires none { start.skipped ≡ 0 }
    requires goes { is_stopped to.old ≡ false }
    ensures gives { (end : ℕ) (bits : List ℕ) → Rests from.old end bits →
        MatchResult result (λ span. AreMade K.written picture.entry.seq.now picture.entry.coding.now start span end bits from.new to.old to.new)
        (λ fault. RefusesTold (many (next_macroblock picture.entry.seq.now picture.entry.coding.now)) (refusal_told fault) end bits) }
    ensures few { IfOk result (λ span. span.end ≤ 4096) }
    ensures failed { IsErrOf result (SliceFault.Outside Fault.Failed) → Rose (faults_of from.old) (faults_of from.new) }
    ensures missing { IsErrOf result (SliceFault.Outside Fault.Missing) → Rose (absences_of from.old) (absences_of from.new) }
    ensures keeps { KeepsSource from.old from.new }
{
    let _columns = columns(picture.seq);
    let mut cursor = SliceCursor::new(picture.seq);
    let mut span = Span::new();
    let mut state = start;
    let mut is_first = true;
    'macroblocks: loop {
        let is_more = cursor.next(from, picture.coding, &mut lent.from)?;
        if !is_more {
            return Ok(span);
        }
        let is_last = cursor.is_closed(from)?;
        span = span.with(lent.from.skipped_before);
        let inner = is_inner(is_first, is_last);
        make_macroblock(picture, inner, &mut state, lent, to)?;
        is_first = false;
    }
}

/// Writes what becomes of the macroblock of the source that was read.
fn make_macroblock<K: Sink>(
    picture: PictureParameters<'_>,
    inner: bool,
    state: &mut VersionState,
    lent: &mut Lent,
    to: &mut BitWriter<'_, K>,
) -> Result<(), OutOfMemory>
    requires coding { IsCoding picture.coding.now }
    requires weights { HasWeights picture.seq.now }
    requires spelled { IsSpelledMacroblock picture.coding.now lent.old.from }
    requires room { state.old.skipped + lent.old.from.skipped_before < u16.MAX }
    requires goes { is_stopped to.old ≡ false }
    ensures { OnOk result (IsWrittenStep K.written picture.entry.seq.now picture.entry.coding.now inner lent.old.from state.old state.new to.old to.new) }
{
    let coded = requantise_macroblock(picture, inner, state, &lent.from, &mut lent.made);
    write_where_coded(picture.coding, coded, &lent.made.macroblock, to)
}

/// Writes a macroblock where it is coded, and nothing where it is skipped.
fn write_where_coded<K: Sink>(
    coding: &PicCoding,
    coded: bool,
    made: &Macroblock,
    to: &mut BitWriter<'_, K>,
) -> Result<(), OutOfMemory>
    requires coding { IsCoding coding.now }
    requires spelled { coded ≡ true → IsSpelledMacroblock coding.now made.now }
    requires goes { is_stopped to.old ≡ false }
    ensures { OnOk result (GoesOn K.written to.old to.new (flat_map (written_macroblock coding.now) (option_to_list (made_of coded made.now)))) }
{
    if !coded {
        return Ok(());
    }
    in_memory(write_macroblock(to, coding, made))
}

/// Writes the start code of a slice of this row, and its head.
fn write_front<K: Sink>(
    row: u8,
    code: u8,
    info: &Option<SliceInfo>,
    to: &mut BitWriter<'_, K>,
) -> Result<(), OutOfMemory>
    requires row { row + FIRST_SLICE < 2 ^ 8 }
    requires code { IsCode code }
    requires reserved { IfSome info.now (λ info. info.reserved < 2 ^ 7) }
    requires goes { is_stopped to.old ≡ false }
    ensures { OnOk result (GoesOn K.written to.old to.new (start_code_bits (row + FIRST_SLICE) ++ (bits_of 5 code ++ written_slice_info info.now))) }
{
    in_memory(write_start_code(to, row + FIRST_SLICE))?;
    in_memory(write_slice_head(to, code, info))
}

/// Writes the zero bits up to a whole byte.
fn write_close<K: Sink>(to: &mut BitWriter<'_, K>) -> Result<(), OutOfMemory>
    requires goes { is_stopped to.old ≡ false }
    ensures closes { OnOk result (GoesOn K.written to.old to.new (zeros_to_byte (odd_bits to.old))) }
    ensures whole { OnOk result (odd_bits to.new ≡ 0) }
{
    in_memory(to.align_zero())
}

/// The answer of a call over a sink that keeps its bytes in memory, of which no fault comes but want of it.
pub fn in_memory(answer: Result<(), Fault>) -> Result<(), OutOfMemory>
    ensures { is_err result ≡ is_err answer }
{
    match answer {
        Ok(()) => Ok(()),
        Err(_fault) => Err(OutOfMemory),
    }
}
