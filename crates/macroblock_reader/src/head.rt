//! The header of a slice behind its start code (6.2.4).
ghost use Rattle.std.specs.Prelude.{◌<◌, ◌≤◌, [], ℕ, List, IfOk, IfErr, IsErrOf};
ghost use Rattle.shelf_io.specs.Counts.{Rose};
ghost use Rattle.bit_cursor.specs.BitReader.{place, faults_of, absences_of, KeepsSource};
ghost use Rattle.picture_grammar.specs.Grammar.{many, optional, more_of};
ghost use Rattle.picture_grammar.specs.Element.{uimsbf};
ghost use Rattle.picture_grammar.specs.Slice.{extra_information, slice_extension, slice_info};
ghost use Rattle.grammar_reading.specs.BitsRead.{Advances, AnswersSpelling, Explains, Reads};
ghost use Rattle.macroblock_reader.specs.SliceFault.{refusal_told};
ghost use Rattle.macroblock_reader.specs.SliceHead.{slice_head};
ghost use Rattle.macroblock_reader.specs.Private.Answers.{Answers, answer_as};

use crate::elements::{SCALE_CODE_BITS, read_bit, read_bits, read_not_zero};
use crate::fault::SliceFault;
use bit_cursor::BitReader;
use list_types::ListOf;
use shelf_io::{Fault, Source};
use std::alloc::Global;
use syntax_types::SliceInfo;

/// Bits of the reserved field behind intra_slice.
const RESERVED_BITS: u32 = 7;

/// Bits of extra_information_slice.
const INFORMATION_BITS: u32 = 8;

/// What stands in a slice before its macroblocks.
#[derive(Drop)]
pub struct SliceHead {
    /// quantiser_scale_code.
    pub code: u8,
    /// What stands behind the extension flag, if that is set.
    pub info: Option<SliceInfo>,
}

/// The header of a slice, behind its start code. It takes memory for extra_information_slice alone.
pub fn read_slice_head<S: Source>(
    from: &mut BitReader<'_, S>,
    alloc: Global,
) -> Result<SliceHead, SliceFault>
    ensures ok { IfOk result (λ head. Reads slice_head head from.old from.new) }
    ensures exact { AnswersSpelling slice_head refusal_told result from.old from.new }
    ensures refused { IfErr result (λ fault. Explains slice_head from.old (refusal_told fault)) }
    ensures advances { Advances from.old from.new }

    ensures failed { IsErrOf result (SliceFault.Outside Fault.Failed) → Rose (faults_of from.old) (faults_of from.new) }
    ensures missing { IsErrOf result (SliceFault.Outside Fault.Missing) → Rose (absences_of from.old) (absences_of from.new) }
    ensures keeps { KeepsSource from.old from.new }
{
    read_head(from, alloc)
}

fn read_head<S: Source>(from: &mut BitReader<'_, S>, alloc: Global) -> Result<SliceHead, SliceFault>
    ensures { Answers (Unit {0}) slice_head result from.old from.new }
{
    let code = read_not_zero(from, SCALE_CODE_BITS)?;
    let info = read_info(from, alloc)?;
    Ok(SliceHead { code, info })
}

/// slice_extension_flag and what it calls for.
pub fn read_info<S: Source>(
    from: &mut BitReader<'_, S>,
    alloc: Global,
) -> Result<Option<SliceInfo>, SliceFault>
    ensures { Answers (Unit {0}) slice_info result from.old from.new }
{
    let extended = read_bit(from)?;
    read_extension_where(from, extended, alloc)
}

fn read_extension_where<S: Source>(
    from: &mut BitReader<'_, S>,
    stands: bool,
    alloc: Global,
) -> Result<Option<SliceInfo>, SliceFault>
    ensures { Answers (Unit {0}) (optional stands slice_extension) result from.old from.new }
{
    if stands {
        let extension = read_extension(from, alloc)?;
        return Ok(Some(extension));
    }
    Ok(None)
}

/// What stands behind slice_extension_flag.
fn read_extension<S: Source>(
    from: &mut BitReader<'_, S>,
    alloc: Global,
) -> Result<SliceInfo, SliceFault>
    ensures { Answers (Unit {0}) slice_extension result from.old from.new }
{
    let intra_slice = read_bit(from)?;
    let reserved = read_byte(from, RESERVED_BITS)?;
    let bytes = read_information(from, alloc)?;
    Ok(SliceInfo {
        intra_slice,
        reserved,
        bytes,
    })
}

/// extra_information_slice, up to the bit 0 behind the last byte.
fn read_information<S: Source>(
    from: &mut BitReader<'_, S>,
    alloc: Global,
) -> Result<ListOf<u8>, SliceFault>
    ensures { Answers (Unit {0}) (many extra_information) (answer_as (λ bytes. (bytes, tt)) result) from.old from.new }
{
    let mut bytes = ListOf::new(alloc);
    'bytes: loop {
        let _at = from.place();
        let next = read_information_byte(from)?;
        match next {
            None => return Ok(bytes),
            Some(byte) => bytes.push(byte)?,
        }
    }
}

/// One more byte of it behind a bit 1, and None behind the bit 0.
fn read_information_byte<S: Source>(from: &mut BitReader<'_, S>) -> Result<Option<u8>, SliceFault>
    ensures answers { (before : List ℕ) → Answers ⊥ (extra_information before) (answer_as more_of result) from.old from.new }
    ensures moved { IfOk result (λ _. place from.old < place from.new) }
{
    let another = read_bit(from)?;
    let byte = read_byte_where(from, another)?;
    Ok(byte)
}

fn read_byte_where<S: Source>(
    from: &mut BitReader<'_, S>,
    stands: bool,
) -> Result<Option<u8>, SliceFault>
    ensures { Answers ⊥ (optional stands (uimsbf 8 [])) result from.old from.new }
{
    if stands {
        let byte = read_byte(from, INFORMATION_BITS)?;
        return Ok(Some(byte));
    }
    Ok(None)
}

/// The next n bits as a number, n at most 8.
fn read_byte<S: Source>(from: &mut BitReader<'_, S>, n: u32) -> Result<u8, SliceFault>
    requires { n ≤ 8 }
    ensures { Answers ⊥ (uimsbf n []) result from.old from.new }
{
    let number = read_bits(from, n)?;
    Ok(number as u8)
}
