ghost use Rattle.std.specs.Prelude.{◌≡◌, ◌<◌, ℕ, List, IfOk, OnOk, IfErr, IsErrOf, IsNone, MatchResult, Some};
ghost use Rattle.shelf_io.specs.Counts.{Rose};
ghost use Rattle.bit_cursor.specs.BitReader.{bits_left, faults_of, absences_of, KeepsSource};
ghost use Rattle.picture_grammar.specs.Picture.{IsCoding};
ghost use Rattle.picture_grammar.specs.Macroblock.{macroblock};
ghost use Rattle.grammar_reading.specs.BitsRead.{Advances, AnswersSpelling, BeginsWith, Explains, Reads};
ghost use Rattle.syntax_types.specs.declared.macroblock.Macroblock.{Macroblock};
ghost use Rattle.macroblock_reader.specs.SliceFault.{refusal_told};
ghost use Rattle.macroblock_reader.specs.Private.Answers.{Answers, answer_as};

use crate::address::{most_increment, read_increment};
use crate::blocks::read_blocks;
use crate::elements::{read_bit_where, read_code_where, read_marker_where};
use crate::fault::SliceFault;
use crate::modes::{has_forward, read_kind, read_motion_type, read_pattern_where};
use crate::motion::{BACKWARD_CODES, FORWARD_CODES, codes_of, read_vectors_where, vector_format};
use bit_cursor::BitReader;
use picture_grammar::stands::{has_concealment, has_dct_type};
use shelf_io::{Fault, Source};
use syntax_types::{Macroblock, PicCoding};

/// The macroblock that the next bits spell (6.2.5), the first of its slice or a later one, with so many columns of its
/// row behind the macroblock before it, or in all for the first. The answer is the kind and the place of the refusal
/// where they spell none, and Outside where the source failed. After an answer that isn't Ok the next bits are still the
/// source's in order, behind some that were taken. It takes no memory.
pub fn read_macroblock<S: Source>(
    from: &mut BitReader<'_, S>,
    coding: &PicCoding,
    first: bool,
    columns_left: u16,
) -> Result<Macroblock, SliceFault>
    requires { IsCoding coding.now }
    ensures ok { IfOk result (λ m. Reads (macroblock coding.now first columns_left) m from.old from.new) }
    ensures exact { AnswersSpelling (macroblock coding.now first columns_left) refusal_told result from.old from.new }
    ensures refused { IfErr result (λ fault. Explains (macroblock coding.now first columns_left) from.old (refusal_told fault)) }
    ensures advances { Advances from.old from.new }

    ensures memory { IsErrOf result SliceFault.OutOfMemory → ⊥ }
    ensures failed { IsErrOf result (SliceFault.Outside Fault.Failed) → Rose (faults_of from.old) (faults_of from.new) }
    ensures missing { IsErrOf result (SliceFault.Outside Fault.Missing) → Rose (absences_of from.old) (absences_of from.new) }
    ensures keeps { KeepsSource from.old from.new }
{
    let mut macroblock = Macroblock::empty();
    read_macroblock_into(from, coding, first, columns_left, &mut macroblock)?;
    Ok(macroblock)
}

/// The same into a macroblock that is lent, whatever it holds. After an answer that isn't Ok it may hold anything.
pub fn read_macroblock_into<S: Source>(
    from: &mut BitReader<'_, S>,
    coding: &PicCoding,
    first: bool,
    columns_left: u16,
    into: &mut Macroblock,
) -> Result<(), SliceFault>
    requires { IsCoding coding.now }
    ensures ok { OnOk result (Reads (macroblock coding.now first columns_left) into.new from.old from.new) }
    ensures exact { (m : Macroblock) (rest : List ℕ) → BeginsWith (macroblock coding.now first columns_left) m from.old rest →
        MatchResult result (λ _. (into.new ≡ m) × (bits_left from.new ≡ Some rest)) (λ fault. IsNone (refusal_told fault)) }
    ensures within { OnOk result (into.new.skipped_before < columns_left) }
    ensures refused { IfErr result (λ fault. Explains (macroblock coding.now first columns_left) from.old (refusal_told fault)) }
    ensures advances { Advances from.old from.new }

    ensures memory { IsErrOf result SliceFault.OutOfMemory → ⊥ }
    ensures failed { IsErrOf result (SliceFault.Outside Fault.Failed) → Rose (faults_of from.old) (faults_of from.new) }
    ensures missing { IsErrOf result (SliceFault.Outside Fault.Missing) → Rose (absences_of from.old) (absences_of from.new) }
    ensures keeps { KeepsSource from.old from.new }
{
    read_parts(from, coding, first, columns_left, into)
}

/// The parts of a macroblock in their order, each read once.
fn read_parts<S: Source>(
    from: &mut BitReader<'_, S>,
    coding: &PicCoding,
    first: bool,
    columns_left: u16,
    into: &mut Macroblock,
) -> Result<(), SliceFault>
    requires { IsCoding coding.now }
    ensures answers { Answers ⊥ (macroblock coding.now first columns_left) (answer_as (λ _. into.new) result) from.old from.new }
    ensures within { OnOk result (into.new.skipped_before < columns_left) }
{
    let increment = read_increment(from, most_increment(coding, first, columns_left))?;
    into.skipped_before = increment - 1;
    let kind = read_kind(from, coding)?;
    into.kind = kind;
    let motion_type = read_motion_type(from, coding, kind)?;
    into.motion_type = motion_type;
    let field_dct = read_bit_where(from, has_dct_type(coding, kind))?;
    into.field_dct = field_dct;
    let code = read_code_where(from, kind.quant)?;
    into.code = code;
    let format = vector_format(coding, motion_type);
    let concealed = has_concealment(coding, kind);
    let forward = has_forward(coding, kind);
    let forward_codes = codes_of(coding, FORWARD_CODES);
    let backward_codes = codes_of(coding, BACKWARD_CODES);
    read_vectors_where(from, forward, forward_codes, format, &mut into.forward)?;
    read_vectors_where(
        from,
        kind.backward,
        backward_codes,
        format,
        &mut into.backward,
    )?;
    read_marker_where(from, concealed)?;
    let pattern = read_pattern_where(from, kind.pattern)?;
    into.pattern = pattern;
    read_blocks(from, coding, kind, pattern, &mut into.blocks)?;
    Ok(())
}
