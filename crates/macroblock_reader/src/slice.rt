ghost use Rattle.std.specs.Prelude.{IfOk, IfErr, IsErrOf};
ghost use Rattle.shelf_io.specs.Counts.{Rose};
ghost use Rattle.bit_cursor.specs.BitReader.{faults_of, absences_of, KeepsSource};
ghost use Rattle.picture_grammar.specs.Grammar.{many};
ghost use Rattle.picture_grammar.specs.Picture.{IsCoding};
ghost use Rattle.picture_grammar.specs.Slice.{next_macroblock, slice};
ghost use Rattle.grammar_reading.specs.BitsRead.{Advances, AnswersSpelling, Explains, Reads};
ghost use Rattle.macroblock_reader.specs.SliceFault.{refusal_told};
ghost use Rattle.macroblock_reader.specs.Private.Answers.{Answers, answer_as};

use crate::cursor::SliceCursor;
use crate::elements::{SCALE_CODE_BITS, read_not_zero};
use crate::fault::SliceFault;
use crate::head::read_info;
use bit_cursor::BitReader;
use list_types::ListOf;
use shelf_io::{Fault, Source};
use std::alloc::Global;
use syntax_types::{Macroblock, PictureParameters, Slice};

/// The slice of a macroblock row that the next bits spell (6.2.4), from behind its start code to the end of its last
/// macroblock.
pub fn read_slice<S: Source>(
    from: &mut BitReader<'_, S>,
    picture: PictureParameters<'_>,
    row: u8,
    alloc: Global,
) -> Result<Slice, SliceFault>
    requires { IsCoding picture.coding.now }
    ensures ok { IfOk result (λ s. Reads (slice picture.entry.seq.now picture.entry.coding.now row) s from.old from.new) }
    ensures exact { AnswersSpelling (slice picture.entry.seq.now picture.entry.coding.now row) refusal_told result from.old from.new }
    ensures refused { IfErr result (λ fault. Explains (slice picture.entry.seq.now picture.entry.coding.now row) from.old (refusal_told fault)) }
    ensures advances { Advances from.old from.new }

    ensures failed { IsErrOf result (SliceFault.Outside Fault.Failed) → Rose (faults_of from.old) (faults_of from.new) }
    ensures missing { IsErrOf result (SliceFault.Outside Fault.Missing) → Rose (absences_of from.old) (absences_of from.new) }
    ensures keeps { KeepsSource from.old from.new }
{
    read_whole(from, picture, row, alloc)
}

fn read_whole<S: Source>(
    from: &mut BitReader<'_, S>,
    picture: PictureParameters<'_>,
    row: u8,
    alloc: Global,
) -> Result<Slice, SliceFault>
    requires { IsCoding picture.coding.now }
    ensures { Answers (Unit {0}) (slice picture.entry.seq.now picture.entry.coding.now row) result from.old from.new }
{
    let code = read_not_zero(from, SCALE_CODE_BITS)?;
    let info = read_info(from, alloc)?;
    let macroblocks = read_macroblocks(from, picture, alloc)?;
    Ok(Slice {
        row,
        code,
        info,
        macroblocks,
    })
}

/// The macroblocks of a slice up to its close, which is left.
fn read_macroblocks<S: Source>(
    from: &mut BitReader<'_, S>,
    picture: PictureParameters<'_>,
    alloc: Global,
) -> Result<ListOf<Macroblock>, SliceFault>
    requires { IsCoding picture.coding.now }
    ensures { Answers (Unit {0}) (many (next_macroblock picture.entry.seq.now picture.entry.coding.now)) (answer_as (λ macroblocks. (macroblocks, tt)) result) from.old from.new }
{
    let mut cursor = SliceCursor::new(picture.seq);
    let mut macroblocks = ListOf::new(alloc);
    'macroblocks: loop {
        let mut macroblock = Macroblock::empty();
        let is_more = cursor.next(from, picture.coding, &mut macroblock)?;
        if !is_more {
            return Ok(macroblocks);
        }
        macroblocks.push(macroblock)?;
    }
}
