//! The head of a unit: the headers of one coded picture (6.2.2).
ghost use Rattle.std.specs.Prelude.{◌≡◌, ℕ, IfOk, IfErr, IfSome, IsErrOf};
ghost use Rattle.std.specs.Option.{option_copied};
ghost use Rattle.shelf_io.specs.Causes.{SourceCauses};
ghost use Rattle.shelf_io.specs.Counts.{Rose};
ghost use Rattle.shelf_io.specs.Source.{Takes};
ghost use Rattle.bit_lists.specs.Fields.{bit_list};
ghost use Rattle.bit_cursor.specs.BitReader.{bits_left, place, faults_of, absences_of};
ghost use Rattle.picture_grammar.specs.Head.{head};
ghost use Rattle.grammar_reading.specs.BitsRead.{Explains, ExplainsFrom};
ghost use Rattle.video_headers.specs.HeadFault.{refusal_told};
ghost use Rattle.video_headers.specs.HeadRead.{HeadRead, HeadersRead};
ghost use Rattle.video_headers.specs.Runs.{Runs};
ghost use Rattle.video_headers.specs.Private.BehindHead.{BehindHead};
ghost use Rattle.video_headers.specs.Private.Reading.{Answers};
ghost use Rattle.video_headers.specs.Private.Wholes.{Wholes};

use crate::code::read_next_code;
use crate::fault::HeadFault;
use crate::parts::{read_group_part, read_picture_part, read_sequence_part};
use crate::why::Why;
use bit_cursor::BitReader;
use shelf_io::{Fault, Source};
use syntax_types::{PicCoding, SeqState};

/// What a head says.
#[derive(Clone, Copy)]
pub struct Headers {
    /// The state in force for this picture, with the matrices of its own extensions; the one before the next unit.
    pub seq: SeqState,
    pub coding: PicCoding,
    /// The bytes of the head: up to the first slice's start code and the zero bytes before it.
    pub slices_at: u64,
}

/// A head, and the start code of the first slice behind it.
#[derive(Clone, Copy)]
pub struct HeadEnd {
    pub headers: Headers,
    /// The last byte of the first slice's start code.
    pub first_slice: u8,
}

/// The headers of the unit that a source begins with, behind a state or none. Bytes are taken up to the end of the first
/// slice's start code, and at most four more. A refusal is the first one in reading order; what was taken before it is lost.
pub fn read_headers<S: Source>(
    source: &mut S,
    before: Option<&SeqState>,
) -> Result<Headers, HeadFault>
    ensures read { IfOk result (λ headers. IfSome (S.left source.old) (λ bytes. HeadersRead (option_copied before.entry) headers bytes (S.left source.new))) }
    ensures refused { IfErr result (λ fault. IfSome (S.left source.old) (λ bytes. ExplainsFrom (head (option_copied before.entry)) (refusal_told fault) (bit_list bytes) 0)) }
    ensures taken { (count : ℕ) × Takes (S.left source.old) (S.left source.new) (S.most source.old) (S.most source.new) count }

    ensures causes { SourceCauses S.faults S.absences (IsErrOf result (HeadFault.Outside Fault.Failed)) (IsErrOf result (HeadFault.Outside Fault.Missing)) source.old source.new }
    ensures keeps { S.keeps source.old source.new }
{
    let mut reader = BitReader::new(source);
    let found = read_head(&mut reader, before)?;
    Ok(found.headers)
}

/// The head of the unit that a reader's source begins with, behind a state or none. The reader stops behind the start code
/// of the first slice, which is answered too, since a reader can't go back before it. A refusal is the first one in reading
/// order; what was taken before it is lost.
pub fn read_head<S: Source>(
    reader: &mut BitReader<'_, S>,
    before: Option<&SeqState>,
) -> Result<HeadEnd, HeadFault>
    requires { place reader.old ≡ 0 }
    ensures read { IfOk result (λ found. IfSome (bits_left reader.old) (λ bits. HeadRead (option_copied before.entry) found bits reader.new)) }
    ensures refused { IfErr result (λ fault. Explains (head (option_copied before.entry)) reader.old (refusal_told fault)) }
    ensures runs { Runs reader.old reader.new }

    ensures failed { IsErrOf result (HeadFault.Outside Fault.Failed) → Rose (faults_of reader.old) (faults_of reader.new) }
    ensures missing { IsErrOf result (HeadFault.Outside Fault.Missing) → Rose (absences_of reader.old) (absences_of reader.new) }
{
    read_whole_head(reader, before)
}

/// The same of a reader at a whole byte.
fn read_whole_head<S: Source>(
    reader: &mut BitReader<'_, S>,
    before: Option<&SeqState>,
) -> Result<HeadEnd, HeadFault>
    ensures { Answers (head (option_copied before.entry)) (λ found. (found.headers.seq, found.headers.coding)) result (Wholes reader.old) (λ found. BehindHead found reader.new) reader.old reader.new }
{
    let first = read_next_code(reader)?;
    let sequence = read_sequence_part(reader, before, first)?;
    let group = read_group_part(reader, sequence.seq, sequence.next)?;
    let picture = read_picture_part(reader, sequence.seq, group)?;
    let slice = picture.next;
    let has_slice = slice.is_slice();
    if !has_slice {
        let no_slice = slice.refusal(Why::BadHeader);
        return Err(no_slice);
    }
    let first_slice = slice.byte();
    Ok(HeadEnd {
        headers: Headers {
            seq: picture.seq,
            coding: picture.coding,
            slices_at: slice.from / 8,
        },
        first_slice,
    })
}
