ghost use Rattle.std.specs.Prelude.{◌≡◌, ◌≤◌, ◌<◌, ◌+◌, ◌*◌, ◌/◌, ◌^◌, ◌++◌, ◌∷◌, [], ℕ, List, Option, length, IfOk, MatchResult};
ghost use Rattle.std.specs.Option.{option_copied};
ghost use Rattle.syntax_types.specs.declared.picture.SeqState.{SeqState};
ghost use Rattle.syntax_types.specs.declared.slice.Slice.{Slice};
ghost use Rattle.picture_grammar.specs.Slice.{slice};
ghost use Rattle.macroblock_reader.specs.SliceFault.{refusal_told as slice_told};
ghost use Rattle.picture_reader.specs.Picture.{IsRefusedAs};
ghost use Rattle.picture_reader.specs.Told.{IsInside, RefusesTold};
ghost use Rattle.picture_reader.specs.UnitCursor.{IsNextPart, SliceBegins, SliceStands, StandsBehindSlices, bits_from};

use crate::coverage::{Coverage, Span};
use crate::fault::{PictureFault, fault_of_slice};
use crate::head::head_of;
use crate::part::{Part, bit_place, next_part};
use macroblock_reader::SliceFault;
use picture_grammar::grid::{columns, rows};
use stream_constants::start_codes::FIRST_SLICE;
use syntax_types::SeqState;
use video_headers::Headers;

/// What stands next in a unit.
#[derive(Clone, Copy)]
pub enum UnitPart {
    /// A slice of this row, which begins at this byte of the unit, behind its start code.
    Slice { row: u8, at: usize },
    /// The end of the unit, behind a sequence end code or without one.
    End { sequence_end: bool },
}

/// Where the next slice of a unit stands (6.2.2). It keeps no slice: who goes through a unit asks for the next part, reads
/// the slice that comes, and tells how many bits spell it and which columns it holds.
#[derive(Clone, Copy)]
pub struct UnitCursor {
    /// What the head of the unit says.
    pub headers: Headers,
    at: usize,
    is_first: bool,
    coverage: Coverage,
}

impl UnitCursor {
    /// Before the first slice of a unit, behind its head. A refusal is one of the head.
    pub fn new(unit: &[u8], before: Option<&SeqState>) -> Result<UnitCursor, PictureFault>
        requires { length unit.now ≤ 2 ^ 60 }
        ensures { MatchResult result (StandsBehindSlices (option_copied before.entry) unit.now []) (IsRefusedAs (option_copied before.entry) unit.now) }
    {
        let headers = match head_of(unit, before) {
            Ok(headers) => headers,
            Err(fault) => return Err(fault),
        };
        Ok(UnitCursor {
            headers,
            at: headers.slices_at as usize,
            is_first: true,
            coverage: Coverage::new(),
        })
    }

    /// What stands next in the unit: the start of a slice, or its end where all macroblocks of the picture were held in
    /// order, each once. A refusal is one of the start code or what stands in its place, or Uncovered.
    pub fn next(&self, unit: &[u8]) -> Result<UnitPart, PictureFault>
        requires length { length unit.now ≤ 2 ^ 60 }
        requires stands { (before : Option SeqState) × (slices : List Slice) × StandsBehindSlices before unit.now slices self.now }
        ensures { (before : Option SeqState) (slices : List Slice) → StandsBehindSlices before unit.now slices self.now →
            MatchResult result (IsNextPart before unit.now slices self.now) (IsRefusedAs before unit.now) }
    {
        let part = match next_part(unit, self.at, self.is_first) {
            Ok(part) => part,
            Err(fault) => return Err(fault),
        };
        match part {
            Part::Slice { code, behind } => Ok(UnitPart::Slice {
                row: code - FIRST_SLICE,
                at: behind,
            }),
            Part::End { sequence_end } => {
                let count = rows(&self.headers.seq, &self.headers.coding)
                    * columns(&self.headers.seq);
                let is_whole = self.coverage.is_whole(count);
                if is_whole {
                    Ok(UnitPart::End { sequence_end })
                } else {
                    Err(PictureFault::Uncovered { at: 0 })
                }
            }
        }
    }

    /// Behind one more slice, of this row and with this span, which so many bits from this byte on spell.
    pub fn past(self, unit: &[u8], row: u8, at: usize, bits: u64, span: Span) -> UnitCursor
        requires length { length unit.now ≤ 2 ^ 60 }
        requires at { at ≤ length unit.now }
        requires bits { bits ≤ length (bits_from unit.now at) }
        requires some { span.first < span.end }
        requires few { span.end ≤ 4096 }
        ensures stands { (before : Option SeqState) (slices : List Slice) (found : Slice) → StandsBehindSlices before unit.now slices self →
            SliceBegins slices unit.now self row at → SliceStands self unit.now row at bits span found →
            StandsBehindSlices before unit.now (slices ++ found ∷ []) result }
        ensures headers { result.headers ≡ self.headers }
        ensures onward { result.at ≡ at + (bits + 7) / 8 }
    {
        UnitCursor {
            headers: self.headers,
            at: at + whole_bytes(bits),
            is_first: false,
            coverage: self.coverage.with(row, columns(&self.headers.seq), span),
        }
    }

    /// The fault of a slice of this row that begins at this byte, as one of its unit.
    pub fn fault_of(&self, unit: &[u8], row: u8, at: usize, fault: SliceFault) -> PictureFault
        requires length { length unit.now ≤ 2 ^ 60 }
        requires at { at ≤ length unit.now }
        requires inside { IsInside fault }
        requires refused { RefusesTold (slice self.now.headers.seq self.now.headers.coding row) (slice_told fault) (length (bits_from unit.now at)) (bits_from unit.now at) }
        ensures { (before : Option SeqState) (slices : List Slice) → StandsBehindSlices before unit.now slices self.now →
            SliceBegins slices unit.now self.now row at → IsRefusedAs before unit.now result }
    {
        fault_of_slice(fault, bit_place(at))
    }
}

/// The bytes that so many bits begin.
fn whole_bytes(bits: u64) -> usize
    requires { bits ≤ 2 ^ 63 }
    ensures { result ≡ (bits + 7) / 8 }
{
    bits.div_ceil(8) as usize
}
