ghost use Rattle.std.specs.Prelude.{◌≡◌, ◌<◌, ◌+◌, ◌⊎◌, ◌++◌, ◌∷◌, [], ℕ, List, IfOk, OnErr, IfErr, IfSome, IsErrOf, IsNone, IsTrue, MatchResult, Some, true, false};
ghost use Rattle.shelf_io.specs.Counts.{Rose};
ghost use Rattle.bit_cursor.specs.BitReader.{bits_left, place, faults_of, absences_of, KeepsSource};
ghost use Rattle.syntax_types.specs.declared.macroblock.Macroblock.{Macroblock};
ghost use Rattle.syntax_types.specs.declared.picture.SeqState.{SeqState};
ghost use Rattle.picture_grammar.specs.Grammar.{Next};
ghost use Rattle.picture_grammar.specs.Picture.{IsCoding};
ghost use Rattle.picture_grammar.specs.Slice.{ClosesSlice, next_macroblock};
ghost use Rattle.grammar_reading.specs.BitsRead.{Advances, BeginsWith, Explains, Reads};
ghost use Rattle.macroblock_reader.specs.SliceFault.{refusal_told};
ghost use Rattle.macroblock_reader.specs.SliceCursor.{StandsBehind, columns_behind, next_of};

use crate::fault::SliceFault;
use crate::macroblock::read_macroblock_into;
use bit_cursor::BitReader;
use picture_grammar::limits::{MACROBLOCK_SIZE, SLICE_CLOSING_BITS};
use shelf_io::{Fault, Source};
use syntax_types::{Macroblock, PicCoding, SeqState};

/// Where the next macroblock of a slice stands in its row. It keeps no macroblock: one after another is read into one
/// that is lent.
#[derive(Clone, Copy)]
pub struct SliceCursor {
    first: bool,
    columns_left: u16,
}

impl SliceCursor {
    /// Before the first macroblock of a slice.
    pub fn new(seq: &SeqState) -> SliceCursor
        ensures { StandsBehind seq.now [] result }
    {
        let width = u32::from(seq.width) + u32::from(MACROBLOCK_SIZE - 1);
        SliceCursor {
            first: true,
            columns_left: (width / u32::from(MACROBLOCK_SIZE)) as u16,
        }
    }

    /// Reads the next macroblock into one that is lent, whatever it holds, and answers true; false where the slice is
    /// closed there (6.2.4). The answer is the kind and the place of the refusal where neither stands there, and Outside
    /// where the source failed. After an answer that isn't Ok the macroblock may hold anything, and the next bits are
    /// still the source's in order, behind some that were taken. It takes no memory.
    pub fn next<S: Source>(
        &mut self,
        from: &mut BitReader<'_, S>,
        coding: &PicCoding,
        into: &mut Macroblock,
    ) -> Result<bool, SliceFault>
        requires { IsCoding coding.now }
        ensures ok { (seq : SeqState) (before : List Macroblock) → StandsBehind seq before self.old →
            IfOk result (λ is_more. Reads (next_macroblock seq coding.now before) (next_of into.new is_more) from.old from.new) }
        ensures exact { (seq : SeqState) (before : List Macroblock) (value : Next Macroblock (Unit {0})) (rest : List ℕ) → StandsBehind seq before self.old →
            BeginsWith (next_macroblock seq coding.now before) value from.old rest →
            MatchResult result (λ is_more. (next_of into.new is_more ≡ value) × (bits_left from.new ≡ Some rest)) (λ fault. IsNone (refusal_told fault)) }
        ensures refused { (seq : SeqState) (before : List Macroblock) → StandsBehind seq before self.old →
            IfErr result (λ fault. Explains (next_macroblock seq coding.now before) from.old (refusal_told fault)) }
        ensures behind { (seq : SeqState) (before : List Macroblock) → StandsBehind seq before self.old →
            IfOk result (λ is_more. IsTrue is_more → StandsBehind seq (before ++ into.new ∷ []) self.new) }
        ensures fewer { IfOk result (λ is_more. IsTrue is_more → columns_behind self.new < columns_behind self.old) }
        ensures counted { IfOk result (λ is_more. IsTrue is_more → columns_behind self.new + (into.new.skipped_before + 1) ≡ columns_behind self.old) }
        ensures advances { Advances from.old from.new }

        ensures memory { IsErrOf result SliceFault.OutOfMemory → ⊥ }
        ensures failed { IsErrOf result (SliceFault.Outside Fault.Failed) → Rose (faults_of from.old) (faults_of from.new) }
        ensures missing { IsErrOf result (SliceFault.Outside Fault.Missing) → Rose (absences_of from.old) (absences_of from.new) }
        ensures keeps { KeepsSource from.old from.new }
    {
        let closed = self.is_closed(from)?;
        if closed {
            return Ok(false);
        }
        read_macroblock_into(from, coding, self.first, self.columns_left, into)?;
        self.first = false;
        self.columns_left -= into.skipped_before + 1;
        Ok(true)
    }

    /// Whether the next bits close the slice (6.2.4): 23 zero bits, or nothing but zero bits to the end. They are left as
    /// they are. Before its first macroblock a slice is never closed. The answer is Outside where the source failed. It
    /// takes no memory.
    pub fn is_closed<S: Source>(&self, from: &mut BitReader<'_, S>) -> Result<bool, SliceFault>
        ensures closed { IfOk result (λ closed. closed ≡ true → (self.now.first ≡ false) × IfSome (bits_left from.old) ClosesSlice) }
        ensures going { IfOk result (λ closed. closed ≡ false → (self.now.first ≡ true) ⊎ IfSome (bits_left from.old) (λ bits. ClosesSlice bits → ⊥)) }
        ensures left { bits_left from.new ≡ bits_left from.old }
        ensures place { place from.new ≡ place from.old }

        ensures memory { IsErrOf result SliceFault.OutOfMemory → ⊥ }
        ensures outside { IfErr result (λ fault. IsNone (refusal_told fault)) }
        ensures failed { IsErrOf result (SliceFault.Outside Fault.Failed) → Rose (faults_of from.old) (faults_of from.new) }
        ensures missing { IsErrOf result (SliceFault.Outside Fault.Missing) → Rose (absences_of from.old) (absences_of from.new) }
        ensures keeps { KeepsSource from.old from.new }
    {
        if self.first {
            return Ok(false);
        }
        let (bits, _known) = from.peek(SLICE_CLOSING_BITS as u32)?;
        Ok(bits == 0)
    }
}
