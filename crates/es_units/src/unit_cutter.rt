ghost use Rattle.std.specs.Prelude.{◌≡◌, ℕ, ◌+◌, ◌-◌, ◌^◌, ◌<◌, ◌≤◌, List, [], ◌∷◌, ◌++◌, length, map, take, drop, IfOk, OnOk, IfSome, Some, None};
ghost use Rattle.std.specs.Option.{option_map, option_to_list};
ghost use Rattle.es_units.specs.declared.units.Units.{Units};
ghost use Rattle.es_units.specs.Units.{cut_units};
ghost use Rattle.es_units.specs.Private.CutState.{ended_by, state_by, kept_behind, kept_passed};

use crate::cut_state::CutState;
use crate::joint_code::{NO_BYTE, TAIL_BYTES, find_code, last_bytes};
use crate::start_code::StartCode;
use list_types::OutOfMemory;
use std::alloc::Global;
use stream_constants::start_codes::START_CODE_BYTES;

/// A unit of a video stream.
#[derive(Clone, Copy)]
pub struct CutUnit<'a> {
    /// The place of its first byte in the stream, and the one behind its last.
    pub begin: u64,
    pub end: u64,
    /// Its bytes; of a longer unit than is kept the first ones.
    pub bytes: &'a [u8],
}

/// Cuts a video stream into units while its bytes come in pieces. It keeps the bytes of the open unit, or of the one that has
/// just ended, up to a stated most: a longer unit is cut as every other, and only its first bytes are kept.
#[derive(Drop)]
pub struct UnitCutter {
    /// The most bytes that are kept of a unit.
    most: usize,
    /// How many bytes were pushed.
    pushed: u64,
    /// The last bytes of the stream; before its first one FF.
    tail: [u8; TAIL_BYTES],
    cut: CutState,
    /// Where the unit begins that has ended with the last byte pushed, where one has.
    ended: Option<u64>,
    /// The first bytes of this unit, or else of the open one.
    kept: Vec<u8>,
    /// The start code of the open unit, where one has ended.
    start: [u8; START_CODE_BYTES],
}

impl UnitCutter {
    ghost use Rattle.es_units.specs.UnitCutter.{HasCut, place_of, front_of, most_kept, bytes_pushed, units_dropped, ended_of, open_bytes};

    /// A cutter before the first byte of a stream, which keeps at most so many bytes of a unit.
    pub fn new(alloc: Global, most: usize) -> UnitCutter
        requires { 4 ≤ most }
        ensures cut { HasCut [] [] result }
        ensures most { most_kept result ≡ most }
    {
        UnitCutter {
            most,
            pushed: 0,
            tail: [NO_BYTE; TAIL_BYTES],
            cut: CutState::new(),
            ended: None,
            kept: Vec::new(alloc),
            start: [0; START_CODE_BYTES],
        }
    }

    /// Takes the next bytes of the stream, up to the first start code among them that ends a unit, or all, and answers how
    /// many. An error is want of memory.
    pub fn push(&mut self, piece: &[u8]) -> Result<usize, OutOfMemory>
        requires fits { bytes_pushed self.old + length piece.now < 2 ^ 64 }
        ensures cut { (pushed : List ℕ) (given : List (ℕ × ℕ)) → HasCut pushed given self.old → IfOk result (λ count. HasCut (pushed ++ take count piece.now) (given ++ ended_of self.new) self.new) }
        ensures within { IfOk result (λ count. count ≤ length piece.now) }
        ensures some { IfOk result (λ count. 0 < length piece.now → 0 < count) }
        ensures all { (pushed : List ℕ) (given : List (ℕ × ℕ)) → HasCut pushed given self.old → IfOk result (λ count. ended_of self.new ≡ [] → count ≡ length piece.now) }
        ensures most { most_kept self.new ≡ most_kept self.old }
        ensures count { IfOk result (λ count. bytes_pushed self.new ≡ bytes_pushed self.old + count) }
    {
        self.go_on()?;
        let mut count = 0;
        while count < piece.len() && self.ended.is_none() {
            count += self.step(&piece[count..])?;
        }
        Ok(count)
    }

    /// The unit that has ended with the last byte pushed, where one has.
    pub fn ended(&self) -> Option<CutUnit<'_>>
        ensures place { map place_of (option_to_list result) ≡ ended_of self.now }
        ensures bytes { (pushed : List ℕ) (given : List (ℕ × ℕ)) → HasCut pushed given self.now → IfSome result (λ unit. unit.bytes.now ≡ front_of (most_kept self.now) pushed (place_of unit)) }
    {
        let begin = self.ended?;
        let end = self.cut.begin?;
        Some(CutUnit {
            begin,
            end,
            bytes: self.kept.as_slice(),
        })
    }

    /// The open unit, which the stream's end ends if it stands here. None is open before the first sequence header.
    pub fn last(&self) -> Option<CutUnit<'_>>
        ensures units { (pushed : List ℕ) (given : List (ℕ × ℕ)) → HasCut pushed given self.now → cut_units pushed ≡ option_map (λ unit. record { dropped = units_dropped self.now; cuts = given ++ place_of unit ∷ [] }) result }
        ensures bytes { (pushed : List ℕ) (given : List (ℕ × ℕ)) → HasCut pushed given self.now → IfSome result (λ unit. unit.bytes.now ≡ front_of (most_kept self.now) pushed (place_of unit)) }
    {
        let begin = self.cut.begin?;
        Some(CutUnit {
            begin,
            end: self.pushed,
            bytes: self.open_bytes(),
        })
    }

    /// How many units ended at the first sequence header or before it, and aren't given. It stands still at its type's end.
    pub fn dropped(&self) -> u32
        ensures { result ≡ units_dropped self.now }
    {
        self.cut.dropped
    }

    /// The bytes that are kept of the open unit.
    fn open_bytes(&self) -> &[u8]
        ensures { result.now ≡ open_bytes self.now }
    {
        if self.ended.is_some() {
            &self.start
        } else {
            self.kept.as_slice()
        }
    }

    /// Goes on to the open unit, where another has ended.
    fn go_on(&mut self) -> Result<(), OutOfMemory>
        ensures none { OnOk result (self.new.ended ≡ None) }
        ensures kept { OnOk result (self.new.kept.items ≡ open_bytes self.old) }
        ensures most { self.new.most ≡ self.old.most }
        ensures pushed { self.new.pushed ≡ self.old.pushed }
        ensures tail { self.new.tail ≡ self.old.tail }
        ensures cut { self.new.cut ≡ self.old.cut }
    {
        if self.ended.is_some() {
            self.kept.clear();
            self.kept.extend_from_slice(&self.start)?;
            self.ended = None;
        }
        Ok(())
    }

    /// Takes bytes up to the first start code's last one, or all, and answers how many.
    fn step(&mut self, piece: &[u8]) -> Result<usize, OutOfMemory>
        requires none { self.old.ended ≡ None }
        requires some { 0 < length piece.now }
        requires fits { self.old.pushed + length piece.now < 2 ^ 64 }
        ensures cut { (pushed : List ℕ) (given : List (ℕ × ℕ)) → HasCut pushed given self.old → IfOk result (λ count. HasCut (pushed ++ take count piece.now) (given ++ ended_of self.new) self.new) }
        ensures within { IfOk result (λ count. (0 < count) × (count ≤ length piece.now)) }
        ensures most { self.new.most ≡ self.old.most }
        ensures pushed { IfOk result (λ count. self.new.pushed ≡ self.old.pushed + count) }
    {
        let Some(code) = find_code(self.tail, piece) else {
            self.take_bytes(piece)?;
            return Ok(piece.len());
        };
        let count = code.at + 1;
        self.take_bytes(&piece[..count])?;
        self.pass(code)?;
        Ok(count)
    }

    /// Takes bytes, whatever start codes are among them.
    fn take_bytes(&mut self, bytes: &[u8]) -> Result<(), OutOfMemory>
        requires fits { self.old.pushed + length bytes.now < 2 ^ 64 }
        ensures kept { OnOk result (length self.old.kept.items ≤ self.old.most → self.new.kept.items ≡ kept_behind self.old.most self.old.cut.begin self.old.kept.items bytes.now) }
        ensures tail { OnOk result (self.new.tail ≡ drop (length bytes.now) (self.old.tail ++ bytes.now)) }
        ensures pushed { OnOk result (self.new.pushed ≡ self.old.pushed + length bytes.now) }
        ensures most { self.new.most ≡ self.old.most }
        ensures cut { self.new.cut ≡ self.old.cut }
        ensures ended { self.new.ended ≡ self.old.ended }
    {
        if self.cut.begin.is_some() {
            let room = self.most.saturating_sub(self.kept.len());
            self.kept
                .extend_from_slice(&bytes[..bytes.len().min(room)])?;
        }
        self.tail = last_bytes(self.tail, bytes);
        self.pushed += bytes.len() as u64;
        Ok(())
    }

    /// Passes a start code whose last byte is the last one that was taken.
    fn pass(&mut self, code: StartCode) -> Result<(), OutOfMemory>
        ensures cut { OnOk result (self.new.cut ≡ state_by self.old.cut (self.old.pushed - 4) code.value) }
        ensures ended { OnOk result (self.new.ended ≡ ended_by self.old.cut code.value) }
        ensures start { OnOk result (self.new.start ≡ 0 ∷ 0 ∷ 1 ∷ code.value ∷ []) }
        ensures kept { OnOk result (self.new.kept.items ≡ kept_passed self.new.ended (self.old.pushed - 4) self.old.cut.begin self.new.cut.begin self.old.kept.items self.new.start) }
        ensures most { self.new.most ≡ self.old.most }
        ensures pushed { self.new.pushed ≡ self.old.pushed }
        ensures tail { self.new.tail ≡ self.old.tail }
    {
        let at = self.pushed.saturating_sub(START_CODE_BYTES as u64);
        let is_open = self.cut.begin.is_some();
        self.ended = self.cut.pass(at, code);
        self.start = [0, 0, 1, code.value];
        if let Some(from) = self.ended {
            self.kept.truncate(at.saturating_sub(from) as usize);
        } else if !is_open && self.cut.begin.is_some() {
            self.kept.extend_from_slice(&self.start)?;
        }
        Ok(())
    }
}
