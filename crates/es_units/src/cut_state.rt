ghost use Rattle.std.specs.Prelude.{◌≡◌, ◌+◌, ◌-◌, ◌^◌, min, false, Some, None, if◌then◌else◌};
ghost use Rattle.es_units.specs.StartCodes.{is_sequence_header};
ghost use Rattle.es_units.specs.Private.CutState.{ended_by, state_by};

use crate::start_code::StartCode;

/// What is cut of the front of a video stream.
#[derive(Clone, Copy)]
pub struct CutState {
    /// Behind a slice, and no header with which a unit may begin has come since.
    pub behind_slice: bool,
    /// Where the open unit begins, once a sequence header has come.
    pub begin: Option<u64>,
    /// How many units ended at the first sequence header or before it. It stands still at its type's end.
    pub dropped: u32,
}

impl CutState {
    /// Nothing is cut.
    pub fn new() -> CutState
        ensures { (result.behind_slice ≡ false) × (result.begin ≡ None) × (result.dropped ≡ 0) }
    {
        CutState {
            behind_slice: false,
            begin: None,
            dropped: 0,
        }
    }

    /// Passes the next start code, which begins at a place of the stream, and answers where the unit begins that it ends.
    pub fn pass(&mut self, at: u64, code: StartCode) -> Option<u64>
        ensures ended { result ≡ ended_by self.old code.value }
        ensures state { self.new ≡ state_by self.old at code.value }
    {
        if !code.is_unit_start() {
            self.behind_slice = self.behind_slice || code.is_slice();
            return None;
        }
        let is_cut = self.behind_slice;
        self.behind_slice = false;
        match self.begin {
            Some(begin) => {
                if !is_cut {
                    return None;
                }
                self.begin = Some(at);
                Some(begin)
            }
            None => {
                self.begin_first(at, code, is_cut);
                None
            }
        }
    }

    /// Passes a header with which a unit may begin, where no sequence header has come before it.
    fn begin_first(&mut self, at: u64, code: StartCode, is_cut: bool)
        requires { self.old.begin ≡ None }
        ensures dropped { self.new.dropped ≡ (if is_cut then min (self.old.dropped + 1) (2 ^ 32 - 1) else self.old.dropped) }
        ensures begin { self.new.begin ≡ (if is_sequence_header code.value then Some at else None) }
        ensures slice { self.new.behind_slice ≡ self.old.behind_slice }
    {
        if is_cut {
            self.dropped = self.dropped.saturating_add(1);
        }
        if code.is_sequence_header() {
            self.begin = Some(at);
        }
    }
}
