ghost use Rattle.std.specs.Prelude.{◌≡◌, ℕ, true, false, ◌+◌, ◌<◌, ◌≤◌, length, Some, None, IfSome, MatchOption};
ghost use Rattle.es_units.specs.StartCodes.{is_start_code_at, start_code_at, is_sequence_header, is_unit_start};
ghost use Rattle.stream_constants.specs.SliceCodes.{is_slice};

use stream_constants::start_codes::{
    FIRST_SLICE, GROUP, LAST_SLICE, PICTURE, SEQUENCE_HEADER, START_CODE_BYTES,
};

/// A start code: where it begins, and its value.
#[derive(Clone, Copy)]
pub struct StartCode {
    pub at: usize,
    pub value: u8,
}

impl StartCode {
    /// True for the start code of a slice.
    pub fn is_slice(self) -> bool
        ensures { result ≡ is_slice self.value }
    {
        FIRST_SLICE <= self.value && self.value <= LAST_SLICE
    }

    /// True for the start code of a sequence header.
    pub fn is_sequence_header(self) -> bool
        ensures { result ≡ is_sequence_header self.value }
    {
        self.value == SEQUENCE_HEADER
    }

    /// True for the start codes with which a unit may begin.
    pub fn is_unit_start(self) -> bool
        ensures { result ≡ is_unit_start self.value }
    {
        self.value == SEQUENCE_HEADER || self.value == GROUP || self.value == PICTURE
    }
}

/// The first start code at a place or behind it.
pub fn next_start_code(es: &[u8], from: usize) -> Option<StartCode>
    requires { from ≤ length es.now }
    ensures found { IfSome result (λ code. (from ≤ code.at) × (code.at + 3 < length es.now) × (start_code_at es.now code.at ≡ Some code.value)) }
    ensures first { MatchOption result ((at : ℕ) → from ≤ at → is_start_code_at es.now at ≡ false) (λ code. (at : ℕ) → from ≤ at → at < code.at → is_start_code_at es.now at ≡ false) }
{
    let mut at = from;
    while es.len() - at >= START_CODE_BYTES {
        let third = es[at + 2];
        if third > 1 {
            at += 3;
        } else if third == 0 {
            at += 1;
        } else if es[at] == 0 && es[at + 1] == 0 {
            return Some(StartCode {
                at,
                value: es[at + 3],
            });
        } else {
            at += 3;
        }
    }
    None
}
