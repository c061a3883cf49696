ghost use Rattle.std.specs.Prelude.{◌≡◌, ℕ, true, false, ◌+◌, ◌<◌, ◌≤◌, length, Some, None, IfSome, MatchOption};
ghost use Rattle.es_units.specs.StartCodes.{has_code, is_sequence_header};
ghost use Rattle.es_units.specs.Units.{is_behind_slice, is_unit_cut, first_sequence};

use crate::start_code::next_start_code;

/// The place of the first sequence header, in bytes of the stream, or none where none stands (6.2.1, Table 6-1). Takes no memory.
pub fn find_sequence(es: &[u8]) -> Option<usize>
    ensures at { result ≡ first_sequence es.now }
{
    let mut from = 0;
    while let Some(code) = next_start_code(es, from) {
        if code.is_sequence_header() {
            return Some(code.at);
        }
        from = code.at + 1;
    }
    None
}

/// The first cut at a place or behind it, where no slice goes before the place without a header between.
pub fn next_cut(es: &[u8], from: usize) -> Option<usize>
    requires within { from ≤ length es.now }
    requires behind_header { is_behind_slice es.now from ≡ false }
    ensures found { IfSome result (λ cut. (from ≤ cut) × (cut + 3 < length es.now) × (is_unit_cut es.now cut ≡ true)) }
    ensures first { MatchOption result ((at : ℕ) → from ≤ at → is_unit_cut es.now at ≡ false) (λ cut. (at : ℕ) → from ≤ at → at < cut → is_unit_cut es.now at ≡ false) }
{
    let mut at = from;
    let mut behind_slice = false;
    while let Some(code) = next_start_code(es, at) {
        if code.is_unit_start() {
            if behind_slice {
                return Some(code.at);
            }
        } else if code.is_slice() {
            behind_slice = true;
        }
        at = code.at + 1;
    }
    None
}
