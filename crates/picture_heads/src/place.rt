ghost use Rattle.std.specs.Prelude.{◌≡◌, ℕ, true, false, ◌+◌, ◌*◌, ◌%◌, ◌-◌, ◌<◌, ◌≤◌, ◌++◌, List, length, Some, None, IfSome, MatchOption};
ghost use Rattle.bit_lists.specs.Fields.{AreBytes, bit_list};
ghost use Rattle.picture_heads.specs.Private.Walk.{LeadsIn};

use es_units::next_start_code;
use stream_constants::start_codes::{GROUP, GROUP_HEADER_BYTES, PICTURE, START_CODE_BYTES};

/// Bytes of a group of pictures header behind its start code, with the zero bits that close it (ISO/IEC 13818-2, 6.2.2.6).
const GROUP_BYTES: usize = GROUP_HEADER_BYTES - START_CODE_BYTES;

/// The place behind the picture's start code in a head. The bytes of a group of pictures header may look like a start
/// code, so they are skipped.
pub fn behind_picture_code(head: &[u8]) -> Option<usize>
    ensures { (n : ℕ) (following rest : List ℕ) → LeadsIn n (bit_list head.now ++ following) rest → length following % 8 ≡ 0 → 32 + length following ≤ length rest
        → (place : ℕ) × (result ≡ Some place) × (place + 3 < length head.now) × (8 * (length head.now - place) + length following ≡ length rest) }
{
    let mut at = 0;
    while let Some(code) = next_start_code(head, at) {
        let value = code.value;
        if value == PICTURE {
            return Some(code.at + START_CODE_BYTES);
        }
        at = behind_code(head, code.at, value);
    }
    None
}

/// The place where the walk goes on behind a start code that isn't the picture's.
fn behind_code(head: &[u8], code: usize, value: u8) -> usize
    requires { code + 3 < length head.now }
    ensures group { value ≡ GROUP → code + 8 ≤ length head.now → result ≡ code + 8 }
    ensures other { (value ≡ GROUP → ⊥) → result ≡ code + 4 }
    ensures within { result ≤ length head.now }
    ensures behind { code < result }
{
    let behind = code + START_CODE_BYTES;
    if value == GROUP && head.len() - behind >= GROUP_BYTES {
        behind + GROUP_BYTES
    } else {
        behind
    }
}
