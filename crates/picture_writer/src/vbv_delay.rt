ghost use Rattle.std.specs.Prelude.{◌≡◌, ◌+◌, ◌*◌, ◌≤◌, ◌<◌, ◌^◌, ◌-◌, ℕ, List, drop, length, true, false, IfSome, IfNone};
ghost use Rattle.bit_lists.specs.Fields.{bit, bit_list};
ghost use Rattle.picture_writer.specs.VbvDelay.{CodeStands, IsPictureCode, BeginsWithHeader, HasPictureHeader, SetsDelay};
ghost use Rattle.picture_writer.specs.Private.ExtraInformation.{Closes};
ghost use Rattle.picture_writer.specs.Private.Scan.{IsBehindGroup};

use stream_constants::start_codes::{GROUP, GROUP_HEADER_BYTES, PICTURE, START_CODE_BYTES};
use syntax_types::{B_PICTURE, I_PICTURE};

/// The place of vbv_delay in bits, behind the start code: temporal_reference and picture_coding_type stand before it.
pub const DELAY_PLACE: usize = 13;

/// Sets vbv_delay in the picture header of a unit to FFFF, which says that the rate isn't constant (ISO/IEC 13818-2, 6.3.9).
/// Answers false, with the unit as it was, where no whole picture header stands.
///
/// The first picture start code that isn't within a group of pictures header is the unit's.
pub fn set_vbv_delay(unit: &mut [u8]) -> bool
    ensures set { result ≡ true → (at : ℕ) × HasPictureHeader unit.old at × SetsDelay unit.old unit.new at }
    ensures none { result ≡ false → (at : ℕ) → HasPictureHeader unit.old at → ⊥ }
    ensures same { result ≡ false → unit.new ≡ unit.old }
{
    let Some(at) = picture_code(unit) else {
        return false;
    };
    if !begins_with_header(&unit[at + START_CODE_BYTES..]) {
        return false;
    }
    set_bits(unit, at);
    true
}

// The place of the unit's picture start code.
fn picture_code(unit: &[u8]) -> Option<usize>
    ensures some { IfSome result (λ at. IsPictureCode unit.now at) }
    ensures none { IfNone result ((at : ℕ) → IsPictureCode unit.now at → ⊥) }
{
    let mut outside = 0;
    for at in 0..unit.len() {
        outside = behind_group(unit, at, outside);
        if is_outside_code(unit, at, outside) {
            return Some(at);
        }
    }
    None
}

// The first place behind the group of pictures header that begins at a place, or the one before where none does.
fn behind_group(unit: &[u8], at: usize, before: usize) -> usize
    requires { at < length unit.now }
    ensures { IsBehindGroup unit.now at before result }
{
    if code_stands(unit, at, GROUP) {
        at + GROUP_HEADER_BYTES
    } else {
        before
    }
}

// A picture start code stands there, and no group of pictures header reaches so far.
fn is_outside_code(unit: &[u8], at: usize, outside: usize) -> bool
    requires { at < length unit.now }
    ensures yes { result ≡ true → (outside ≤ at) × CodeStands PICTURE unit.now at }
    ensures no { result ≡ false → outside ≤ at → CodeStands PICTURE unit.now at → ⊥ }
{
    at >= outside && code_stands(unit, at, PICTURE)
}

// The start code with this last byte stands there.
fn code_stands(unit: &[u8], at: usize, byte: u8) -> bool
    requires { at ≤ length unit.now }
    ensures yes { result ≡ true → CodeStands byte unit.now at }
    ensures no { result ≡ false → CodeStands byte unit.now at → ⊥ }
{
    unit.len() - at >= START_CODE_BYTES
        && unit[at] == 0
        && unit[at + 1] == 0
        && unit[at + 2] == 1
        && unit[at + 3] == byte
}

// Behind a start code a whole picture header stands.
fn begins_with_header(bytes: &[u8]) -> bool
    ensures yes { result ≡ true → BeginsWithHeader bytes.now }
    ensures no { result ≡ false → BeginsWithHeader bytes.now → ⊥ }
{
    // 29 bits end in the fourth byte
    if bytes.len() < 4 {
        return false;
    }
    let kind = bytes[1] / 8 % 8;
    if kind < I_PICTURE || kind > B_PICTURE {
        return false;
    }
    // behind them P-pictures have four bits, full_pel_forward_vector and forward_f_code, and B-pictures eight
    information_closes(bytes, 25 + 4 * usize::from(kind))
}

// Bytes of extra information, each behind a bit 1, a bit 0 and zero bits to a whole byte stand from a bit on.
fn information_closes(bytes: &[u8], from: usize) -> bool
    requires { from < 2 ^ 6 }
    ensures yes { result ≡ true → Closes (drop from (bit_list bytes.now)) }
    ensures no { result ≡ false → Closes (drop from (bit_list bytes.now)) → ⊥ }
{
    let mut byte = from / 8;
    let mut behind = 7 - from % 8;
    while byte < bytes.len() {
        if (bytes[byte] >> behind) % 2 == 0 {
            return bytes[byte] % power(behind) == 0;
        }
        let (next_byte, next_behind) = nine_on(byte, behind);
        byte = next_byte;
        behind = next_behind;
    }
    false
}

// The byte and the number of bits behind in it, nine bits on.
fn nine_on(byte: usize, behind: usize) -> (usize, usize)
    requires byte { byte < 2 ^ 63 }
    requires behind { behind < 8 }
    ensures few { result.1 < 8 }
    ensures place { 8 * result.0 + (7 - result.1) ≡ 8 * byte + (7 - behind) + 9 }
    ensures later { byte < result.0 }
{
    if behind == 0 {
        (byte + 2, 7)
    } else {
        (byte + 1, behind - 1)
    }
}

// A power of two.
fn power(n: usize) -> u8
    requires { n < 8 }
    ensures { result ≡ 2 ^ n }
{
    1 << n
}

// Sets the three lowest bits of a byte, the next byte, and the five highest bits of the third.
fn set_bits(unit: &mut [u8], at: usize)
    requires { at + 8 ≤ length unit.old }
    ensures { SetsDelay unit.old unit.new at }
{
    unit[at + 5] = unit[at + 5] / 8 * 8 + 7;
    unit[at + 6] = 0xFF;
    unit[at + 7] = 0xF8 + unit[at + 7] % 8;
}
