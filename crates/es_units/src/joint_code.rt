//! Start codes of a stream whose bytes come in pieces (ISO/IEC 13818-2, 6.2.1).
ghost use Rattle.std.specs.Prelude.{◌≡◌, ℕ, false, ◌+◌, ◌<◌, ◌++◌, length, drop, get_or, IfSome, MatchOption, Some};
ghost use Rattle.es_units.specs.StartCodes.{is_start_code_at, start_code_at};

use crate::start_code::{StartCode, next_start_code};

/// How many bytes before a piece a start code may begin in that ends in the piece.
pub const TAIL_BYTES: usize = 3;

/// A byte with which no start code begins or goes on.
pub const NO_BYTE: u8 = 0xFF;

/// The first start code of the last bytes before a piece and the piece, by its place in both together.
pub fn find_code(tail: [u8; TAIL_BYTES], piece: &[u8]) -> Option<StartCode>
    ensures found { IfSome result (λ code. (code.at + 3 < length (tail ++ piece.now)) × (start_code_at (tail ++ piece.now) code.at ≡ Some code.value)) }
    ensures first { MatchOption result ((at : ℕ) → is_start_code_at (tail ++ piece.now) at ≡ false) (λ code. (at : ℕ) → at < code.at → is_start_code_at (tail ++ piece.now) at ≡ false) }
{
    let joint = [
        tail[0],
        tail[1],
        tail[2],
        byte_of(piece, 0),
        byte_of(piece, 1),
        byte_of(piece, 2),
    ];
    let count = piece.len().min(TAIL_BYTES);
    if let Some(code) = next_start_code(&joint[..TAIL_BYTES + count], 0) {
        return Some(code);
    }
    let Some(code) = next_start_code(piece, 0) else {
        return None;
    };
    Some(StartCode {
        at: code.at + TAIL_BYTES,
        value: code.value,
    })
}

/// The last bytes behind a piece, by those before it.
pub fn last_bytes(tail: [u8; TAIL_BYTES], piece: &[u8]) -> [u8; TAIL_BYTES]
    ensures { result ≡ drop (length piece.now) (tail ++ piece.now) }
{
    match piece.len() {
        0 => tail,
        1 => [tail[1], tail[2], piece[0]],
        2 => [tail[2], piece[0], piece[1]],
        len => [piece[len - 3], piece[len - 2], piece[len - 1]],
    }
}

/// A byte of a piece, if it stands there.
fn byte_of(piece: &[u8], at: usize) -> u8
    ensures { result ≡ get_or piece.now at 255 }
{
    match piece.get(at) {
        Some(byte) => *byte,
        None => NO_BYTE,
    }
}
