//! What stands behind the head or a slice: one more slice, or the end of the unit (6.2.2, 5.2.3).
ghost use Rattle.std.specs.Prelude.{◌≡◌, ◌≤◌, ◌<◌, ◌+◌, ◌*◌, ◌^◌, ◌≢◌, ℕ, List, [], length, get_or, IfOk, MatchResult};
ghost use Rattle.syntax_types.specs.declared.picture.PicCoding.{PicCoding};
ghost use Rattle.syntax_types.specs.declared.picture.SeqState.{SeqState};
ghost use Rattle.syntax_types.specs.declared.slice.Slice.{Slice};
ghost use Rattle.picture_grammar.specs.StartCode.{only_zero_bytes};
ghost use Rattle.stream_constants.specs.SliceCodes.{is_slice as is_slice_of};
ghost use Rattle.picture_grammar.specs.Picture.{next_slice};
ghost use Rattle.picture_reader.specs.PictureFault.{refusal_told};
ghost use Rattle.picture_reader.specs.Private.Parts.{IsSeen, IsSeenWithin, IsWithin, PartRead, ZerosTo};
ghost use Rattle.picture_reader.specs.UnitCursor.{IsBehind, bits_from};
ghost use Rattle.picture_reader.specs.Told.{RefusesTold};

use crate::fault::PictureFault;
use stream_constants::start_codes::{FIRST_SLICE, LAST_SLICE, SEQUENCE_END};

/// Bits of a byte.
const BYTE_BITS: u64 = 8;

/// Zero bytes of a start code prefix, before its byte 1.
const PREFIX_ZEROS: usize = 2;

/// What stands next in a unit.
#[derive(Clone, Copy)]
pub enum Part {
    /// A slice with this slice_start_code, which ends before this byte.
    Slice { code: u8, behind: usize },
    /// The end of the unit, behind a sequence end code or without one.
    End { sequence_end: bool },
}

/// What is seen behind zero bytes.
#[derive(Clone, Copy)]
pub enum Seen {
    /// The end of the unit.
    End,
    /// Another byte, at this place.
    Byte { place: usize },
    /// A start code prefix at this place, at the end of the unit.
    Cut { place: usize },
    /// A start code at this place.
    Code { place: usize, code: u8 },
}

/// What stands from this byte of a unit on, behind the head or behind a slice.
pub fn next_part(unit: &[u8], at: usize, is_first: bool) -> Result<Part, PictureFault>
    requires length { length unit.now ≤ 2 ^ 60 }
    requires at { at ≤ length unit.now }
    ensures gives { (seq : SeqState) (coding : PicCoding) (before : List Slice) → IsBehind is_first before →
        MatchResult result (λ part. PartRead seq coding before part unit.now at)
        (λ fault. RefusesTold (next_slice seq coding before) (refusal_told fault) (8 * length unit.now) (bits_from unit.now at)) }
    ensures within { IfOk result (λ part. IsWithin part unit.now at) }
{
    match seen_from(unit, at) {
        Seen::End => {
            if is_first {
                return Err(PictureFault::End {
                    at: bit_place(unit.len()),
                });
            }
            Ok(Part::End {
                sequence_end: false,
            })
        }
        Seen::Byte { place } => Err(PictureFault::BadHeader {
            at: bit_place(place),
        }),
        Seen::Cut { place } => Err(PictureFault::End {
            at: bit_place(place),
        }),
        Seen::Code { place, code } => {
            if is_slice(code) {
                return Ok(Part::Slice {
                    code,
                    behind: place + 4,
                });
            }
            if is_first {
                return Err(PictureFault::BadHeader {
                    at: bit_place(place),
                });
            }
            if code != SEQUENCE_END {
                return Err(PictureFault::BadHeader {
                    at: bit_place(place),
                });
            }
            behind_sequence_end(unit, place + 4)?;
            Ok(Part::End { sequence_end: true })
        }
    }
}

/// Whether a start code is that of a slice (Table 6-1).
fn is_slice(code: u8) -> bool
    ensures { result ≡ is_slice_of code }
{
    FIRST_SLICE <= code && code <= LAST_SLICE
}

/// Zero bytes to the end of the unit, behind a sequence end code.
fn behind_sequence_end(unit: &[u8], at: usize) -> Result<(), PictureFault>
    requires length { length unit.now ≤ 2 ^ 60 }
    requires at { at ≤ length unit.now }
    ensures { MatchResult result (λ _. (zeros : List ℕ × Unit {0}) × only_zero_bytes.Spells zeros (bits_from unit.now at) [])
        (λ fault. RefusesTold only_zero_bytes (refusal_told fault) (8 * length unit.now) (bits_from unit.now at)) }
{
    match seen_from(unit, at) {
        Seen::End => Ok(()),
        Seen::Byte { place } => Err(PictureFault::BadHeader {
            at: bit_place(place),
        }),
        Seen::Cut { place } => Err(PictureFault::BadHeader {
            at: bit_place(place),
        }),
        Seen::Code { place, code: _ } => Err(PictureFault::BadHeader {
            at: bit_place(place),
        }),
    }
}

/// The place of a byte in bits.
pub fn bit_place(byte: usize) -> u64
    requires { byte ≤ 2 ^ 60 }
    ensures { result ≡ 8 * byte }
{
    BYTE_BITS * byte as u64
}

/// What is seen behind the zero bytes from this byte on.
fn seen_from(unit: &[u8], at: usize) -> Seen
    requires length { length unit.now ≤ 2 ^ 60 }
    requires at { at ≤ length unit.now }
    ensures seen { IsSeen unit.now at result }
    ensures within { IsSeenWithin unit.now result }
{
    let len = unit.len();
    let end = end_of_zeros(unit, at);
    if end == len {
        return Seen::End;
    }
    let byte = unit[end];
    if byte != 1 {
        return Seen::Byte { place: end };
    }
    if end < at + PREFIX_ZEROS {
        return Seen::Byte { place: end };
    }
    let place = end - PREFIX_ZEROS;
    let next = end + 1;
    if next == len {
        return Seen::Cut { place };
    }
    let code = unit[next];
    Seen::Code { place, code }
}

/// The first byte from this one on that isn't zero, or the end of the unit.
fn end_of_zeros(unit: &[u8], at: usize) -> usize
    requires { at ≤ length unit.now }
    ensures zeros { ZerosTo unit.now at result }
    ensures stops { result < length unit.now → get_or unit.now result 0 ≢ 0 }
{
    let mut end = at;
    'zeros: while end < unit.len() {
        if unit[end] != 0 {
            return end;
        }
        end += 1;
    }
    end
}
