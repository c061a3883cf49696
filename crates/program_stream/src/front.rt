//! What stands at the front of the bytes that are left of a program stream (ISO/IEC 13818-1, 2.5.3).

ghost use Rattle.std.specs.Prelude.{◌≡◌, ◌≢◌, ℕ, ◌+◌, ◌<◌, ◌≤◌, ◌^◌, true, List, ◌∷◌, ◌++◌, length, replicate, drop, slice_get, slice_index, Some, IfOk};
ghost use Rattle.pes_units.specs.PesHeader.{pes_packet_length};
ghost use Rattle.program_stream.specs.Elements.{Element, element_bytes, has_pack_marks, element_length, element_refusal, is_video_or_audio};
ghost use Rattle.program_stream.specs.Private.Fronts.{IsBehind, Reads, needs_more};

use crate::split_fault::SplitFault;
use crate::stream_ids::{
    END_CODE, FIRST_AUDIO, FIRST_VIDEO, LAST_AUDIO, LAST_VIDEO, PACK_HEADER_BYTES, PACK_START_CODE,
};

/// Bytes of a start code: its prefix 00 00 01 and its value.
const START_CODE_BYTES: usize = 4;

/// Bytes of a packet before those that its length counts: a start code and two bytes of the length.
const LENGTH_END: usize = 6;

/// The most bytes of an element: those of a packet that states the longest length.
const ELEMENT_BYTES_MOST: usize = LENGTH_END + 0xFFFF;

/// What is found at the front.
#[derive(Clone, Copy)]
pub enum Front {
    /// Zero bytes alone, or no byte.
    Zeros,
    /// An element that the end of the bytes cuts.
    Cut,
    /// A whole element that nothing refuses, of so many bytes.
    Whole { len: usize },
}

/// How many of the zero bytes that stand first may be passed over: all but the last two, with which a start code prefix begins.
pub fn zeros_before(bytes: &[u8]) -> usize
    ensures within { result ≤ length bytes.now }
    ensures zeros { bytes.now ≡ replicate result 0 ++ drop result bytes.now }
    ensures behind { IsBehind result (drop result bytes.now) }
{
    count_zeros(bytes).saturating_sub(2)
}

/// What stands first in the bytes that are left from a place of a file on, of which so many zero bytes were passed over. An error is why they
/// are refused, with the place.
pub fn read_front(rest: &[u8], zeros: usize, at: u64) -> Result<Front, SplitFault>
    requires place { at + zeros + length rest.now < 2 ^ 64 }
    requires behind { IsBehind zeros rest.now }
    ensures reads { Reads at zeros (replicate zeros 0 ++ rest.now) result }
    ensures few { IfOk result (λ front. needs_more front ≡ true → length rest.now < ELEMENT_BYTES_MOST) }
{
    let ones = count_zeros(rest);
    if ones == rest.len() {
        return Ok(Front::Zeros);
    }
    if ones < 2 || rest[ones] != 1 {
        return Err(SplitFault::BadStart { at });
    }
    read_element(rest, zeros, at + zeros as u64)
}

/// What stands in bytes that begin with a start code prefix at a place of a file, behind so many zero bytes.
fn read_element(bytes: &[u8], zeros: usize, at: u64) -> Result<Front, SplitFault>
    requires prefix { (more : List ℕ) × (bytes.now ≡ 0 ∷ 0 ∷ 1 ∷ more) }
    requires place { at + length bytes.now < 2 ^ 64 }
    ensures reads { (before : ℕ) → at ≡ before + zeros → Reads before zeros (replicate zeros 0 ++ bytes.now) result }
    ensures few { IfOk result (λ front. needs_more front ≡ true → length bytes.now < ELEMENT_BYTES_MOST) }
{
    if bytes.len() < START_CODE_BYTES {
        return Ok(Front::Cut);
    }
    if bytes[3] < END_CODE {
        return Err(SplitFault::BadStart { at });
    }
    let len = element_length(bytes);
    if bytes.len() < len {
        return Ok(Front::Cut);
    }
    match refusal(&bytes[..len], at) {
        Some(fault) => Err(fault),
        None => Ok(Front::Whole { len }),
    }
}

/// Whether no whole element was found, so that more bytes may change what is.
pub fn needs_more(front: Front) -> bool
    ensures { result ≡ needs_more front }
{
    match front {
        Front::Zeros | Front::Cut => true,
        Front::Whole { len: _ } => false,
    }
}

/// How many zero bytes stand first.
fn count_zeros(bytes: &[u8]) -> usize
    ensures within { result ≤ length bytes.now }
    ensures zeros { bytes.now ≡ replicate result 0 ++ drop result bytes.now }
    ensures end { slice_get bytes.now result ≢ Some 0 }
{
    let mut count = 0;
    while count < bytes.len() && bytes[count] == 0 {
        count += 1;
    }
    count
}

/// How many bytes an element has whose first bytes these are, its id among them.
#[tactic(auto, using(crate::proofs::Fields::fields))]
fn element_length(bytes: &[u8]) -> usize
    requires { 4 ≤ length bytes.now }
    ensures length { (element : Element) → bytes.now ≡ element_bytes element → result ≡ element_length element }
    ensures most { result ≤ ELEMENT_BYTES_MOST }
{
    if bytes[3] == END_CODE {
        return START_CODE_BYTES;
    }
    if bytes[3] == PACK_START_CODE {
        return PACK_HEADER_BYTES + usize::from(byte_at(bytes, 13) % 8);
    }
    LENGTH_END + stated_length(bytes)
}

/// The length that a packet states.
#[tactic(auto, using(crate::proofs::Fields::fields))]
fn stated_length(bytes: &[u8]) -> usize
    ensures stated { result ≡ pes_packet_length bytes.now }
    ensures bound { result < 2 ^ 16 }
{
    usize::from(byte_at(bytes, 4)) * 256 + usize::from(byte_at(bytes, 5))
}

/// What refuses a whole element at a place.
fn refusal(element: &[u8], at: u64) -> Option<SplitFault>
    requires { 4 ≤ length element.now }
    ensures { (whole : Element) → element.now ≡ element_bytes whole → result ≡ element_refusal at whole }
{
    if element[3] == PACK_START_CODE && !has_pack_marks(element) {
        return Some(SplitFault::BadPack { at });
    }
    if is_video_or_audio(element[3]) && stated_length(element) == 0 {
        return Some(SplitFault::BadLength { at });
    }
    None
}

/// The bits of a pack header that don't vary.
#[tactic(auto, using(crate::proofs::Fields::fields))]
fn has_pack_marks(bytes: &[u8]) -> bool
    ensures { result ≡ has_pack_marks bytes.now }
{
    byte_at(bytes, 4) / 64 == 1
        && byte_at(bytes, 4) / 4 % 2 == 1
        && byte_at(bytes, 6) / 4 % 2 == 1
        && byte_at(bytes, 8) / 4 % 2 == 1
        && byte_at(bytes, 9) % 2 == 1
        && byte_at(bytes, 12) % 4 == 3
}

/// True for the id of a video or an audio stream.
fn is_video_or_audio(id: u8) -> bool
    ensures { result ≡ is_video_or_audio id }
{
    FIRST_AUDIO <= id && id <= LAST_VIDEO
}

/// A byte, or 0 past the end.
fn byte_at(bytes: &[u8], place: usize) -> u8
    ensures { result ≡ slice_index bytes.now place }
{
    match bytes.get(place) {
        Some(byte) => *byte,
        None => 0,
    }
}
