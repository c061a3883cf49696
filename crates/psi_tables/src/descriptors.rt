ghost use Rattle.std.specs.Prelude.{◌≡◌, ℕ, ◌+◌, ◌*◌, ◌^◌, ◌<◌, ◌≤◌, List, length, ◌++◌, Some, IsSome, IfSome, MatchOption};
ghost use Rattle.psi_tables.specs.Section.{IsItemRow};
ghost use Rattle.psi_tables.specs.Descriptors.{IsDescriptor, is_kept, kept_bytes, count_dropped};

use crate::stream::DESCRIPTOR_BYTES;
use arrayvec::ArrayVec;

/// Length of a descriptor's tag and length in bytes.
const DESCRIPTOR_HEADER_BYTES: usize = 2;

/// Tag of `video_stream_descriptor`.
const VIDEO_STREAM: u8 = 2;

/// Tag of `audio_stream_descriptor`.
const AUDIO_STREAM: u8 = 3;

/// Tag of `ISO_639_language_descriptor`.
const ISO_639_LANGUAGE: u8 = 10;

/// The kept descriptors of one stream, one behind the other, and the number of the others. None where descriptors don't
/// fill the bytes, or the kept ones have no room.
pub(crate) fn read_descriptors(bytes: &[u8]) -> Option<(ArrayVec<u8, DESCRIPTOR_BYTES>, u32)>
    requires { length bytes.now ≤ 1024 }
    ensures exact { (descriptors : List (List ℕ)) → IsItemRow IsDescriptor descriptors bytes.now → length (kept_bytes descriptors) ≤ 183 → result ≡ Some (record { items = kept_bytes descriptors }, count_dropped descriptors) }
    ensures some { IsSome result → (descriptors : List (List ℕ)) × IsItemRow IsDescriptor descriptors bytes.now × (length (kept_bytes descriptors) ≤ 183) }
{
    let mut kept = ArrayVec::new();
    let mut dropped = 0;
    let mut rest = bytes;
    while !rest.is_empty() {
        let (descriptor, after) = split_descriptor(rest)?;
        if keeps(descriptor) {
            let Ok(()) = kept.try_extend_from_slice(descriptor) else {
                return None;
            };
        } else {
            dropped += 1;
        }
        rest = after;
    }
    Some((kept, dropped))
}

/// The number of descriptors. None where they don't fill the bytes.
pub(crate) fn count_descriptors(bytes: &[u8]) -> Option<u32>
    requires { length bytes.now ≤ 1024 }
    ensures exact { (descriptors : List (List ℕ)) → IsItemRow IsDescriptor descriptors bytes.now → result ≡ Some (length descriptors) }
    ensures few { IfSome result (λ count. count ≤ length bytes.now) }
    ensures some { IsSome result → (descriptors : List (List ℕ)) × IsItemRow IsDescriptor descriptors bytes.now }
{
    let mut count = 0;
    let mut rest = bytes;
    while !rest.is_empty() {
        let (_, after) = split_descriptor(rest)?;
        count += 1;
        rest = after;
    }
    Some(count)
}

/// The first descriptor and what stands behind it. None where there is no whole one.
#[tactic(auto, using(crate::proofs::Elements::elements))]
fn split_descriptor(bytes: &[u8]) -> Option<(&[u8], &[u8])>
    ensures { MatchOption result ((front behind : List ℕ) → bytes.now ≡ front ++ behind → IsDescriptor front front → ⊥) (λ parts. IsDescriptor parts.0.now parts.0.now × (bytes.now ≡ parts.0.now ++ parts.1.now)) }
{
    let [_, length, ..] = bytes else {
        return None;
    };
    let size = DESCRIPTOR_HEADER_BYTES + *length as usize;
    if bytes.len() < size {
        return None;
    }
    Some(bytes.split_at(size))
}

/// True for a descriptor of a tag that is kept.
#[tactic(auto, using(crate::proofs::Elements::elements))]
fn keeps(descriptor: &[u8]) -> bool
    requires { 0 < length descriptor.now }
    ensures { result ≡ is_kept descriptor.now }
{
    let tag = descriptor[0];
    tag == VIDEO_STREAM || tag == AUDIO_STREAM || tag == ISO_639_LANGUAGE
}
