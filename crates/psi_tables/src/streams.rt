ghost use Rattle.std.specs.Prelude.{◌≡◌, ℕ, ◌+◌, ◌*◌, ◌^◌, ◌<◌, ◌≤◌, List, length, ◌++◌, ◌∷◌, [], map, All, Some, IsSome, IfSome, MatchOption};
ghost use Rattle.std.specs.List.{sum_by, flat_map};
ghost use Rattle.psi_tables.specs.Section.{IsItemRow};
ghost use Rattle.psi_tables.specs.Descriptors.{count_dropped};
ghost use Rattle.psi_tables.specs.Streams.{StreamInfo, ES_info_length, IsStreamInfo, stream_of, IsStreamWritable, written_stream};
ghost use Rattle.psi_tables.specs.Private.Streams.{IsKeepable};

use crate::descriptors::read_descriptors;
use crate::section::{LENGTH_HIGH, PID_HIGH, Section, put, put_length, put_pid};
use crate::stream::{DESCRIPTOR_BYTES, STREAMS_MOST, Stream};
use arrayvec::ArrayVec;

/// Length of a stream's type, PID and length of descriptors in bytes.
const STREAM_BYTES: usize = 5;

/// The streams of a program map, and the number of their descriptors that aren't kept. None where streams don't fill
/// the bytes, there are more than are kept, or the kept descriptors of one have no room.
pub(crate) fn read_streams(bytes: &[u8]) -> Option<(ArrayVec<Stream, STREAMS_MOST>, u32)>
    requires { length bytes.now ≤ 1024 }
    ensures exact { (infos : List StreamInfo) → IsItemRow IsStreamInfo infos bytes.now → length infos ≤ 64 → All IsKeepable infos → result ≡ Some (record { items = map stream_of infos }, sum_by (λ info. count_dropped info.descriptors) infos) }
    ensures some { IsSome result → (infos : List StreamInfo) × IsItemRow IsStreamInfo infos bytes.now × (length infos ≤ 64) × All IsKeepable infos }
    ensures few { IfSome result (λ read. read.1 ≤ length bytes.now) }
{
    let mut streams = ArrayVec::new();
    let mut dropped = 0;
    let mut rest = bytes;
    while !rest.is_empty() {
        let (info, after) = split_info(rest)?;
        let (stream, more) = read_stream(info)?;
        if streams.is_full() {
            return None;
        }
        streams.push(stream);
        dropped += more;
        rest = after;
    }
    Some((streams, dropped))
}

/// The length in bytes of the written streams.
pub(crate) fn streams_length(streams: &[Stream]) -> usize
    requires { length streams.now ≤ 64 }
    ensures value { result ≡ length (flat_map written_stream streams.now) }
    ensures few { result ≤ STREAMS_MOST * (STREAM_BYTES + DESCRIPTOR_BYTES) }
{
    let mut total = 0;
    for stream in streams {
        total += STREAM_BYTES + stream.descriptors.len();
    }
    total
}

/// Appends the streams.
pub(crate) fn put_streams(into: &mut Section, streams: &[Stream])
    requires each { All IsStreamWritable streams.now }
    requires room { length into.old.items + length (flat_map written_stream streams.now) ≤ 1000 }
    ensures bytes { into.new.items ≡ into.old.items ++ flat_map written_stream streams.now }
    ensures kinds { All (λ stream. stream.kind < 256) streams.now }
{
    for stream in streams {
        put_stream(into, stream);
    }
}

/// What is kept of one stream, and the number of its descriptors that aren't. None where descriptors don't fill the
/// rest of the bytes, or the kept ones have no room.
#[tactic(auto, using(crate::proofs::Elements::elements))]
fn read_stream(bytes: &[u8]) -> Option<(Stream, u32)>
    requires small { length bytes.now ≤ 1024 }
    requires size { length bytes.now ≡ 5 + ES_info_length bytes.now }
    ensures exact { (info : StreamInfo) → IsStreamInfo info bytes.now → IsKeepable info → result ≡ Some (stream_of info, count_dropped info.descriptors) }
    ensures some { IsSome result → (info : StreamInfo) × IsStreamInfo info bytes.now × IsKeepable info }
{
    let (descriptors, dropped) = read_descriptors(&bytes[STREAM_BYTES..])?;
    let stream = Stream {
        kind: bytes[0],
        pid: u16::from_be_bytes([bytes[1] & PID_HIGH, bytes[2]]),
        descriptors,
    };
    Some((stream, dropped))
}

/// The bytes of the first stream and what stands behind them. None where there is no whole one.
#[tactic(auto, using(crate::proofs::Elements::elements))]
fn split_info(bytes: &[u8]) -> Option<(&[u8], &[u8])>
    ensures { MatchOption result ((front behind : List ℕ) → bytes.now ≡ front ++ behind → length front ≡ 5 + ES_info_length front → ⊥) (λ parts. (length parts.0.now ≡ 5 + ES_info_length parts.0.now) × (bytes.now ≡ parts.0.now ++ parts.1.now)) }
{
    let [_, _, _, length_high, length_low, ..] = bytes else {
        return None;
    };
    let size = STREAM_BYTES
        + u16::from_be_bytes([*length_high & LENGTH_HIGH, *length_low]) as usize;
    if bytes.len() < size {
        return None;
    }
    Some(bytes.split_at(size))
}

/// Appends one stream.
fn put_stream(into: &mut Section, stream: &Stream)
    requires pid { stream.now.pid < 2 ^ 13 }
    requires room { length into.old.items + length (written_stream stream.now) ≤ 1000 }
    ensures bytes { into.new.items ≡ into.old.items ++ written_stream stream.now }
    ensures kind { stream.now.kind < 256 }
{
    put_kind(into, stream.kind);
    put_pid(into, stream.pid);
    put_length(into, stream.descriptors.len() as u16);
    put(into, stream.descriptors.as_slice());
}

/// Appends a stream's type.
fn put_kind(into: &mut Section, kind: u8)
    requires { length into.old.items ≤ 1000 }
    ensures bytes { into.new.items ≡ into.old.items ++ kind ∷ [] }
    ensures kind { kind < 256 }
{
    put(into, &[kind]);
}
