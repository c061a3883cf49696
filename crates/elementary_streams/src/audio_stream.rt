//! An audio stream of a program: its PES packets, and its frames with their times (ISO/IEC 13818-1, 2.4.3.7).
ghost use Rattle.std.specs.Prelude.{◌≡◌, ◌⊎◌, ◌≤◌, length, MatchResult};
ghost use Rattle.std.specs.List.{sum_by};
ghost use Rattle.audio_frames.specs.declared.limits.TheConstants.{PAYLOAD_BYTES_MOST};
ghost use Rattle.ts_demux.specs.declared.demuxed.AudioStream.{AudioStream};
ghost use Rattle.elementary_streams.specs.declared.stream_fault.StreamFault.TheVariants.{OutOfMemory};
ghost use Rattle.elementary_streams.specs.Audio.{IsStreamRead, IsStreamRefused, audio_type, taken_of};
ghost use Rattle.elementary_streams.specs.NearTimes.{IsNear};
ghost use Rattle.elementary_streams.specs.Packets.{joined};

use crate::pes_packets::{PlacedPacket, TakenPackets, count_of, take_packets};
use crate::pes_starts::{AxisTime, PES_PACKETS_MOST, audio_starts};
use crate::stream_fault::{StreamFault, frames_refused};
use audio_frames::{Frame, frames, has_low_rate};
use list_types::ListOf;
use std::alloc::Global;
use ts_demux::AudioStream;

/// What is read of an audio stream. Its elementary stream is let go.
#[derive(Drop)]
pub struct ReadStream {
    /// Its PES packets that are taken, and how many are dropped.
    pub packets: Vec<PlacedPacket>,
    pub dropped: u32,
    /// The bytes of their payloads.
    pub bytes: u64,
    pub frames: ListOf<Frame>,
    /// The `stream_type` that its first frame tells.
    pub kind: u8,
}

/// Reads an audio stream of a program whose video begins at a time. An error is the first fault of its PES packets, or else
/// of its frames; or want of memory.
pub fn read_stream(
    alloc: Global,
    stream: &AudioStream,
    first: &AxisTime,
) -> Result<ReadStream, StreamFault>
    requires few { length stream.now.units ≤ PES_PACKETS_MOST }
    requires size { sum_by (λ packet. length packet.bytes) stream.now.units ≤ PAYLOAD_BYTES_MOST }
    requires first { IsNear 0 first.now.time }
    ensures { MatchResult result (IsStreamRead first.now.time stream.now) (λ fault. (fault ≡ OutOfMemory) ⊎ IsStreamRefused first.now.time stream.now fault) }
{
    let taken = match take_packets(alloc, stream.units.as_slice(), false) {
        Ok(taken) => taken,
        Err(fault) => return Err(fault),
    };
    let starts = audio_starts(alloc, taken.packets.as_slice(), first)?;
    let read = frames(alloc, taken.payload.as_slice(), starts.as_slice());
    match read {
        Ok(frames) => {
            let kind = audio_type(taken.payload.as_slice());
            let bytes = count_of(&taken.payload);
            let TakenPackets {
                packets,
                dropped,
                ..
            } = taken;
            Ok(ReadStream {
                packets,
                dropped,
                bytes,
                frames,
                kind,
            })
        }
        Err(fault) => Err(frames_refused(fault)),
    }
}

/// `stream_type` of audio of ISO/IEC 11172-3.
const AUDIO: u8 = 0x03;

/// `stream_type` of audio of ISO/IEC 13818-3, whose sampling rates are low.
const LOW_RATE_AUDIO: u8 = 0x04;

/// The type of an audio stream, by its elementary stream.
fn audio_type(payload: &[u8]) -> u8
    ensures { (stream : AudioStream) → payload.now ≡ joined (taken_of stream) → result ≡ audio_type stream }
{
    if has_low_rate(payload) {
        LOW_RATE_AUDIO
    } else {
        AUDIO
    }
}
