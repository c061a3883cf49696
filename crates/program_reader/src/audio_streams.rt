//! The audio streams of a program: their PES packets, and their frames with their times.
ghost use Rattle.std.specs.Prelude.{◌≡◌, ◌⊎◌, ◌≤◌, length, All, MatchResult};
ghost use Rattle.std.specs.List.{sum_by};
ghost use Rattle.elementary_streams.specs.NearTimes.{IsNear};
ghost use Rattle.program_reader.specs.declared.program_fault.ProgramFault.TheVariants.{OutOfMemory};
ghost use Rattle.program_reader.specs.Audio.{IsAudioFault};
ghost use Rattle.program_reader.specs.Private.AudioStreams.{AreStreamsRead};

use crate::limits::{FILE_BYTES_MOST, PES_PACKETS_MOST};
use crate::program_fault::{ProgramFault, stream_refused};
use elementary_streams::{AxisTime, ReadStream, read_stream};
use std::alloc::Global;
use ts_demux::AudioStream;

/// Reads the audio streams of a program whose video begins at a time, in order. An error is the first refusal of the first
/// stream that is refused.
pub fn read_streams(
    alloc: Global,
    streams: &[AudioStream],
    first: &AxisTime,
) -> Result<Vec<ReadStream>, ProgramFault>
    requires few { All (λ stream. length stream.units ≤ PES_PACKETS_MOST) streams.now }
    requires size { All (λ stream. sum_by (λ packet. length packet.bytes) stream.units ≤ FILE_BYTES_MOST) streams.now }
    requires first { IsNear 0 first.now.time }
    ensures { MatchResult result (λ read. AreStreamsRead first.now.time streams.now read.items) (λ fault. (fault ≡ OutOfMemory) ⊎ IsAudioFault first.now.time streams.now fault) }
{
    let mut read = Vec::new(alloc);
    for stream in streams {
        match read_stream(alloc, stream, first) {
            Ok(one) => read.push(one)?,
            Err(fault) => return Err(stream_refused(fault)),
        }
    }
    Ok(read)
}
