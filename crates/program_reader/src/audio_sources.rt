//! The audio streams of a program, with the times of their pieces.
ghost use Rattle.std.specs.Prelude.{◌≤◌, ◌<◌, ◌^◌, length, map, All, IfOk};
ghost use Rattle.std.specs.List.{sum_by};
ghost use Rattle.program_reader.specs.Audio.{IsAudioSource, AreAudioSources};
ghost use Rattle.elementary_streams.specs.NearTimes.{IsTime};
ghost use Rattle.program_reader.specs.Private.Sources.{IsStreamFrom, AreStreamsFrom};

use crate::due::DueClock;
use crate::limits::{FILE_BYTES_MOST, PES_PACKETS_MOST};
use crate::packet_bytes::packet_bytes;
use crate::pieces::audio_pieces;
use crate::program::AudioSource;
use elementary_streams::ReadStream;
use list_types::{ListOf, OutOfMemory};
use std::alloc::Global;
use stream_constants::limits::AUDIOS_MOST;
use ts_demux::AudioStream;

/// What is kept of audio streams that are read, whose times aren't before the earliest one.
pub fn audio_sources(
    alloc: Global,
    streams: &[AudioStream],
    read: &[ReadStream],
    clock: &DueClock,
) -> Result<ListOf<AudioSource>, OutOfMemory>
    requires count { length streams.now ≤ AUDIOS_MOST }
    requires few { All (λ stream. length stream.units ≤ PES_PACKETS_MOST) streams.now }
    requires size { All (λ stream. sum_by (λ packet. length packet.bytes) stream.units ≤ FILE_BYTES_MOST) streams.now }
    requires start { clock.now.start < 2 ^ 50 }
    requires earliest { IsTime clock.now.earliest }
    requires read { AreStreamsFrom clock.now.earliest streams.now read.now }
    ensures { IfOk result (AreAudioSources clock.now.start clock.now.earliest streams.now (map (λ one. one.frames) read.now)) }
{
    let mut sources = ListOf::new(alloc);
    for at in 0..streams.len() {
        sources.push(audio_source(alloc, &streams[at], &read[at], clock)?)?;
    }
    Ok(sources)
}

/// What is kept of one audio stream.
fn audio_source(
    alloc: Global,
    stream: &AudioStream,
    read: &ReadStream,
    clock: &DueClock,
) -> Result<AudioSource, OutOfMemory>
    requires few { length stream.now.units ≤ PES_PACKETS_MOST }
    requires size { sum_by (λ packet. length packet.bytes) stream.now.units ≤ FILE_BYTES_MOST }
    requires start { clock.now.start < 2 ^ 50 }
    requires earliest { IsTime clock.now.earliest }
    requires read { IsStreamFrom clock.now.earliest stream.now read.now }
    ensures { IfOk result (IsAudioSource clock.now.start clock.now.earliest stream.now read.now.frames) }
{
    let packets = read.packets.as_slice();
    let bytes = packet_bytes(alloc, stream.units.as_slice(), packets.len())?;
    let pieces = audio_pieces(alloc, packets, read.frames.as_slice(), clock)?;
    Ok(AudioSource { bytes, pieces })
}
