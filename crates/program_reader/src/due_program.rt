//! A program of streams that are read.
ghost use Rattle.std.specs.Prelude.{◌≡◌, ◌+◌, ◌≤◌, ◌<◌, ◌^◌, List, length, map, All, IfOk};
ghost use Rattle.std.specs.List.{sum_by};
ghost use Rattle.ts_demux.specs.declared.demuxed.PesUnit.{PesUnit};
ghost use Rattle.program_reader.specs.KeptUnits.{kept_at};
ghost use Rattle.program_reader.specs.Programs.{IsProgram, all_packets_dropped};
ghost use Rattle.program_reader.specs.Sizes.{stands_at};
ghost use Rattle.program_reader.specs.Private.AudioStreams.{AreStreamsRead};
ghost use Rattle.program_reader.specs.Private.Sources.{IsVideoRead, with_video};

use crate::audio_sources::audio_sources;
use crate::due::due_units;
use crate::limits::{FILE_BYTES_MOST, PES_PACKETS_MOST, UNITS_MOST};
use crate::program::Program;
use crate::video_stream::ReadVideo;
use elementary_streams::ReadStream;
use list_types::{ListOf, OutOfMemory};
use psi_tables::ProgramMap;
use std::alloc::Global;
use stream_constants::limits::AUDIOS_MOST;
use ts_demux::AudioStream;

/// What is taken out of a file beside the PES packets of the video.
#[derive(Drop)]
pub struct BesideVideo {
    pub map: ProgramMap,
    pub audios: ListOf<AudioStream>,
    pub rest: u8,
    pub not_carried: ListOf<u16>,
    /// How many last elements of the file its end cuts.
    pub cut: u32,
}

/// The program of streams that are read, its earliest time due at `start`.
pub fn due_program(
    alloc: Global,
    beside: BesideVideo,
    video: ReadVideo,
    streams: &[ReadStream],
    start: u64,
) -> Result<Program, OutOfMemory>
    requires start { start < 2 ^ 50 }
    requires audios_few { All (λ stream. length stream.units ≤ PES_PACKETS_MOST) beside.audios }
    requires audios_small { All (λ stream. sum_by (λ packet. length packet.bytes) stream.units ≤ FILE_BYTES_MOST) beside.audios }
    requires few_audios { length beside.audios ≤ AUDIOS_MOST }
    requires cut { beside.cut ≤ 1 }
    requires video { (packets : List PesUnit) × IsVideoRead (with_video beside packets) video }
    requires streams { AreStreamsRead video.first.stated beside.audios streams.now }
    requires few { length video.units.items ≤ UNITS_MOST }
    ensures program { (packets : List PesUnit) → IsVideoRead (with_video beside packets) video → IfOk result (IsProgram start (with_video beside packets)) }
    ensures dropped { (packets : List PesUnit) → IsVideoRead (with_video beside packets) video
        → IfOk result (λ program. program.pes_dropped ≡ all_packets_dropped (with_video beside packets) + beside.cut) }
    ensures bytes { IfOk result (λ program. program.video ≡ video.taken.payload.items) }
    ensures places { IfOk result (λ program. map stands_at program.units ≡ map kept_at video.units.items) }
{
    let first = video.first_ticks();
    let earliest = first.of_units(video.units.as_slice()).of_streams(streams);
    let clock = earliest.clock(start);
    let units = due_units(alloc, video.units.as_slice(), &clock)?;
    let audios = audio_sources(alloc, beside.audios.as_slice(), streams, &clock)?;
    Ok(Program {
        map: beside.map,
        base: clock.base(),
        vbv: video.first.seq.vbv,
        units,
        audios,
        units_dropped: video.units_dropped,
        pes_dropped: video.taken.dropped + audio_packets_dropped(streams) + beside.cut,
        rest: beside.rest,
        not_carried: beside.not_carried,
        video: video.into_bytes(),
    })
}

/// How many PES packets of audio streams are dropped.
pub fn audio_packets_dropped(streams: &[ReadStream]) -> u32
    requires few { length streams.now ≤ AUDIOS_MOST }
    requires each { All (λ one. one.dropped ≤ 1) streams.now }
    ensures sum { result ≡ sum_by (λ one. one.dropped) streams.now }
    ensures most { result ≤ AUDIOS_MOST }
{
    let mut dropped = 0;
    for stream in streams {
        dropped += stream.dropped;
    }
    dropped
}
