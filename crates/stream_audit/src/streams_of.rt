//! The streams of a program of a file, as the decoder's buffers get them (ISO/IEC 13818-1, 2.4.2.3).
ghost use Rattle.std.specs.Prelude.{◌≡◌, ◌⊎◌, ◌≤◌, ◌<◌, ◌^◌, ◌∷◌, ℕ, List, [], All, IfErr, IfOk, OnOk, length, map};
ghost use Rattle.psi_tables.specs.declared.stream.Stream.{Stream};
ghost use Rattle.std.specs.List.Sorted.{IsStrictlyIncreasing};
ghost use Rattle.stream_constants.specs.declared.packets.TheConstants.{PACKET_BYTES};
ghost use Rattle.ts_demux.specs.Demux.{AreStreamsSound};
ghost use Rattle.ts_demux.specs.PidPlaces.{places_on};
ghost use Rattle.ts_packets.specs.TransportStream.{piece_count};
ghost use Rattle.stream_audit.specs.declared.audit_stop.AuditStop.TheVariants.{OutOfMemory};
ghost use Rattle.stream_audit.specs.Audit.{AreAuditable, AreStreamsOf};
ghost use Rattle.stream_audit.specs.Findings.{CanBeJudged};
ghost use Rattle.stream_audit.specs.Refusals.{IsAudioSound, IsAudioStopped, IsFirstAudioStopped, IsVideoSound, IsVideoStopped};
ghost use Rattle.stream_audit.specs.Streams.{IsAudioStream, IsVideoStream, system_stream};
ghost use Rattle.stream_audit.specs.Private.Audit.{AddsAudios, AreStreamsStopped, CarriesStreams, IsCarriedAudio};

use crate::audit_stop::{AuditStop, demux_stop};
use crate::audited_audio::audio_stream;
use crate::audited_stream::AuditedStream;
use crate::kept_units::KeptUnits;
use crate::packets_of::stream_packets;
use crate::video_packets::video_of;
use list_types::ListOf;
use psi_tables::ProgramMap;
use std::alloc::Global;
use ts_demux::{AudioStream, Demuxed, PesUnit, Place};

/// The packets of a PID for which none is refused. The error is want of memory.
fn sound_packets(alloc: Global, file: &[u8], pid: u16) -> Result<ListOf<Place>, AuditStop>
    requires few { piece_count file.now ≤ 2 ^ 32 }
    requires sound { AreStreamsSound file.now (pid ∷ []) }
    ensures places { IfOk result (λ places. places ≡ places_on file.now pid) }
    ensures few { IfOk result (λ places. length places ≤ 2 ^ 32) }
    ensures rise { IfOk result (λ places. IsStrictlyIncreasing (map (λ place. place.packet) places)) }
    ensures numbers { IfOk result (λ places. All (λ place. place.packet < 2 ^ 32) places) }
    ensures payloads { IfOk result (λ places. All (λ place. place.payload ≤ PACKET_BYTES) places) }
    ensures memory { IfErr result (λ stop. stop ≡ OutOfMemory) }
{
    match stream_packets(alloc, file, pid) {
        Ok(places) => Ok(places),
        Err(fault) => Err(demux_stop(fault)),
    }
}

/// The video of a program on a PID of a file, for which no packet is refused.
fn video_in(
    alloc: Global,
    file: &[u8],
    zero: u64,
    kept: &KeptUnits,
    pid: u16,
    packets: &[PesUnit],
) -> Result<AuditedStream, AuditStop>
    requires few { piece_count file.now ≤ 2 ^ 32 }
    requires sound { AreStreamsSound file.now (pid ∷ []) }
    requires kept { AreAuditable kept.now }
    ensures stream { IfOk result (IsVideoStream file.now zero kept.now pid packets.now) }
    ensures sound { IfOk result (λ _. IsVideoSound packets.now) }
    ensures judged { IfOk result CanBeJudged }
    ensures refused { IfErr result (λ stop. (stop ≡ OutOfMemory) ⊎ IsVideoStopped packets.now stop) }
{
    let places = match sound_packets(alloc, file, pid) {
        Ok(places) => places,
        Err(stop) => return Err(stop),
    };
    match video_of(alloc, pid, zero, kept, places.as_slice(), packets) {
        Ok(stream) => Ok(stream),
        Err(stop) => Err(stop),
    }
}

/// An audio stream of a program of a file, for whose PID no packet is refused.
fn audio_in(
    alloc: Global,
    file: &[u8],
    zero: u64,
    kept: &KeptUnits,
    audio: &AudioStream,
) -> Result<AuditedStream, AuditStop>
    requires few { piece_count file.now ≤ 2 ^ 32 }
    requires kept { AreAuditable kept.now }
    requires carried { IsCarriedAudio file.now audio.now }
    ensures stream { IfOk result (IsAudioStream file.now zero kept.now audio.now) }
    ensures sound { IfOk result (λ _. IsAudioSound kept.now audio.now) }
    ensures judged { IfOk result CanBeJudged }
    ensures refused { IfErr result (λ stop. (stop ≡ OutOfMemory) ⊎ IsAudioStopped kept.now audio.now stop) }
{
    let places = match sound_packets(alloc, file, audio.pid) {
        Ok(places) => places,
        Err(stop) => return Err(stop),
    };
    match audio_stream(alloc, zero, kept, places.as_slice(), audio) {
        Ok(stream) => Ok(stream),
        Err(stop) => Err(stop),
    }
}

/// Adds the audio streams of a program of a file, one for each. An error is what refuses the first one that is refused; or want of
/// memory.
fn add_audios(
    alloc: Global,
    file: &[u8],
    zero: u64,
    kept: &KeptUnits,
    audios: &[AudioStream],
    streams: &mut ListOf<AuditedStream>,
) -> Result<(), AuditStop>
    requires few { piece_count file.now ≤ 2 ^ 32 }
    requires kept { AreAuditable kept.now }
    requires carried { All (IsCarriedAudio file.now) audios.now }
    ensures added { OnOk result (AddsAudios file.now zero kept.now audios.now streams.old streams.new) }
    ensures judged { All CanBeJudged streams.old → OnOk result (All CanBeJudged streams.new) }
    ensures refused { IfErr result (λ stop. (stop ≡ OutOfMemory) ⊎ IsFirstAudioStopped kept.now audios.now stop) }
{
    for audio in audios {
        let stream = match audio_in(alloc, file, zero, kept, audio) {
            Ok(stream) => stream,
            Err(stop) => return Err(stop),
        };
        streams.push(stream)?;
    }
    Ok(())
}

/// The PID of the first stream of a map, which is the video where the map is one of carried streams.
fn first_pid(map: &ProgramMap) -> u16
    requires some { 0 < length map.now.streams.items }
    ensures { (first : Stream) (others : List Stream) → map.now.streams.items ≡ first ∷ others → result ≡ first.pid }
{
    map.streams.as_slice()[0].pid
}

/// The streams of a program of a file: the video, the audio streams in the order of the map, and the sections. An error is what refuses
/// the video, else the first audio stream that is refused; or want of memory.
pub fn streams_of(
    alloc: Global,
    file: &[u8],
    kept: &KeptUnits,
    zero: u64,
    demuxed: &Demuxed,
    system: AuditedStream,
) -> Result<ListOf<AuditedStream>, AuditStop>
    requires few { piece_count file.now ≤ 2 ^ 32 }
    requires kept { AreAuditable kept.now }
    requires carried { CarriesStreams file.now demuxed.now }
    requires system { CanBeJudged system }
    ensures streams { (map_pid : ℕ) → system ≡ system_stream file.now map_pid → IfOk result (AreStreamsOf file.now map_pid zero kept.now demuxed.now) }
    ensures judged { IfOk result (All CanBeJudged) }
    ensures refused { IfErr result (AreStreamsStopped kept.now demuxed.now) }
{
    let pid = first_pid(&demuxed.map);
    let video = match video_in(alloc, file, zero, kept, pid, demuxed.video.as_slice()) {
        Ok(video) => video,
        Err(stop) => return Err(stop),
    };
    let mut streams = ListOf::new(alloc);
    streams.push(video)?;
    let audios = demuxed.audios.as_slice();
    match add_audios(alloc, file, zero, kept, audios, &mut streams) {
        Ok(()) => {}
        Err(stop) => return Err(stop),
    }
    streams.push(system)?;
    Ok(streams)
}
