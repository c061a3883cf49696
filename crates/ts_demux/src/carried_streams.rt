ghost use Rattle.std.specs.Prelude.{◌≡◌, ◌+◌, ◌≤◌, length, map, MatchOption, MatchResult, None};
ghost use Rattle.ts_demux.specs.declared.demux_fault.DemuxFault.TheVariants.{OutOfMemory};
ghost use Rattle.ts_demux.specs.Streams.{is_video, is_audio, is_among, is_carried, video_of};
ghost use Rattle.ts_demux.specs.Private.CarriedStreams.{IsCarried, IsCarryFault, CarriesAudios, IsVideoAt};

use crate::demux_fault::DemuxFault;
use arrayvec::ArrayVec;
use list_types::ListOf;
use psi_tables::{ProgramMap, STREAMS_MOST, Stream};
use std::alloc::Global;

/// `stream_type` of video (ISO/IEC 13818-2).
const VIDEO: u8 = 0x02;

/// `stream_type` of audio (ISO/IEC 11172-3).
const AUDIO_11172: u8 = 0x03;

/// `stream_type` of audio (ISO/IEC 13818-3).
const AUDIO_13818: u8 = 0x04;

/// The streams of a program that are carried, and the PIDs of the others, in the order of its map.
#[derive(Drop)]
pub struct CarriedStreams {
    /// The map with the carried streams alone, the video first.
    pub map: ProgramMap,
    pub others: ListOf<u16>,
}

/// Chooses the streams that are carried: the first video stream, and each audio stream whose PID isn't to be dropped nor
/// that of a carried stream before it. An error is NoVideo, or want of memory.
pub fn carry_streams(
    alloc: Global,
    whole: ProgramMap,
    drop: &[u16],
) -> Result<CarriedStreams, DemuxFault>
    ensures { MatchResult result (IsCarried drop.now whole) (IsCarryFault whole) }
{
    let ProgramMap {
        number,
        pcr_pid,
        mut streams,
        dropped,
    } = whole;
    let Some(at) = find_video(streams.as_slice()) else {
        return Err(DemuxFault::NoVideo { at: 0 });
    };
    let mut carried = ArrayVec::new();
    carried.push(streams.remove(at));
    let others = match carry_audios(alloc, drop, &mut carried, streams) {
        Ok(others) => others,
        Err(fault) => return Err(fault),
    };
    Ok(CarriedStreams {
        map: ProgramMap {
            number,
            pcr_pid,
            streams: carried,
            dropped,
        },
        others,
    })
}

/// The place of the first video stream.
fn find_video(streams: &[Stream]) -> Option<usize>
    ensures { MatchOption result (video_of streams.now ≡ None) (IsVideoAt streams.now) }
{
    for (at, stream) in streams.iter().enumerate() {
        if is_video(stream) {
            return Some(at);
        }
    }
    None
}

/// True where its type is that of video.
fn is_video(stream: &Stream) -> bool
    ensures { result ≡ is_video stream.now }
{
    stream.kind == VIDEO
}

/// Moves the carried ones of some audio streams behind those that are carried, and gives the PIDs of the others.
fn carry_audios(
    alloc: Global,
    drop: &[u16],
    carried: &mut ArrayVec<Stream, STREAMS_MOST>,
    streams: ArrayVec<Stream, STREAMS_MOST>,
) -> Result<ListOf<u16>, DemuxFault>
    requires { length carried.old.items + length streams.items ≤ 64 }
    ensures { MatchResult result (λ others. CarriesAudios drop.now carried.old.items streams.items carried.new.items others) (λ fault. fault ≡ OutOfMemory) }
{
    let mut streams = streams;
    let mut others = ListOf::new(alloc);
    while !streams.is_empty() {
        let stream = streams.remove(0);
        if is_carried(drop, carried.as_slice(), &stream) {
            carried.push(stream);
        } else {
            others.push(stream.pid)?;
        }
    }
    Ok(others)
}

/// True where an audio stream is carried behind some carried streams.
fn is_carried(drop: &[u16], carried: &[Stream], stream: &Stream) -> bool
    ensures { result ≡ is_carried drop.now (map (λ stream. stream.pid) carried.now) stream.now }
{
    is_audio(stream) && !drop.contains(&stream.pid) && !has_pid(carried, stream.pid)
}

/// True where its type is one of audio.
fn is_audio(stream: &Stream) -> bool
    ensures { result ≡ is_audio stream.now }
{
    stream.kind == AUDIO_11172 || stream.kind == AUDIO_13818
}

/// True where one of the streams has the PID.
fn has_pid(streams: &[Stream], pid: u16) -> bool
    ensures { result ≡ is_among (map (λ stream. stream.pid) streams.now) pid }
{
    for stream in streams {
        if stream.pid == pid {
            return true;
        }
    }
    false
}
