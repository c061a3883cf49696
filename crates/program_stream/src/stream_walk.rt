ghost use Rattle.std.specs.Prelude.{◌≡◌, ℕ, ◌+◌, ◌≤◌, true, List, [], ◌∷◌, ◌++◌, length, map, OnOk, MatchResult};
ghost use Rattle.stream_constants.specs.declared.limits.TheConstants.{AUDIOS_MOST};
ghost use Rattle.pes_units.specs.PesHeader.{is_stream_id};
ghost use Rattle.program_stream.specs.Elements.{Element, element_bytes, all_spelled};
ghost use Rattle.program_stream.specs.Streams.{first_video_id, is_carried_audio, may_be_stream, map_of, map_stream};
ghost use Rattle.program_stream.specs.Private.Walks.{HasWalked, IsOfElements, IsStreamsFault, is_first_video, with_id};

use crate::packet_streams::PacketStreams;
use crate::split_fault::SplitFault;
use crate::stream_ids::{
    FIRST_AUDIO, FIRST_VIDEO, LAST_AUDIO, LAST_VIDEO, PADDING_STREAM, PROGRAM_STREAM_MAP,
};
use arrayvec::ArrayVec;
use list_types::{ListOf, OutOfMemory};
use psi_tables::{ProgramMap, STREAMS_MOST, Stream};
use std::alloc::Global;
use stream_constants::limits::AUDIOS_MOST;
use ts_demux::{AudioStream, Demuxed};

/// `stream_type` of video (ISO/IEC 13818-2).
pub(crate) const VIDEO: u8 = 0x02;

/// `stream_type` of audio (ISO/IEC 11172-3).
pub(crate) const AUDIO: u8 = 0x03;

/// The PID by which a map says that no stream has its clock references (ISO/IEC 13818-1, 2.4.4.9).
pub(crate) const NO_CLOCK: u16 = 0x1FFF;

/// The streams of a program stream, while its elements pass.
#[derive(Drop)]
pub struct StreamWalk {
    /// The first video stream, once it has come, and no other one.
    video: PacketStreams,
    /// The audio streams that aren't dropped.
    audios: PacketStreams,
    /// The ids of all other streams.
    others: ListOf<u16>,
}

impl StreamWalk {
    /// A walk before the first element.
    pub fn new(alloc: Global) -> Self
        ensures { (drop : List ℕ) → HasWalked drop [] result }
    {
        StreamWalk {
            video: PacketStreams::new(alloc),
            audios: PacketStreams::new(alloc),
            others: ListOf::new(alloc),
        }
    }

    /// Takes the next element of a file, with its place. An error is want of memory.
    pub fn take(
        &mut self,
        alloc: Global,
        drop: &[u16],
        at: u64,
        bytes: &[u8],
    ) -> Result<(), OutOfMemory>
        requires { 4 ≤ length bytes.now }
        ensures { (elements : List Element) (element : Element) → HasWalked drop.now elements self.old → bytes.now ≡ element_bytes element
            → at ≡ length (all_spelled elements) + element.zeros → OnOk result (HasWalked drop.now (elements ++ element ∷ []) self.new) }
    {
        let id = u16::from(bytes[3]);
        if is_video(id) {
            return self.take_video(alloc, id, at, bytes);
        }
        if is_carried_audio(drop, id) {
            return self.audios.add(alloc, id, at, bytes);
        }
        if may_be_stream(id) {
            return self.list_other(id);
        }
        Ok(())
    }

    /// Takes the packet that the next element is, of a video stream.
    fn take_video(
        &mut self,
        alloc: Global,
        id: u16,
        at: u64,
        bytes: &[u8],
    ) -> Result<(), OutOfMemory>
        requires { is_stream_id true id ≡ true }
        ensures { (drop : List ℕ) (elements : List Element) (element : Element) → HasWalked drop elements self.old → id ≡ element.id → bytes.now ≡ element_bytes element
            → at ≡ length (all_spelled elements) + element.zeros → OnOk result (HasWalked drop (elements ++ element ∷ []) self.new) }
    {
        if self.is_first_video(id) {
            self.video.add(alloc, id, at, bytes)
        } else {
            self.list_other(id)
        }
    }

    /// True where no video stream has come, or this is the one.
    fn is_first_video(&self, id: u16) -> bool
        ensures { (drop : List ℕ) (elements : List Element) → HasWalked drop elements self.now → result ≡ is_first_video (first_video_id elements) id }
    {
        match self.video.streams.as_slice().first() {
            Some(stream) => stream.pid == id,
            None => true,
        }
    }

    /// Lists the id of a stream that isn't carried, once.
    fn list_other(&mut self, id: u16) -> Result<(), OutOfMemory>
        ensures others { OnOk result (self.new.others ≡ with_id self.old.others id) }
        ensures same { OnOk result ((self.new.video ≡ self.old.video) × (self.new.audios ≡ self.old.audios)) }
    {
        if self.others.as_slice().contains(&id) {
            return Ok(());
        }
        self.others.push(id)
    }

    /// What is taken out of a file whose elements were all taken. An error is NoVideo or ProgramLimit.
    pub fn into_demuxed(self) -> Result<Demuxed, SplitFault>
        ensures { (drop : List ℕ) (elements : List Element) → HasWalked drop elements self → MatchResult result (IsOfElements drop elements) (IsStreamsFault drop elements) }
    {
        let StreamWalk {
            video: PacketStreams {
                streams: mut videos,
            },
            audios: PacketStreams { streams: audios },
            others,
        } = self;
        if videos.is_empty() {
            return Err(SplitFault::NoVideo { at: 0 });
        }
        if audios.len() > AUDIOS_MOST {
            return Err(SplitFault::ProgramLimit { at: 0 });
        }
        let video = videos.remove(0);
        Ok(Demuxed {
            map: map_of(video.pid, audios.as_slice()),
            video: video.units,
            audios: ListOf::from_vec(audios),
            rest: 0,
            not_carried: others,
        })
    }
}

/// The map of a video stream and some audio streams.
fn map_of(video: u16, audios: &[AudioStream]) -> ProgramMap
    requires { length audios.now ≤ AUDIOS_MOST }
    ensures { result ≡ map_of video (map (λ stream. stream.pid) audios.now) }
{
    let mut streams: ArrayVec<Stream, STREAMS_MOST> = ArrayVec::new();
    streams.push(map_stream(VIDEO, video));
    for stream in audios {
        streams.push(map_stream(AUDIO, stream.pid));
    }
    ProgramMap {
        number: 1,
        pcr_pid: NO_CLOCK,
        streams,
        dropped: 0,
    }
}

/// A stream of a map without descriptors, of a `stream_type` and with a stream id as its PID.
pub fn map_stream(kind: u8, pid: u16) -> Stream
    ensures { result ≡ map_stream kind pid }
{
    Stream {
        kind,
        pid,
        descriptors: ArrayVec::new(),
    }
}

/// True for the id of a video stream.
pub(crate) fn is_video(id: u16) -> bool
    ensures { result ≡ is_stream_id true id }
{
    u16::from(FIRST_VIDEO) <= id && id <= u16::from(LAST_VIDEO)
}

/// True for the id of an audio stream that isn't to be dropped.
pub(crate) fn is_carried_audio(drop: &[u16], id: u16) -> bool
    ensures { result ≡ is_carried_audio drop.now id }
{
    u16::from(FIRST_AUDIO) <= id && id <= u16::from(LAST_AUDIO) && !drop.contains(&id)
}

/// True for the id of a packet that may be of a stream.
pub(crate) fn may_be_stream(id: u16) -> bool
    ensures { result ≡ may_be_stream id }
{
    id > u16::from(PROGRAM_STREAM_MAP) && id != u16::from(PADDING_STREAM)
}
