ghost use Rattle.std.specs.Prelude.{◌≡◌, ◌∷◌, [], ◌++◌, ◌≤◌, List, length, true, if◌then◌else◌, Some, None, OnOk, IfOk, MatchOption, MatchResult};
ghost use Rattle.std.specs.List.{filter, find};
ghost use Rattle.stream_constants.specs.declared.limits.TheConstants.{AUDIOS_MOST};
ghost use Rattle.pes_units.specs.PesHeader.{is_stream_id};
ghost use Rattle.program_stream.specs.Elements.{Element, element_bytes};
ghost use Rattle.program_stream.specs.Streams.{is_carried_audio, is_other, map_of};
ghost use Rattle.program_stream.specs.Private.IdWalk.{AreNoStreams, AreStreamsOf, HasIds};
ghost use Rattle.program_stream.specs.Private.Walks.{with_id};

use crate::split_fault::SplitFault;
use crate::stream_walk::{
    AUDIO, NO_CLOCK, VIDEO, is_carried_audio, is_video, map_stream, may_be_stream,
};
use arrayvec::ArrayVec;
use list_types::{ListOf, OutOfMemory};
use psi_tables::{ProgramMap, STREAMS_MOST, Stream};
use std::alloc::Global;
use stream_constants::limits::AUDIOS_MOST;
use ts_demux::CarriedStreams;

/// The ids of the elements of a program stream, while they pass.
#[derive(Drop)]
pub struct IdWalk {
    /// Each once, in order of first coming.
    ids: ListOf<u16>,
}

impl IdWalk {
    /// A walk before the first element.
    pub fn new(alloc: Global) -> Self
        ensures { HasIds [] result }
    {
        IdWalk {
            ids: ListOf::new(alloc),
        }
    }

    /// Takes the next element of a file. An error is want of memory.
    pub fn take(&mut self, bytes: &[u8]) -> Result<(), OutOfMemory>
        requires { 4 ≤ length bytes.now }
        ensures { (elements : List Element) (element : Element) → HasIds elements self.old → bytes.now ≡ element_bytes element → OnOk result (HasIds (elements ++ element ∷ []) self.new) }
    {
        self.add(u16::from(bytes[3]))
    }

    /// Adds an id, unless it has come before.
    fn add(&mut self, id: u16) -> Result<(), OutOfMemory>
        ensures { OnOk result (self.new.ids ≡ with_id self.old.ids id) }
    {
        if self.ids.as_slice().contains(&id) {
            return Ok(());
        }
        self.ids.push(id)
    }

    /// The streams of a file whose elements were all taken, but for the audio streams whose ids are in `drop`. An error is NoVideo, ProgramLimit, or want of memory.
    pub fn into_streams(self, alloc: Global, drop: &[u16]) -> Result<CarriedStreams, SplitFault>
        ensures { (elements : List Element) → HasIds elements self → MatchResult result (AreStreamsOf drop.now elements) (AreNoStreams drop.now elements) }
    {
        let ids = self.ids.as_slice();
        let Some(video) = find_video(ids) else {
            return Err(SplitFault::NoVideo { at: 0 });
        };
        let audios = audios_among(alloc, ids, drop)?;
        if audios.len() > AUDIOS_MOST {
            return Err(SplitFault::ProgramLimit { at: 0 });
        }
        let others = others_among(alloc, ids, drop, video)?;
        Ok(CarriedStreams {
            map: map_of_ids(video, audios.as_slice()),
            others,
        })
    }
}

/// The first id of a video stream.
fn find_video(ids: &[u16]) -> Option<u16>
    ensures { MatchOption result (find (is_stream_id true) ids.now ≡ None) (λ id. find (is_stream_id true) ids.now ≡ Some id) }
{
    for id in ids {
        if is_video(*id) {
            return Some(*id);
        }
    }
    None
}

/// The ids of audio streams that aren't to be dropped.
fn audios_among(alloc: Global, ids: &[u16], drop: &[u16]) -> Result<ListOf<u16>, OutOfMemory>
    ensures { IfOk result (λ audios. audios ≡ filter (is_carried_audio drop.now) ids.now) }
{
    let mut audios = ListOf::new(alloc);
    for id in ids {
        push_where(&mut audios, *id, is_carried_audio(drop, *id))?;
    }
    Ok(audios)
}

/// The ids of streams that aren't carried beside a video stream.
fn others_among(
    alloc: Global,
    ids: &[u16],
    drop: &[u16],
    video: u16,
) -> Result<ListOf<u16>, OutOfMemory>
    ensures { IfOk result (λ others. others ≡ filter (is_other drop.now video) ids.now) }
{
    let mut others = ListOf::new(alloc);
    for id in ids {
        push_where(&mut others, *id, is_other(drop, video, *id))?;
    }
    Ok(others)
}

/// True for the id of a stream that isn't carried beside a video stream.
fn is_other(drop: &[u16], video: u16, id: u16) -> bool
    ensures { result ≡ is_other drop.now video id }
{
    id != video && may_be_stream(id) && !is_carried_audio(drop, id)
}

/// Adds an id where it is wanted.
fn push_where(ids: &mut ListOf<u16>, id: u16, wanted: bool) -> Result<(), OutOfMemory>
    ensures { OnOk result (ids.new ≡ ids.old ++ (if wanted then id ∷ [] else [])) }
{
    if wanted {
        return ids.push(id);
    }
    Ok(())
}

/// The map of a video stream and some audio streams, by their ids.
fn map_of_ids(video: u16, audios: &[u16]) -> ProgramMap
    requires { length audios.now ≤ AUDIOS_MOST }
    ensures { result ≡ map_of video audios.now }
{
    let mut streams: ArrayVec<Stream, STREAMS_MOST> = ArrayVec::new();
    streams.push(map_stream(VIDEO, video));
    for id in audios {
        streams.push(map_stream(AUDIO, *id));
    }
    ProgramMap {
        number: 1,
        pcr_pid: NO_CLOCK,
        streams,
        dropped: 0,
    }
}
