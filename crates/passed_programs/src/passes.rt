//! The passes over a file of a shelf: the tables of a program, its video, and an audio stream.
ghost use Rattle.std.specs.Prelude.{◌≡◌, ◌<◌, ◌≤◌, length, map, IfErr, IfOk};
ghost use Rattle.file_pass.specs.FilePass.{ReadsUpTo};
ghost use Rattle.ts_demux.specs.CarriedMap.{HasStreams};
ghost use Rattle.ts_demux.specs.CarriedPackets.{AreDistinct};
ghost use Rattle.version_table.specs.declared.limits.TheConstants.{VERSIONS_MOST};
ghost use Rattle.elementary_streams.specs.NearTimes.{IsNear};
ghost use Rattle.program_reader.specs.declared.limits.TheConstants.{FILE_BYTES_MOST};
ghost use Rattle.passed_programs.specs.PassedVideo.{IsVideoRefused};
ghost use Rattle.stream_pass.specs.PassedStream.{IsOfStream};
ghost use Rattle.passed_programs.specs.PassedAudio.{ReadsAudio, RefusesAudio};
ghost use Rattle.passed_programs.specs.PassedFile.{stop_in};
ghost use Rattle.passed_programs.specs.Private.Passes.{IsMapFault, IsOfTold, IsStoppedBy, IsVideoPassed, OfFront, front_of, of_audio_pass, of_outside, of_pass, of_video_pass, stream_stop_in};

use crate::passed_audio::read_audio;
use crate::passed_fault::PassedFault;
use crate::passed_video::read_video;
use crate::read_fault::ReadFault;
use crate::stream_stop::StreamStop;
use elementary_streams::{AxisTime, ReadStream, StreamFault};
use file_pass::FilePass;
use program_reader::{ProgramFault, SizesWanted, SourceKind, WalkedVideo, demux_refused};
use psi_tables::Stream;
use shelf_io::{Fault, Shelf};
use std::alloc::Global;
use ts_demux::{CarriedStreams, PacketBuffer, PassFault, read_streams};

/// What is said of a limit that is passed.
pub(crate) const PROGRAM_LIMIT: ProgramFault = ProgramFault::Refused {
    kind: SourceKind::ProgramLimit,
    at: 0,
};

/// A file of a shelf, and how many bytes it may have.
#[derive(Clone, Copy)]
pub(crate) struct PassedFile<'a> {
    pub name: &'a str,
    pub limit: u64,
}

/// A video, and how many bytes its file has.
#[derive(Drop)]
pub(crate) struct VideoPassed {
    pub video: WalkedVideo,
    pub size: u64,
}

/// The carried streams of a program's map, by a pass over the front of a file.
pub(crate) fn pass_map<K: Shelf>(
    alloc: Global,
    buffer: &mut PacketBuffer,
    shelf: &mut K,
    file: &PassedFile<'_>,
    number: u16,
    drop: &[u16],
) -> Result<CarriedStreams, PassedFault>
    requires { file.now.limit ≤ FILE_BYTES_MOST }
    ensures streams { IfOk result (λ carried. OfFront (front_of (K.files shelf.old) file.now.name.now file.now.limit) (HasStreams number drop.now carried)) }
    ensures refused { IfErr result (IsOfTold (front_of (K.files shelf.old) file.now.name.now file.now.limit) (IsMapFault number drop.now)) }
    ensures reads { ReadsUpTo K.files K.counts K.asked K.since_fault file.now.name.now file.now.limit (stop_in result) shelf.old shelf.new }
{
    buffer.clear();
    let mut pass = FilePass::new(shelf, file.name, file.limit);
    let read = read_streams(alloc, buffer, &mut pass, number, drop);
    match pass.stop() {
        Some(fault) => Err(outside_refused(fault)),
        None => match read {
            Ok(carried) => Ok(carried),
            Err(fault) => Err(pass_refused(fault)),
        },
    }
}

/// The video of a file, by a pass over all of it.
pub(crate) fn pass_video<K: Shelf>(
    alloc: Global,
    buffer: &mut PacketBuffer,
    shelf: &mut K,
    file: &PassedFile<'_>,
    streams: &[Stream],
    wanted: SizesWanted<'_>,
) -> Result<VideoPassed, StreamStop<ProgramFault>>
    requires limit { file.now.limit ≤ FILE_BYTES_MOST }
    requires some { 0 < length streams.now }
    requires distinct { AreDistinct (map (λ stream. stream.pid) streams.now) }
    requires coarser { length wanted.coarser.now < VERSIONS_MOST }
    ensures video { IfOk result (λ passed. OfFront (front_of (K.files shelf.old) file.now.name.now file.now.limit) (IsVideoPassed (map (λ stream. stream.pid) streams.now) wanted.entry passed)) }
    ensures within { IfOk result (λ passed. passed.size ≤ file.now.limit) }
    ensures stopped { IfErr result (IsStoppedBy (front_of (K.files shelf.old) file.now.name.now file.now.limit) (map (λ stream. stream.pid) streams.now)
        (λ whole. IsVideoRefused whole (map (λ stream. stream.pid) streams.now))) }
    ensures reads { ReadsUpTo K.files K.counts K.asked K.since_fault file.now.name.now file.now.limit (stream_stop_in result) shelf.old shelf.new }
{
    buffer.clear();
    let mut pass = FilePass::new(shelf, file.name, file.limit);
    let read = read_video(alloc, buffer, &mut pass, streams, wanted);
    let size = pass.place();
    match pass.stop() {
        Some(fault) => Err(StreamStop::Ended(outside_refused(fault))),
        None => match read {
            Ok(video) => Ok(VideoPassed { video, size }),
            Err(fault) => Err(video_stop(fault)),
        },
    }
}

/// The audio stream of a number among the carried ones, of a program whose video begins at a time, by a pass over all of its file.
pub(crate) fn pass_audio<K: Shelf>(
    alloc: Global,
    buffer: &mut PacketBuffer,
    shelf: &mut K,
    file: &PassedFile<'_>,
    streams: &[Stream],
    index: usize,
    first: AxisTime,
) -> Result<ReadStream, StreamStop<StreamFault>>
    requires limit { file.now.limit ≤ FILE_BYTES_MOST }
    requires index { index < length streams.now }
    requires distinct { AreDistinct (map (λ stream. stream.pid) streams.now) }
    requires first { IsNear 0 first.time }
    ensures read { IfOk result (λ read. OfFront (front_of (K.files shelf.old) file.now.name.now file.now.limit)
        (λ whole. IsOfStream whole (map (λ stream. stream.pid) streams.now) index (ReadsAudio first.time) read)) }
    ensures stopped { IfErr result (IsStoppedBy (front_of (K.files shelf.old) file.now.name.now file.now.limit) (map (λ stream. stream.pid) streams.now)
        (λ whole. IsOfStream whole (map (λ stream. stream.pid) streams.now) index (RefusesAudio first.time))) }
    ensures reads { ReadsUpTo K.files K.counts K.asked K.since_fault file.now.name.now file.now.limit (stream_stop_in result) shelf.old shelf.new }
{
    buffer.clear();
    let mut pass = FilePass::new(shelf, file.name, file.limit);
    let read = read_audio(alloc, buffer, &mut pass, streams, index, first);
    match pass.stop() {
        Some(fault) => Err(StreamStop::Ended(outside_refused(fault))),
        None => match read {
            Ok(read) => Ok(read),
            Err(fault) => Err(audio_stop(fault)),
        },
    }
}

/// What a read of the shelf that failed is told as.
pub(crate) fn outside_refused(fault: Fault) -> PassedFault
    ensures { result ≡ of_outside fault }
{
    match fault {
        Fault::Failed => PassedFault::Failed,
        Fault::Missing => PassedFault::Missing,
        Fault::OutOfMemory => PassedFault::Refused(ProgramFault::OutOfMemory),
    }
}

/// What a pass is told as that no read stopped.
fn pass_refused(fault: PassFault) -> PassedFault
    ensures { result ≡ of_pass fault }
{
    match fault {
        PassFault::Outside(_) => PassedFault::Refused(ProgramFault::OutOfMemory),
        PassFault::Refused(fault) => PassedFault::Refused(demux_refused(fault)),
    }
}

fn video_stop(fault: ReadFault) -> StreamStop<ProgramFault>
    ensures { result ≡ of_video_pass fault }
{
    match fault {
        ReadFault::Passing(fault) => StreamStop::Ended(pass_refused(fault)),
        ReadFault::Refused(fault) => match fault {
            ProgramFault::Refused { kind, at } => {
                StreamStop::Refused(ProgramFault::Refused { kind, at })
            }
            ProgramFault::OutOfMemory => {
                StreamStop::Ended(PassedFault::Refused(ProgramFault::OutOfMemory))
            }
        },
    }
}

fn audio_stop(fault: stream_pass::ReadFault<PassFault, StreamFault>) -> StreamStop<StreamFault>
    ensures { result ≡ of_audio_pass fault }
{
    match fault {
        stream_pass::ReadFault::Passing(fault) => StreamStop::Ended(pass_refused(fault)),
        stream_pass::ReadFault::Limit => StreamStop::Ended(PassedFault::Refused(PROGRAM_LIMIT)),
        stream_pass::ReadFault::Refused(fault) => StreamStop::Refused(fault),
        stream_pass::ReadFault::OutOfMemory => {
            StreamStop::Ended(PassedFault::Refused(ProgramFault::OutOfMemory))
        }
    }
}
