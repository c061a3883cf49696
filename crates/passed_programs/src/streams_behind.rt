//! The streams of a file in the order of its refusals: what one is refused for comes behind too many PES packets of those behind it.
ghost use Rattle.std.specs.Prelude.{◌≡◌, ◌+◌, ◌<◌, ◌≤◌, length, map, None, IfErr, IfOk, IfSome, OnOk};
ghost use Rattle.file_pass.specs.FilePass.{ReadsUpTo};
ghost use Rattle.ts_demux.specs.CarriedPackets.{AreDistinct};
ghost use Rattle.version_table.specs.declared.limits.TheConstants.{VERSIONS_MOST};
ghost use Rattle.elementary_streams.specs.NearTimes.{IsNear};
ghost use Rattle.program_reader.specs.declared.limits.TheConstants.{FILE_BYTES_MOST};
ghost use Rattle.program_reader.specs.Faults.{of_stream};
ghost use Rattle.stream_pass.specs.PassedStream.{IsOfStream};
ghost use Rattle.passed_programs.specs.PassedAudio.{ReadsAudio};
ghost use Rattle.passed_programs.specs.PassedFile.{stop_in, stop_of};
ghost use Rattle.passed_programs.specs.Private.Passes.{AreAudiosPassed, AreFewFrom, EndsPasses, IsAudioFaultAt, IsAudiosFault, IsFew, IsOfTold, IsRefusedBehind, IsVideoFault, IsVideoPassed, OfFront, ended_in, front_of, stop_at};

use crate::passed_fault::PassedFault;
use crate::passes::{PassedFile, VideoPassed, pass_audio, pass_video};
use crate::stream_stop::StreamStop;
use elementary_streams::{AxisTime, ReadStream, StreamFault};
use list_types::ListOf;
use program_reader::{ProgramFault, SizesWanted, audio_refused, pes_refused};
use psi_tables::Stream;
use shelf_io::Shelf;
use std::alloc::Global;
use ts_demux::PacketBuffer;

/// The video of a file. Where it is refused, the streams behind it are passed for their number of PES packets.
#[tactic(auto, using(crate::proofs::Streams::video_ends, crate::proofs::Streams::video_behind, crate::proofs::Streams::reads_twice))]
pub(crate) fn video_of_file<K: Shelf>(
    alloc: Global,
    buffer: &mut PacketBuffer,
    shelf: &mut K,
    file: &PassedFile<'_>,
    streams: &[Stream],
    wanted: SizesWanted<'_>,
) -> Result<VideoPassed, PassedFault>
    requires limit { file.now.limit ≤ FILE_BYTES_MOST }
    requires some { 0 < length streams.now }
    requires distinct { AreDistinct (map (λ stream. stream.pid) streams.now) }
    requires coarser { length wanted.coarser.now < VERSIONS_MOST }
    ensures video { IfOk result (λ passed. OfFront (front_of (K.files shelf.old) file.now.name.now file.now.limit) (IsVideoPassed (map (λ stream. stream.pid) streams.now) wanted.entry passed)) }
    ensures within { IfOk result (λ passed. passed.size ≤ file.now.limit) }
    ensures refused { IfErr result (IsOfTold (front_of (K.files shelf.old) file.now.name.now file.now.limit) (IsVideoFault (map (λ stream. stream.pid) streams.now))) }
    ensures reads { ReadsUpTo K.files K.counts K.asked K.since_fault file.now.name.now file.now.limit (stop_in result) shelf.old shelf.new }
{
    match pass_video(alloc, buffer, shelf, file, streams, wanted) {
        Ok(passed) => Ok(passed),
        Err(stop) => match stop {
            StreamStop::Ended(fault) => Err(fault),
            StreamStop::Refused(fault) => {
                Err(refused_behind(alloc, buffer, shelf, file, streams, 1, fault))
            }
        },
    }
}

/// All audio streams of a file, of a program whose video begins at a time, in their order.
#[tactic(auto, using(crate::proofs::Streams::reads_twice, crate::proofs::Streams::reads_none))]
pub(crate) fn audios_of_file<K: Shelf>(
    alloc: Global,
    buffer: &mut PacketBuffer,
    shelf: &mut K,
    file: &PassedFile<'_>,
    streams: &[Stream],
    first: AxisTime,
) -> Result<ListOf<ReadStream>, PassedFault>
    requires limit { file.now.limit ≤ FILE_BYTES_MOST }
    requires some { 0 < length streams.now }
    requires distinct { AreDistinct (map (λ stream. stream.pid) streams.now) }
    requires first { IsNear 0 first.time }
    ensures read { IfOk result (AreAudiosPassed (front_of (K.files shelf.old) file.now.name.now file.now.limit) (map (λ stream. stream.pid) streams.now) first.time 1) }
    ensures all { IfOk result (λ audios. 1 + length audios ≡ length streams.now) }
    ensures refused { IfErr result (IsOfTold (front_of (K.files shelf.old) file.now.name.now file.now.limit) (IsAudiosFault (map (λ stream. stream.pid) streams.now) first.time)) }
    ensures reads { ReadsUpTo K.files K.counts K.asked K.since_fault file.now.name.now file.now.limit (stop_in result) shelf.old shelf.new }
{
    let mut audios = ListOf::new(alloc);
    for index in 1..streams.len() {
        match audio_of_file(alloc, buffer, shelf, file, streams, index, first) {
            Ok(read) => match audios.push(read) {
                Ok(()) => {}
                Err(_) => return Err(PassedFault::Refused(ProgramFault::OutOfMemory)),
            },
            Err(fault) => return Err(fault),
        }
    }
    Ok(audios)
}

/// The audio stream of a number. Where it is refused, the streams behind it are passed for their number of PES packets.
#[tactic(auto, using(crate::proofs::Streams::audio_ends, crate::proofs::Streams::audio_behind, crate::proofs::Streams::reads_twice))]
fn audio_of_file<K: Shelf>(
    alloc: Global,
    buffer: &mut PacketBuffer,
    shelf: &mut K,
    file: &PassedFile<'_>,
    streams: &[Stream],
    index: usize,
    first: AxisTime,
) -> Result<ReadStream, PassedFault>
    requires limit { file.now.limit ≤ FILE_BYTES_MOST }
    requires index { index < length streams.now }
    requires distinct { AreDistinct (map (λ stream. stream.pid) streams.now) }
    requires first { IsNear 0 first.time }
    ensures read { IfOk result (λ read. OfFront (front_of (K.files shelf.old) file.now.name.now file.now.limit)
        (λ whole. IsOfStream whole (map (λ stream. stream.pid) streams.now) index (ReadsAudio first.time) read)) }
    ensures refused { IfErr result (IsOfTold (front_of (K.files shelf.old) file.now.name.now file.now.limit) (IsAudioFaultAt (map (λ stream. stream.pid) streams.now) index first.time)) }
    ensures reads { ReadsUpTo K.files K.counts K.asked K.since_fault file.now.name.now file.now.limit (stop_in result) shelf.old shelf.new }
{
    match pass_audio(alloc, buffer, shelf, file, streams, index, first) {
        Ok(read) => Ok(read),
        Err(stop) => match stop {
            StreamStop::Ended(fault) => Err(fault),
            StreamStop::Refused(fault) => {
                let fault = stream_refused(fault);
                Err(refused_behind(alloc, buffer, shelf, file, streams, index + 1, fault))
            }
        },
    }
}

/// What a file is refused for whose stream is refused for this, and which has others from a number on.
#[tactic(auto, using(crate::proofs::Streams::behind_ends, crate::proofs::Streams::behind_few))]
fn refused_behind<K: Shelf>(
    alloc: Global,
    buffer: &mut PacketBuffer,
    shelf: &mut K,
    file: &PassedFile<'_>,
    streams: &[Stream],
    from: usize,
    own: ProgramFault,
) -> PassedFault
    requires limit { file.now.limit ≤ FILE_BYTES_MOST }
    requires from { from ≤ length streams.now }
    requires distinct { AreDistinct (map (λ stream. stream.pid) streams.now) }
    ensures refused { IsOfTold (front_of (K.files shelf.old) file.now.name.now file.now.limit) (IsRefusedBehind (map (λ stream. stream.pid) streams.now) from own) result }
    ensures reads { ReadsUpTo K.files K.counts K.asked K.since_fault file.now.name.now file.now.limit (stop_of result) shelf.old shelf.new }
{
    match few_behind(alloc, buffer, shelf, file, streams, from) {
        Ok(()) => PassedFault::Refused(own),
        Err(fault) => fault,
    }
}

/// Passes the streams from a number on for their number of PES packets alone.
fn few_behind<K: Shelf>(
    alloc: Global,
    buffer: &mut PacketBuffer,
    shelf: &mut K,
    file: &PassedFile<'_>,
    streams: &[Stream],
    from: usize,
) -> Result<(), PassedFault>
    requires limit { file.now.limit ≤ FILE_BYTES_MOST }
    requires from { from ≤ length streams.now }
    requires distinct { AreDistinct (map (λ stream. stream.pid) streams.now) }
    ensures few { OnOk result (IfSome (front_of (K.files shelf.old) file.now.name.now file.now.limit) (λ whole. AreFewFrom whole (map (λ stream. stream.pid) streams.now) from)) }
    ensures refused { IfErr result (IsOfTold (front_of (K.files shelf.old) file.now.name.now file.now.limit) (EndsPasses (map (λ stream. stream.pid) streams.now))) }
    ensures reads { ReadsUpTo K.files K.counts K.asked K.since_fault file.now.name.now file.now.limit (stop_in result) shelf.old shelf.new }
{
    for index in from..streams.len() {
        match few_end(alloc, buffer, shelf, file, streams, index) {
            None => {}
            Some(fault) => return Err(fault),
        }
    }
    Ok(())
}

/// What ends all passes where the stream of a number is passed for its number of PES packets alone, whatever it is refused for.
fn few_end<K: Shelf>(
    alloc: Global,
    buffer: &mut PacketBuffer,
    shelf: &mut K,
    file: &PassedFile<'_>,
    streams: &[Stream],
    index: usize,
) -> Option<PassedFault>
    requires limit { file.now.limit ≤ FILE_BYTES_MOST }
    requires index { index < length streams.now }
    requires distinct { AreDistinct (map (λ stream. stream.pid) streams.now) }
    ensures few { result ≡ None → IfSome (front_of (K.files shelf.old) file.now.name.now file.now.limit) (λ whole. IsFew whole (map (λ stream. stream.pid) streams.now) index) }
    ensures refused { IfSome result (IsOfTold (front_of (K.files shelf.old) file.now.name.now file.now.limit) (EndsPasses (map (λ stream. stream.pid) streams.now))) }
    ensures reads { ReadsUpTo K.files K.counts K.asked K.since_fault file.now.name.now file.now.limit (stop_at result) shelf.old shelf.new }
{
    let first = AxisTime { time: 0 };
    let passed = pass_audio(alloc, buffer, shelf, file, streams, index, first);
    ended(passed)
}

/// What ends all passes by what one of them answers.
fn ended(passed: Result<ReadStream, StreamStop<StreamFault>>) -> Option<PassedFault>
    ensures { result ≡ ended_in passed }
{
    match passed {
        Ok(_) => None,
        Err(stop) => match stop {
            StreamStop::Ended(fault) => Some(fault),
            StreamStop::Refused(_) => None,
        },
    }
}

/// What an elementary stream is refused for.
fn stream_refused(fault: StreamFault) -> ProgramFault
    ensures { result ≡ of_stream fault }
{
    match fault {
        StreamFault::Pes { at, fault } => pes_refused(at, fault),
        StreamFault::Frames(fault) => audio_refused(fault),
        StreamFault::OutOfMemory => ProgramFault::OutOfMemory,
    }
}
