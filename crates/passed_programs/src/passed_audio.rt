//! An audio stream of a file that is read while the file passes out of a source.
ghost use Rattle.std.specs.Prelude.{◌≡◌, ℕ, ◌<◌, List, [], length, map, IfErr, IfOk, IsErrOf};
ghost use Rattle.program_stream.specs.declared.element_fault.ElementFault.TheVariants as elements;
ghost use Rattle.shelf_io.specs.Causes.{SourceCauses};
ghost use Rattle.ts_demux.specs.declared.demuxed.PesUnit.{PesUnit};
ghost use Rattle.ts_demux.specs.declared.pass_fault.PassFault.TheVariants.{Outside};
ghost use Rattle.ts_demux.specs.CarriedPackets.{AreDistinct};
ghost use Rattle.ts_demux.specs.Pass.{IsWhole};
ghost use Rattle.elementary_streams.specs.NearTimes.{IsNear};
ghost use Rattle.audio_walk.specs.AudioWalk.{HasRead};
ghost use Rattle.stream_pass.specs.declared.read_fault.ReadFault.TheVariants as faults;
ghost use Rattle.stream_pass.specs.PassedElements.{IsOfId, IsIdRefused};
ghost use Rattle.stream_pass.specs.PassedStream.{IsOfStream, IsReadRefused};
ghost use Rattle.passed_programs.specs.PassedAudio.{ReadsAudio, RefusesAudio};
ghost use Rattle.passed_programs.specs.Private.Faults.{as_walk_fault};

use audio_walk::AudioWalk;
use elementary_streams::{AxisTime, ReadStream, StreamFault};
use program_stream::ElementFault;
use psi_tables::Stream;
use shelf_io::{Fault, Source};
use std::alloc::Global;
use stream_pass::{ReadFault, StreamWalk, WalkFault, pass_elements, pass_stream};
use ts_demux::{PacketBuffer, PassFault, PesUnit};

/// A walk over an audio stream, with the time at which the video of its program begins.
#[derive(Drop)]
struct TimedWalk {
    walk: AudioWalk,
    first: AxisTime,
}

/// Reads an audio stream of a file, of a program whose video begins at a time, out of a source that gives the file from its front on: the stream of this number
/// among those of a map that are carried, whose PIDs differ. Of its bytes none but those of the open PES packet are held, and those that `AudioWalk` keeps. An
/// error is the source's fault, want of memory, or the first refusal: that of the transport packets of all these streams, that a limit is passed, and then
/// the audio stream's.
pub fn read_audio<S: Source>(
    alloc: Global,
    buffer: &mut PacketBuffer,
    source: &mut S,
    streams: &[Stream],
    index: usize,
    first: AxisTime,
) -> Result<ReadStream, ReadFault<PassFault, StreamFault>>
    requires empty { buffer.old ≡ [] }
    requires index { index < length streams.now }
    requires distinct { AreDistinct (map (λ stream. stream.pid) streams.now) }
    requires first { IsNear 0 first.time }
    ensures read { IfOk result (λ read. IsWhole (S.left source.old) (S.left source.new) (S.most source.old) (S.most source.new) buffer.new
        (λ file. IsOfStream file (map (λ stream. stream.pid) streams.now) index (ReadsAudio first.time) read)) }
    ensures refused { IfErr result (IsReadRefused (S.left source.old) (S.left source.new) (S.most source.old) (S.most source.new) buffer.new
        (map (λ stream. stream.pid) streams.now) index (RefusesAudio first.time)) }
    ensures causes { SourceCauses S.faults S.absences (IsErrOf result (faults.Passing (Outside Fault.Failed))) (IsErrOf result (faults.Passing (Outside Fault.Missing))) source.old source.new }
    ensures keeps { S.keeps source.old source.new }
{
    let walk = TimedWalk {
        walk: AudioWalk::new(alloc),
        first,
    };
    pass_stream(alloc, buffer, source, streams, index, walk)
}

/// Reads an audio stream of a program stream, of a program whose video begins at a time, out of a source that gives the file from its front on: the stream of this
/// id. Of its bytes none are held but those of one PES packet and of one element, and those that `AudioWalk` keeps. An error is the source's fault, want of
/// memory, or the first refusal: a short file, that of the elements, that a limit is passed, and then the audio stream's.
pub fn read_id_audio<S: Source>(
    alloc: Global,
    source: &mut S,
    id: u16,
    first: AxisTime,
) -> Result<ReadStream, ReadFault<ElementFault, StreamFault>>
    requires { IsNear 0 first.time }
    ensures read { IfOk result (λ read. IsWhole (S.left source.old) (S.left source.new) (S.most source.old) (S.most source.new) [] (λ file. IsOfId file id (ReadsAudio first.time) read)) }
    ensures refused { IfErr result (IsIdRefused (S.left source.old) (S.left source.new) (S.most source.old) (S.most source.new) id (RefusesAudio first.time)) }
    ensures causes { SourceCauses S.faults S.absences (IsErrOf result (faults.Passing (elements.Outside Fault.Failed))) (IsErrOf result (faults.Passing (elements.Outside Fault.Missing))) source.old source.new }
    ensures keeps { S.keeps source.old source.new }
{
    let walk = TimedWalk {
        walk: AudioWalk::new(alloc),
        first,
    };
    pass_elements(alloc, source, id, walk)
}

impl StreamWalk for TimedWalk {
    type Read = ReadStream;

    type Fault = StreamFault;

    ghost has_read = { λ start packets walk. HasRead packets walk.walk × (walk.first.time ≡ start.first.time) × IsNear 0 start.first.time };

    ghost reads = { λ start. ReadsAudio start.first.time };

    ghost refuses = { λ start. RefusesAudio start.first.time };

    fn take(self, packet: &PesUnit) -> Result<Self, WalkFault<StreamFault>> {
        let TimedWalk { walk, first } = self;
        match walk.take(packet) {
            Ok(walk) => Ok(TimedWalk { walk, first }),
            Err(fault) => Err(walk_fault(fault)),
        }
    }

    fn end(self, last: Option<&PesUnit>) -> Result<ReadStream, WalkFault<StreamFault>> {
        let TimedWalk { walk, first } = self;
        match walk.end(last, &first) {
            Ok(read) => Ok(read),
            Err(fault) => Err(walk_fault(fault)),
        }
    }
}

/// A fault of an audio stream, or want of memory.
fn walk_fault(fault: StreamFault) -> WalkFault<StreamFault>
    ensures { result ≡ as_walk_fault fault }
{
    match fault {
        StreamFault::OutOfMemory => WalkFault::OutOfMemory,
        _ => WalkFault::Refused(fault),
    }
}
