//! The video of a file, read while the file passes out of a source.
ghost use Rattle.std.specs.Prelude.{◌≡◌, ℕ, ◌<◌, true, List, [], length, map, None, IfErr, IfOk, IfSome, IsErrOf};
ghost use Rattle.std.specs.Option.{option_copied};
ghost use Rattle.bit_lists.specs.Fields.{AreBytes};
ghost use Rattle.shelf_io.specs.Causes.{SourceCauses};
ghost use Rattle.ts_demux.specs.declared.demuxed.Demuxed.{Demuxed};
ghost use Rattle.ts_demux.specs.declared.pass_fault.PassFault.TheVariants.{Outside};
ghost use Rattle.ts_demux.specs.CarriedPackets.{AreDistinct};
ghost use Rattle.ts_demux.specs.Pass.{IsWhole};
ghost use Rattle.program_stream.specs.declared.element_fault.ElementFault.TheVariants as elements;
ghost use Rattle.version_table.specs.declared.limits.TheConstants.{VERSIONS_MOST};
ghost use Rattle.program_reader.specs.KeptUnits.{kept_at};
ghost use Rattle.program_reader.specs.Programs.{IsDemuxedRefused, video_bytes};
ghost use Rattle.program_reader.specs.Sizes.{AreUnitSizes};
ghost use Rattle.program_reader.specs.VideoWalk.{HasRead, IsVideoWalked, wanted_of};
ghost use Rattle.stream_pass.specs.declared.read_fault.ReadFault.TheVariants as stream_faults;
ghost use Rattle.stream_pass.specs.PassedElements.{IsOfId, IsIdRefused};
ghost use Rattle.passed_programs.specs.declared.read_fault.ReadFault.TheVariants as faults;
ghost use Rattle.passed_programs.specs.PassedVideo.{IsReadRefused, IsVideoRead};
ghost use Rattle.passed_programs.specs.VideoPackets.{ReadsVideo, RefusesVideo};
ghost use Rattle.passed_programs.specs.Private.TakenVideo.{AreBytesOf, as_read_fault, as_walk_fault};

use crate::passes::PROGRAM_LIMIT;
use crate::read_fault::ReadFault;
use program_reader::laws::see_bytes;
use program_reader::{ProgramFault, SizesWanted, SourceKind, VideoWalk, WalkedVideo};
use program_stream::ElementFault;
use psi_tables::Stream;
use shelf_io::{Fault, Source};
use std::alloc::Global;
use stream_pass::{StreamWalk, WalkFault, pass_elements, pass_stream};
use ts_demux::{PacketBuffer, PassFault, PesUnit};

const _: () = prove!(
    program_reader::limits::FILE_BYTES_MOST as u64 == stream_pass::limits::FILE_BYTES_MOST
);

const _: () = prove!(
    program_reader::limits::PES_PACKETS_MOST as u64 == stream_pass::limits::PES_PACKETS_MOST
);

/// A walk over a video whose PES packets pass.
#[derive(Drop)]
struct PassedVideo<'a> {
    walk: VideoWalk<'a>,
}

/// Reads the video of a file out of a source that gives the file from its front on: the stream that stands first among those of a map that are carried, whose
/// PIDs differ. Of its bytes none but those of the open PES packet and of the open unit are held. An error is the source's fault, or the first refusal: that of
/// the transport packets of all these streams, and then the video's.
pub fn read_video<S: Source>(
    alloc: Global,
    buffer: &mut PacketBuffer,
    source: &mut S,
    streams: &[Stream],
    wanted: SizesWanted<'_>,
) -> Result<WalkedVideo, ReadFault>
    requires empty { buffer.old ≡ [] }
    requires some { 0 < length streams.now }
    requires distinct { AreDistinct (map (λ stream. stream.pid) streams.now) }
    requires coarser { length wanted.coarser.now < VERSIONS_MOST }
    ensures video { IfOk result (λ video. IsWhole (S.left source.old) (S.left source.new) (S.most source.old) (S.most source.new) buffer.new
        (λ file. IsVideoRead file (map (λ stream. stream.pid) streams.now) wanted.entry video)) }
    ensures refused { IfErr result (IsReadRefused (S.left source.old) (S.left source.new) (S.most source.old) (S.most source.new) buffer.new (map (λ stream. stream.pid) streams.now)) }
    ensures causes { SourceCauses S.faults S.absences (IsErrOf result (faults.Passing (Outside Fault.Failed))) (IsErrOf result (faults.Passing (Outside Fault.Missing))) source.old source.new }
    ensures keeps { S.keeps source.old source.new }
{
    let walk = PassedVideo {
        walk: VideoWalk::new(alloc, wanted),
    };
    match pass_stream(alloc, buffer, source, streams, 0, walk) {
        Ok(video) => Ok(video),
        Err(fault) => Err(read_refused(fault)),
    }
}

/// Reads the video of a program stream out of a source that gives the file from its front on: the stream of this id. Of its bytes none are held but those of one
/// PES packet, of one element and of the open unit. An error is the source's fault, want of memory, or the first refusal: a short file, that of the elements,
/// that a limit is passed, and then the video's.
pub fn read_id_video<S: Source>(
    alloc: Global,
    source: &mut S,
    id: u16,
    wanted: SizesWanted<'_>,
) -> Result<WalkedVideo, stream_pass::ReadFault<ElementFault, ProgramFault>>
    requires { length wanted.coarser.now < VERSIONS_MOST }
    ensures video { IfOk result (λ video. IsWhole (S.left source.old) (S.left source.new) (S.most source.old) (S.most source.new) [] (λ file. IsOfId file id (ReadsVideo wanted.entry) video)) }
    ensures refused { IfErr result (IsIdRefused (S.left source.old) (S.left source.new) (S.most source.old) (S.most source.new) id RefusesVideo) }
    ensures causes { SourceCauses S.faults S.absences (IsErrOf result (stream_faults.Passing (elements.Outside Fault.Failed))) (IsErrOf result (stream_faults.Passing (elements.Outside Fault.Missing))) source.old source.new }
    ensures keeps { S.keeps source.old source.new }
{
    let walk = PassedVideo {
        walk: VideoWalk::new(alloc, wanted),
    };
    pass_elements(alloc, source, id, walk)
}

impl<'a> StreamWalk for PassedVideo<'a> {
    type Read = WalkedVideo;

    type Fault = ProgramFault;

    ghost has_read = { λ start packets video. HasRead packets video.walk × (wanted_of video.walk ≡ wanted_of start.walk) × AreBytesOf packets };

    ghost reads = { λ start. ReadsVideo (wanted_of start.walk) };

    ghost refuses = { λ start. RefusesVideo };

    fn take(self, packet: &PesUnit) -> Result<Self, WalkFault<ProgramFault>> {
        see_bytes(packet.bytes.as_slice());
        let mut video = self;
        match video.walk.add(packet) {
            Ok(()) => Ok(video),
            Err(fault) => Err(walk_refused(fault)),
        }
    }

    fn end(self, last: Option<&PesUnit>) -> Result<WalkedVideo, WalkFault<ProgramFault>> {
        see_last(last);
        let PassedVideo { walk } = self;
        match walk.end(last) {
            Ok(video) => Ok(video),
            Err(fault) => Err(walk_refused(fault)),
        }
    }
}

/// The bytes of a last PES packet are bytes.
fn see_last(last: Option<&PesUnit>)
    ensures { IfSome (option_copied last.entry) (λ packet. AreBytes packet.bytes) }
{
    if let Some(packet) = last {
        see_bytes(packet.bytes.as_slice());
    }
}

/// A fault of a video, or want of memory.
fn walk_refused(fault: ProgramFault) -> WalkFault<ProgramFault>
    ensures { result ≡ as_walk_fault fault }
{
    match fault {
        ProgramFault::Refused { kind, at } => {
            WalkFault::Refused(ProgramFault::Refused { kind, at })
        }
        ProgramFault::OutOfMemory => WalkFault::OutOfMemory,
    }
}

/// What a reading is refused for by what a pass says.
fn read_refused(fault: stream_pass::ReadFault<PassFault, ProgramFault>) -> ReadFault
    ensures { result ≡ as_read_fault fault }
{
    match fault {
        stream_pass::ReadFault::Passing(fault) => ReadFault::Passing(fault),
        stream_pass::ReadFault::Limit => ReadFault::Refused(PROGRAM_LIMIT),
        stream_pass::ReadFault::Refused(fault) => ReadFault::Refused(fault),
        stream_pass::ReadFault::OutOfMemory => ReadFault::Refused(ProgramFault::OutOfMemory),
    }
}
