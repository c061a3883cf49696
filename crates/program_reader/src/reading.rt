//! The program of a file.
ghost use Rattle.std.specs.Prelude.{◌≡◌, ◌⊎◌, ◌+◌, ◌≤◌, ◌<◌, ◌^◌, ◌↔◌, [], true, IsTrue, length, All, IfOk, MatchResult};
ghost use Rattle.std.specs.List.{sum_by};
ghost use Rattle.program_reader.specs.declared.program_fault.ProgramFault.TheVariants.{OutOfMemory};
ghost use Rattle.program_reader.specs.Programs.{all_packets_dropped, HasFewPackets, IsProgram, IsDemuxedRefused, IsProgramOfFile, IsProgramRefused};
ghost use Rattle.program_reader.specs.AudioTypes.{typed};
ghost use Rattle.program_reader.specs.Sizes.{AreProgramSizes};

use crate::audio_streams::read_streams;
use crate::audio_types::map_by_form;
use crate::due_program::{BesideVideo, due_program};
use crate::found_streams::{FoundStreams, find_streams};
use crate::limits::{FILE_BYTES_MOST, PES_PACKETS_MOST, UNITS_MOST};
use crate::program::Program;
use crate::program_fault::{ProgramFault, SourceKind};
use crate::stream_sizes::stream_sizes;
use crate::unit_sizes::{SizesWanted, UnitSizes};
use crate::video_stream::read_video;
use job_report::Form;
use job_report::limits::START_MOST;
use list_types::ListOf;
use std::alloc::Global;
use stream_constants::limits::AUDIOS_MOST;
use ts_demux::{AudioStream, Demuxed};
use version_table::limits::VERSIONS_MOST;

/// What is said of a limit that is passed.
const PROGRAM_LIMIT: ProgramFault = ProgramFault::Refused {
    kind: SourceKind::ProgramLimit,
    at: 0,
};

/// A program, and the sizes of all versions of its units.
#[derive(Drop)]
pub struct SizedProgram {
    pub program: Program,
    /// One for each unit, in order.
    pub sizes: ListOf<UnitSizes>,
}

/// Reads a program of a file of a form: its units and audio packets with the times at which a decoder wants them, the earliest one at
/// `start`, without the audio streams whose PIDs, or stream ids of a program stream, are in `drop`. An error is the first refusal of the
/// file in the order of reading, with its place, or want of memory. Beside the file at most twice the payload of the carried streams is held, and a record a
/// packet, unit and frame.
pub fn read_program(
    alloc: Global,
    file: &[u8],
    form: Form,
    number: u16,
    drop: &[u16],
    start: u64,
) -> Result<Program, ProgramFault>
    requires start { start ≤ START_MOST }
    ensures { MatchResult result (IsProgramOfFile form file.now number drop.now start) (IsProgramRefused form file.now number drop.now) }
{
    let wanted = SizesWanted {
        are_wanted: false,
        coarser: &[],
    };
    let mut sizes = Vec::new(alloc);
    match program_in(alloc, file, form, number, drop, start, &wanted, &mut sizes) {
        Ok(program) => Ok(program),
        Err(fault) => Err(fault),
    }
}

/// Reads a program as `read_program` does, and the sizes of all versions of its units at these ratios, in sixteenths: each unit is read
/// once for both. Distortions are sums of squares of coefficients, as `VersionSize` says.
pub fn read_sized_program(
    alloc: Global,
    file: &[u8],
    form: Form,
    number: u16,
    drop: &[u16],
    start: u64,
    coarser: &[u16],
) -> Result<SizedProgram, ProgramFault>
    requires start { start ≤ START_MOST }
    requires coarser { length coarser.now < VERSIONS_MOST }
    ensures program { MatchResult result (λ sized. IsProgramOfFile form file.now number drop.now start sized.program) (IsProgramRefused form file.now number drop.now) }
    ensures sizes { IfOk result (λ sized. AreProgramSizes sized.program coarser.now sized.sizes) }
{
    let wanted = SizesWanted {
        are_wanted: true,
        coarser,
    };
    let mut sizes = Vec::new(alloc);
    match program_in(alloc, file, form, number, drop, start, &wanted, &mut sizes) {
        Ok(program) => Ok(SizedProgram {
            program,
            sizes: ListOf::from_vec(sizes),
        }),
        Err(fault) => Err(fault),
    }
}

/// The program in a file. Where the sizes of its units' versions are wanted, these are put into `sizes`.
fn program_in(
    alloc: Global,
    file: &[u8],
    form: Form,
    number: u16,
    drop: &[u16],
    start: u64,
    wanted: &SizesWanted<'_>,
    sizes: &mut Vec<UnitSizes>,
) -> Result<Program, ProgramFault>
    requires start { start ≤ START_MOST }
    requires coarser { length wanted.now.coarser.now < VERSIONS_MOST }
    requires none { sizes.old.items ≡ [] }
    ensures program { MatchResult result (IsProgramOfFile form file.now number drop.now start) (IsProgramRefused form file.now number drop.now) }
    ensures sizes { IfOk result (λ program. wanted.now.are_wanted ≡ true → AreProgramSizes program wanted.now.coarser.now sizes.new.items) }
{
    if file.len() > FILE_BYTES_MOST {
        return Err(PROGRAM_LIMIT);
    }
    stream_sizes();
    let found = match find_streams(alloc, file, form, number, drop) {
        Ok(found) => found,
        Err(fault) => return Err(fault),
    };
    if !has_few_packets(&found.demuxed) {
        return Err(PROGRAM_LIMIT);
    }
    match program_of(alloc, found, form, start, wanted, sizes) {
        Ok(program) => Ok(program),
        Err(fault) => Err(fault),
    }
}

/// True where no carried stream has more PES packets than a program may have of one.
fn has_few_packets(demuxed: &Demuxed) -> bool
    ensures { IsTrue result ↔ HasFewPackets demuxed.now }
{
    demuxed.video.as_slice().len() <= PES_PACKETS_MOST && have_few_each(demuxed.audios.as_slice())
}

fn have_few_each(streams: &[AudioStream]) -> bool
    ensures { IsTrue result ↔ All (λ stream. length stream.units ≤ PES_PACKETS_MOST) streams.now }
{
    streams
        .iter()
        .all(|stream| stream.units.as_slice().len() <= PES_PACKETS_MOST)
}

/// The program of the streams that stand in a file of a form. An error is the first refusal of its video, its audio streams and the number
/// of its units, in this order.
fn program_of(
    alloc: Global,
    found: FoundStreams,
    form: Form,
    start: u64,
    wanted: &SizesWanted<'_>,
    sizes: &mut Vec<UnitSizes>,
) -> Result<Program, ProgramFault>
    requires start { start < 2 ^ 50 }
    requires video_few { length found.demuxed.video ≤ PES_PACKETS_MOST }
    requires video_small { sum_by (λ packet. length packet.bytes) found.demuxed.video ≤ FILE_BYTES_MOST }
    requires audios_few { All (λ stream. length stream.units ≤ PES_PACKETS_MOST) found.demuxed.audios }
    requires audios_small { All (λ stream. sum_by (λ packet. length packet.bytes) stream.units ≤ FILE_BYTES_MOST) found.demuxed.audios }
    requires few_audios { length found.demuxed.audios ≤ AUDIOS_MOST }
    requires cut { found.cut ≤ 1 }
    requires coarser { length wanted.now.coarser.now < VERSIONS_MOST }
    requires none { sizes.old.items ≡ [] }
    ensures program { MatchResult result (IsProgram start (typed form found.demuxed)) (λ fault. (fault ≡ OutOfMemory) ⊎ IsDemuxedRefused (typed form found.demuxed) fault) }
    ensures dropped { IfOk result (λ program. program.pes_dropped ≡ all_packets_dropped (typed form found.demuxed) + found.cut) }
    ensures sizes { IfOk result (λ program. wanted.now.are_wanted ≡ true → AreProgramSizes program wanted.now.coarser.now sizes.new.items) }
{
    let FoundStreams { demuxed, cut } = found;
    let Demuxed {
        map,
        video: packets,
        audios,
        rest,
        not_carried,
    } = demuxed;
    let video = match read_video(alloc, packets, wanted, sizes) {
        Ok(video) => video,
        Err(fault) => return Err(fault),
    };
    let streams = match read_streams(alloc, audios.as_slice(), &video.first_time()) {
        Ok(streams) => streams,
        Err(fault) => return Err(fault),
    };
    if video.units.as_slice().len() > UNITS_MOST {
        return Err(PROGRAM_LIMIT);
    }
    let beside = BesideVideo {
        map: map_by_form(form, map, audios.as_slice(), streams.as_slice()),
        audios,
        rest,
        not_carried,
        cut,
    };
    match due_program(alloc, beside, video, streams.as_slice(), start) {
        Ok(program) => Ok(program),
        Err(_) => Err(ProgramFault::OutOfMemory),
    }
}
