//! Videos, out of sources that give the file in pieces.
ghost use Rattle.std.specs.Prelude.{◌≡◌, ℕ, ◌≤◌, [], List, length, All, Err, IfOk};
ghost use Rattle.ts_demux.specs.declared.demuxed.Demuxed.{Demuxed};
ghost use Rattle.ts_demux.specs.Demux.{IsDemuxed};
ghost use Rattle.job_report.specs.declared.job.Form.TheVariants.{Ts};
ghost use Rattle.elementary_streams.specs.NearTimes.{IsNear};
ghost use Rattle.program_reader.specs.declared.limits.TheConstants.{PES_PACKETS_MOST};
ghost use Rattle.program_reader.specs.declared.program_fault.ProgramFault.{ProgramFault};
ghost use Rattle.program_reader.specs.Programs.{IsProgramRefused};
ghost use Rattle.program_reader.specs.VideoWalk.{IsVideoWalked};
ghost use Rattle.passed_programs.specs.declared.read_fault.ReadFault.TheVariants as faults;

use job_report::Form;
use passed_programs::{ReadFault, read_video, video_laws};
use program_maker::make_program;
use program_reader::{Program, ProgramFault, SizesWanted, SourceKind, WalkedVideo, read_program};
use shelf_io::{Reading, SOURCE_BYTES_MOST, SliceSource};
use shelf_kinds::{CalmShelf, ShortShelf};
use std::alloc::{AllocError, Global};
use std::test::Fail;
use stream_constants::packets::PACKET_BYTES;
use test_packets::{AUDIO_PID, VIDEO_PID, alike, file_of, two_streams};
use ts_demux::{DemuxFault, Demuxed, PacketBuffer, PassFault, demux};

/// How many bytes a call gives at most: one, parts of a packet, and the whole file.
const GIVEN: [u32; 5] = [1, 187, 188, 189, 4_000_000_000];

/// The video of a file with an audio stream beside it, out of a source that gives so many bytes a call.
fn video_of(
    alloc: Global,
    file: &[u8],
    given: u32,
) -> Result<Result<WalkedVideo, ReadFault>, Fail> {
    let mut inner = CalmShelf::new(alloc);
    inner.put_file("a", file)?;
    let mut shelf = ShortShelf::new(inner, given.max(1));
    let mut source = Reading::new(&mut shelf, "a");
    let mut buffer = PacketBuffer::new(vec![in alloc; 0u8; PACKET_BYTES]?);
    let streams = two_streams();
    let wanted = SizesWanted {
        are_wanted: false,
        coarser: &[],
    };
    Ok(read_video(alloc, &mut buffer, &mut source, &streams, wanted))
}

/// The video of a program that is taken out of a file, read as that file passes: what a caller owes and knows is shown by the clauses alone.
fn program_video(
    alloc: Global,
    buffer: &mut PacketBuffer,
    file: &[u8],
    program: &Demuxed,
) -> Result<WalkedVideo, ReadFault>
    requires empty { buffer.old ≡ [] }
    requires taken_out { (number : ℕ) × (drop : List ℕ) × IsDemuxed file.now number drop program.now }
    ensures video { IfOk result (IsVideoWalked program.now) }
    ensures near { IfOk result (λ video. IsNear 0 video.first.stated) }
    ensures refused { (number : ℕ) (drop : List ℕ) (fault : ProgramFault) → IsDemuxed file.now number drop program.now →
        ((demuxed : Demuxed) → IsDemuxed file.now number drop demuxed → All (λ stream. length stream.units ≤ PES_PACKETS_MOST) demuxed.audios) →
        result ≡ Err (faults.Refused fault) → IsProgramRefused Ts file.now number drop fault }
{
    if file.len() as u64 > SOURCE_BYTES_MOST {
        return Err(ReadFault::Refused(ProgramFault::OutOfMemory));
    }
    ts_demux::laws::carried_pids_differ();
    video_laws::of_told_file();
    video_laws::as_demuxed();
    video_laws::as_refused();
    video_laws::near_times();
    let wanted = SizesWanted {
        are_wanted: false,
        coarser: &[],
    };
    let streams = program.map.streams.as_slice();
    read_video(alloc, buffer, &mut SliceSource::new(file), streams, wanted)
}

/// True where a video has the units of a program, in the same places and with the same times, kinds and roles.
pub fn has_units_of(video: &WalkedVideo, program: &Program) -> bool {
    let same = video
        .units
        .as_slice()
        .iter()
        .zip(program.units.as_slice())
        .all(|(unit, source)| {
            unit.begin == source.begin
                && unit.end == source.end
                && unit.times == source.times
                && unit.kind == source.kind
                && unit.role == source.role
        });
    same && video.units.len() == program.units.len()
        && video.units_dropped == program.units_dropped
        && video.pes_dropped == program.pes_dropped
}

/// True where so many units are decoded 3,600 units of 1/90,000 s behind each other, the first at 1 s.
pub fn are_in_time(video: &WalkedVideo, count: usize) -> bool {
    let mut ticks = 27_000_000i64;
    for unit in video.units.as_slice() {
        if unit.ticks != ticks {
            return false;
        }
        ticks = ticks.wrapping_add(1_080_000);
    }
    video.units.len() == count && video.first.ticks == 27_000_000
}

#[test]
fn a_program_whatever_a_call_gives(rt: HostRuntime) -> Result<(), Fail> {
    let file = make_program(rt.alloc(), 1, 6)?;
    let whole = read_program(rt.alloc(), file.as_slice(), Form::Ts, 1, &[], 0)?;
    for given in GIVEN {
        let video = video_of(rt.alloc(), file.as_slice(), given)??;
        assert!(rt; has_units_of(&video, &whole));
        assert!(rt; are_in_time(&video, 6));
        assert_eq!(rt; (video.units_dropped, video.pes_dropped), (0, 0));
    }
    Ok(())
}

#[test]
fn a_program_that_is_taken_out(rt: HostRuntime) -> Result<(), Fail> {
    let file = make_program(rt.alloc(), 1, 6)?;
    let program = demux(rt.alloc(), file.as_slice(), 1, &[])?;
    let mut buffer = PacketBuffer::new(vec![in rt.alloc(); 0u8; PACKET_BYTES]?);
    let video = program_video(rt.alloc(), &mut buffer, file.as_slice(), &program)?;
    assert!(rt; are_in_time(&video, 6));
    Ok(())
}

/// Where the last packet of the video stands in a file.
fn last_video_packet(file: &[u8]) -> usize
    ensures { result ≤ length file.now }
{
    let [high, low] = VIDEO_PID.to_be_bytes();
    let mut last = 0usize;
    let mut at = 0usize;
    while at + PACKET_BYTES <= file.len() {
        if file[at + 1] & 0x1F == high && file[at + 2] == low {
            last = at;
        }
        at += PACKET_BYTES;
    }
    last
}

/// The last picture has no end then, and is dropped.
#[test]
fn a_file_that_ends_within_its_last_packet(rt: HostRuntime) -> Result<(), Fail> {
    let file = make_program(rt.alloc(), 1, 6)?;
    let last = last_video_packet(file.as_slice());
    for rest in [0, 100] {
        let cut = file.as_slice().get(..last + rest).unwrap_or(&[]);
        let whole = read_program(rt.alloc(), cut, Form::Ts, 1, &[], 0)?;
        for given in [187, 189] {
            let video = video_of(rt.alloc(), cut, given)??;
            assert!(rt; has_units_of(&video, &whole));
            assert!(rt; are_in_time(&video, 5));
            assert_eq!(rt; video.units_dropped, 1);
        }
    }
    Ok(())
}

/// A packet of no stream, a PES packet of the video that is none, one of the audio, and the video's next one.
fn refused_file(alloc: Global) -> Result<Vec<u8>, AllocError> {
    let packets = [
        alike(17, true, 0, 0xEE),
        alike(VIDEO_PID, true, 1, 0xA1),
        alike(AUDIO_PID, true, 7, 0xC7),
        alike(VIDEO_PID, true, 2, 0xA2),
    ];
    file_of(alloc, &packets)
}

/// A fault of a transport packet, of the audio too, comes before the video's, wherever it stands.
#[test]
fn the_first_refusal(rt: HostRuntime) -> Result<(), Fail> {
    let mut file = refused_file(rt.alloc())?;
    let video = video_of(rt.alloc(), file.as_slice(), 189)?;
    assert_eq!(rt;
        video.err(),
        Some(ReadFault::Refused(ProgramFault::Refused {
            kind: SourceKind::BadPrefix,
            at: 188
        }))
    );
    file.extend_from_slice(&alike(AUDIO_PID, true, 9, 0xC9))?;
    let packets = video_of(rt.alloc(), file.as_slice(), 189)?;
    assert_eq!(rt;
        packets.err(),
        Some(ReadFault::Passing(PassFault::Refused(DemuxFault::Gap { at: 752 })))
    );
    Ok(())
}

#[test]
fn a_file_without_a_packet_of_the_video(rt: HostRuntime) -> Result<(), Fail> {
    let video = video_of(rt.alloc(), &alike(17, true, 0, 0xEE), 188)?;
    assert_eq!(rt;
        video.err(),
        Some(ReadFault::Refused(ProgramFault::Refused {
            kind: SourceKind::NoSequence,
            at: 0
        }))
    );
    Ok(())
}
