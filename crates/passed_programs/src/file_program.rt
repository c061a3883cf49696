//! A program of a file of a shelf, without the bytes of its streams.
ghost use Rattle.std.specs.Prelude.{◌≡◌, ◌+◌, ◌<◌, ◌≤◌, ◌↔◌, IsTrue, length, IfErr, IfOk, IfSome};
ghost use Rattle.file_pass.specs.FilePass.{ReadsUpTo};
ghost use Rattle.shelf_io.specs.Files.{IfTold};
ghost use Rattle.job_report.specs.declared.job.Form.TheVariants.{Ts};
ghost use Rattle.job_report.specs.declared.limits.TheConstants.{START_MOST};
ghost use Rattle.ts_demux.specs.CarriedMap.{HasStreams};
ghost use Rattle.version_table.specs.declared.limits.TheConstants.{VERSIONS_MOST};
ghost use Rattle.program_reader.specs.declared.limits.TheConstants.{FILE_BYTES_MOST};
ghost use Rattle.program_reader.specs.Programs.{IsProgramOfFile, IsProgramRefused};
ghost use Rattle.passed_programs.specs.PassedFile.{HoldsProgram, IsPassedProgram, IsRefusedWithin, OnRefused, stop_in};
ghost use Rattle.passed_programs.specs.Private.Passes.{IsOfTold, OfFront, front_of};

use crate::due_streams::due_streams;
use crate::held_program::read_held;
use crate::passed_fault::PassedFault;
use crate::passes::{PROGRAM_LIMIT, PassedFile, outside_refused, pass_map};
use crate::sized_passed::SizedPassed;
use crate::streams_behind::{audios_of_file, video_of_file};
use elementary_streams::AxisTime;
use job_report::Form;
use program_reader::{ProgramFault, SizesWanted, WalkedVideo};
use shelf_io::Shelf;
use std::alloc::{AllocError, Global};
use ts_demux::{CarriedStreams, PacketBuffer};

/// How many bytes are asked for at once.
const ROOM_BYTES: usize = 65_536;

/// Which program is wanted.
#[derive(Clone, Copy)]
pub struct ProgramWanted<'a> {
    pub form: Form,
    pub number: u16,
    /// The PIDs, or the stream ids of a program stream, of audio streams that aren't carried.
    pub drop: &'a [u16],
    /// When its earliest time is due, in ticks.
    pub start: u64,
}

/// The program of a file of a shelf that has no more bytes than a limit: of a transport stream by passes over the file, of a program stream with its bytes held while it is read. An error is the
/// first refusal of the file, that it can't be read, or that it isn't there. No byte behind the one at the limit is asked for, and behind a read that failed there is no other.
pub fn pass_program<K: Shelf>(
    alloc: Global,
    shelf: &mut K,
    name: &str,
    limit: u64,
    wanted: &ProgramWanted<'_>,
    sizes: SizesWanted<'_>,
) -> Result<SizedPassed, PassedFault>
    requires limit { limit ≤ FILE_BYTES_MOST }
    requires start { wanted.now.start ≤ START_MOST }
    requires coarser { length sizes.coarser.now < VERSIONS_MOST }
    ensures program { IfOk result (IsPassedProgram wanted.now.start limit sizes.entry (HoldsProgram (K.files shelf.old) name.now wanted.now.form wanted.now.number wanted.now.drop.now wanted.now.start)) }
    ensures refused { IfErr result (λ fault. OnRefused fault (λ found. IfTold (K.files shelf.old) name.now (λ file. IsRefusedWithin limit wanted.now.form wanted.now.number wanted.now.drop.now file found))) }
    ensures reads { ReadsUpTo K.files K.counts K.asked K.since_fault name.now (limit + 1) (stop_in result) shelf.old shelf.new }
{
    let file = PassedFile { name, limit };
    match wanted.form {
        Form::Ts => pass_within(alloc, shelf, &file, wanted, sizes),
        Form::Ps => read_held(alloc, shelf, &file, wanted, sizes),
    }
}

/// The program of a transport stream, unless it is longer than the limit.
fn pass_within<K: Shelf>(
    alloc: Global,
    shelf: &mut K,
    file: &PassedFile<'_>,
    wanted: &ProgramWanted<'_>,
    sizes: SizesWanted<'_>,
) -> Result<SizedPassed, PassedFault>
    requires limit { file.now.limit ≤ FILE_BYTES_MOST }
    requires start { wanted.now.start ≤ START_MOST }
    requires coarser { length sizes.coarser.now < VERSIONS_MOST }
    ensures program { IfOk result (IsPassedProgram wanted.now.start file.now.limit sizes.entry
        (HoldsProgram (K.files shelf.old) file.now.name.now Ts wanted.now.number wanted.now.drop.now wanted.now.start)) }
    ensures refused { IfErr result (λ fault. OnRefused fault (λ found. IfTold (K.files shelf.old) file.now.name.now
        (λ content. IsRefusedWithin file.now.limit Ts wanted.now.number wanted.now.drop.now content found))) }
    ensures reads { ReadsUpTo K.files K.counts K.asked K.since_fault file.now.name.now (file.now.limit + 1) (stop_in result) shelf.old shelf.new }
{
    let within = match is_within(shelf, file) {
        Ok(within) => within,
        Err(fault) => return Err(fault),
    };
    if !within {
        return Err(PassedFault::Refused(PROGRAM_LIMIT));
    }
    pass_streams(alloc, shelf, file, wanted, sizes)
}

/// True where a file has no more bytes than its limit, which one byte tells.
fn is_within<K: Shelf>(shelf: &mut K, file: &PassedFile<'_>) -> Result<bool, PassedFault>
    ensures told { IfOk result (λ within. IfTold (K.files shelf.old) file.now.name.now (λ content. IsTrue within ↔ (length content ≤ file.now.limit))) }
    ensures refused { IfErr result (λ fault. OnRefused fault (λ found. ⊥)) }
    ensures reads { ReadsUpTo K.files K.counts K.asked K.since_fault file.now.name.now (file.now.limit + 1) (stop_in result) shelf.old shelf.new }
{
    let mut byte = [0u8];
    match shelf.read(file.name, file.limit, &mut byte) {
        Ok(count) => Ok(count == 0),
        Err(fault) => Err(outside_refused(fault)),
    }
}

/// The program of the first bytes of a transport stream, up to the limit.
fn pass_streams<K: Shelf>(
    alloc: Global,
    shelf: &mut K,
    file: &PassedFile<'_>,
    wanted: &ProgramWanted<'_>,
    sizes: SizesWanted<'_>,
) -> Result<SizedPassed, PassedFault>
    requires limit { file.now.limit ≤ FILE_BYTES_MOST }
    requires start { wanted.now.start ≤ START_MOST }
    requires coarser { length sizes.coarser.now < VERSIONS_MOST }
    ensures program { IfOk result (IsPassedProgram wanted.now.start file.now.limit sizes.entry
        (λ size program. IfSome (front_of (K.files shelf.old) file.now.name.now file.now.limit) (λ whole. (size ≡ length whole) × IsProgramOfFile Ts whole wanted.now.number wanted.now.drop.now wanted.now.start program))) }
    ensures refused { IfErr result (IsOfTold (front_of (K.files shelf.old) file.now.name.now file.now.limit) (λ whole. IsProgramRefused Ts whole wanted.now.number wanted.now.drop.now)) }
    ensures reads { ReadsUpTo K.files K.counts K.asked K.since_fault file.now.name.now file.now.limit (stop_in result) shelf.old shelf.new }
{
    let mut buffer = match packet_buffer(alloc) {
        Ok(buffer) => buffer,
        Err(_) => return Err(PassedFault::Refused(ProgramFault::OutOfMemory)),
    };
    match pass_map(alloc, &mut buffer, shelf, file, wanted.number, wanted.drop) {
        Ok(carried) => pass_carried(alloc, &mut buffer, shelf, file, carried, wanted, sizes),
        Err(fault) => Err(fault),
    }
}

/// A room for the packets of a pass.
fn packet_buffer(alloc: Global) -> Result<PacketBuffer, AllocError> {
    let room = vec![in alloc; 0u8; ROOM_BYTES]?;
    Ok(PacketBuffer::new(room))
}

/// The program of the carried streams of a map.
fn pass_carried<K: Shelf>(
    alloc: Global,
    buffer: &mut PacketBuffer,
    shelf: &mut K,
    file: &PassedFile<'_>,
    carried: CarriedStreams,
    wanted: &ProgramWanted<'_>,
    sizes: SizesWanted<'_>,
) -> Result<SizedPassed, PassedFault>
    requires limit { file.now.limit ≤ FILE_BYTES_MOST }
    requires start { wanted.now.start ≤ START_MOST }
    requires coarser { length sizes.coarser.now < VERSIONS_MOST }
    requires map { OfFront (front_of (K.files shelf.old) file.now.name.now file.now.limit) (HasStreams wanted.now.number wanted.now.drop.now carried) }
    ensures program { IfOk result (IsPassedProgram wanted.now.start file.now.limit sizes.entry
        (λ size program. IfSome (front_of (K.files shelf.old) file.now.name.now file.now.limit) (λ whole. (size ≡ length whole) × IsProgramOfFile Ts whole wanted.now.number wanted.now.drop.now wanted.now.start program))) }
    ensures refused { IfErr result (IsOfTold (front_of (K.files shelf.old) file.now.name.now file.now.limit) (λ whole. IsProgramRefused Ts whole wanted.now.number wanted.now.drop.now)) }
    ensures reads { ReadsUpTo K.files K.counts K.asked K.since_fault file.now.name.now file.now.limit (stop_in result) shelf.old shelf.new }
{
    ts_demux::laws::carried_pids_differ();
    crate::video_laws::near_times();
    let streams = carried.map.streams.as_slice();
    let passed = match video_of_file(alloc, buffer, shelf, file, streams, sizes) {
        Ok(passed) => passed,
        Err(fault) => return Err(fault),
    };
    let first = begins_at(&passed.video);
    let audios = match audios_of_file(alloc, buffer, shelf, file, streams, first) {
        Ok(audios) => audios,
        Err(fault) => return Err(fault),
    };
    due_streams(alloc, carried, passed, audios.as_slice(), wanted.start)
}

/// The time at which a video begins.
fn begins_at(video: &WalkedVideo) -> AxisTime
    ensures { result.time ≡ video.now.first.stated }
{
    AxisTime {
        time: video.first.stated,
    }
}
