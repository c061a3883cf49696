//! One program behind others: its file is read, and its program taken out of it.

ghost use Rattle.std.specs.Prelude.{◌≡◌, ◌+◌, ◌≤◌, ◌<◌, length, IfOk, IfErr, IsErrAnd, MatchResult};
ghost use Rattle.job_report.specs.declared.limits.TheConstants.{DRIFT_MOST, START_MOST, WEIGHT_MOST};
ghost use Rattle.shelf_io.specs.Asked.{AsksUpTo};
ghost use Rattle.version_table.specs.declared.limits.TheConstants.{SLOT_MOST};
ghost use Rattle.program_reader.specs.Programs.{IsProgramOfFile, IsProgramRefused};
ghost use Rattle.program_reader.specs.ReadProgram.{IsReadProgram};
ghost use Rattle.program_reader.specs.Sizes.{AreProgramSizes};
ghost use Rattle.job_programs.specs.Share.{KeepsShare};
ghost use Rattle.job_programs.specs.Told.{CountReads, EndsFailed, EndsMissing, ReadsEnd};
ghost use Rattle.job_programs.specs.Private.Behind.{IsProgramBehind};
ghost use Rattle.job_programs.specs.Private.Next.{IsContentFault, IsNextOn, HasNextCause, IsNextFault};

use crate::share::keeps_share;
use crate::source_fault::{ProgramsFault, SourceFault};
use crate::times::is_within_time;
use job_report::Form;
use list_types::ListOf;
use program_reader::laws::{programs_of_files_are_read, see_bytes};
use program_reader::limits::{FILE_BYTES_MOST, UNITS_MOST};
use program_reader::{
    Program, ProgramFault, SizedProgram, SourceKind, UnitSizes, read_sized_program,
};
use shelf_io::{Fault, Shelf, read_file};
use std::alloc::Global;
use version_table::limits::VERSIONS_MOST;

/// A program that is wanted, and what stands before it in its job.
#[derive(Clone, Copy)]
pub(crate) struct Wanted<'a> {
    /// Its place in the job, from 0.
    pub place: u8,
    pub file: &'a str,
    pub form: Form,
    pub number: u16,
    /// The PIDs, or the stream ids of a program stream, of audio streams that aren't carried.
    pub drop: &'a [u16],
    /// When its earliest time is due, in ticks.
    pub start: u64,
    /// Ticks of a packet slot.
    pub slot: u32,
    /// The bytes of the files before it, together.
    pub bytes: usize,
    /// The units of the programs before it, together.
    pub units: usize,
    /// What its distortions count, and how much more for each coded frame with a P picture behind.
    pub weight: u8,
    pub drift: u8,
    /// The ratios of its units' versions, in sixteenths.
    pub coarser: &'a [u16],
}

/// A program, and how many bytes its file has.
#[derive(Drop)]
pub(crate) struct NextProgram {
    pub program: Program,
    /// Of each of its units.
    pub sizes: ListOf<UnitSizes>,
    pub size: usize,
}

/// Reads the next program from its file, of which no more is read than the files before it leave of the limit, and one byte.
pub(crate) fn read_next<K: Shelf>(
    alloc: Global,
    shelf: &mut K,
    wanted: &Wanted<'_>,
) -> Result<NextProgram, ProgramsFault>
    requires start { wanted.now.start ≤ START_MOST }
    requires slot { wanted.now.slot ≤ SLOT_MOST }
    requires bytes { wanted.now.bytes ≤ FILE_BYTES_MOST }
    requires units { wanted.now.units ≤ UNITS_MOST }
    requires coarser { length wanted.now.coarser.now < VERSIONS_MOST }
    requires weight { wanted.now.weight ≤ WEIGHT_MOST }
    requires drift { wanted.now.drift ≤ DRIFT_MOST }
    ensures next { IfOk result (λ next. IsNextOn (K.files shelf.old) wanted.now.file.now wanted.now.slot wanted.now.start wanted.now.bytes wanted.now.units
        wanted.now.form wanted.now.number wanted.now.drop.now (KeepsShare wanted.now.weight wanted.now.drift wanted.now.coarser.now) next.size next.program) }
    ensures sizes { IfOk result (λ next. AreProgramSizes next.program wanted.now.coarser.now next.sizes) }
    ensures cause { IfErr result (HasNextCause (K.files shelf.old) wanted.now.file.now wanted.now.slot wanted.now.start wanted.now.bytes wanted.now.units
        wanted.now.form wanted.now.number wanted.now.drop.now (KeepsShare wanted.now.weight wanted.now.drift wanted.now.coarser.now) wanted.now.place (K.counts shelf.old) (K.counts shelf.new) (K.since_fault shelf.new)) }

    ensures files { K.files shelf.new ≡ K.files shelf.old }
    ensures asked { AsksUpTo wanted.now.file.now (FILE_BYTES_MOST + 1) (K.asked shelf.old) (K.asked shelf.new) }
    ensures counts { CountReads (K.counts shelf.old) (K.counts shelf.new) }
    ensures ends { ReadsEnd (IsErrAnd result EndsFailed) (IsErrAnd result EndsMissing) (K.counts shelf.old) (K.counts shelf.new) (K.since_fault shelf.new) }
{
    let limit = (FILE_BYTES_MOST - wanted.bytes) as u64;
    match read_file(alloc, shelf, wanted.file, limit) {
        Ok(content) => from_content(alloc, content.as_slice(), wanted),
        Err(Fault::Failed) => Err(ProgramsFault::Failed(wanted.place)),
        Err(Fault::Missing) => Err(ProgramsFault::Missing(wanted.place)),
        Err(Fault::OutOfMemory) => Err(ProgramsFault::OutOfMemory),
    }
}

/// Takes the next program out of the bytes that were read of its file.
fn from_content(
    alloc: Global,
    content: &[u8],
    wanted: &Wanted<'_>,
) -> Result<NextProgram, ProgramsFault>
    requires start { wanted.now.start ≤ START_MOST }
    requires slot { wanted.now.slot ≤ SLOT_MOST }
    requires bytes { wanted.now.bytes ≤ FILE_BYTES_MOST }
    requires units { wanted.now.units ≤ UNITS_MOST }
    requires coarser { length wanted.now.coarser.now < VERSIONS_MOST }
    requires weight { wanted.now.weight ≤ WEIGHT_MOST }
    requires drift { wanted.now.drift ≤ DRIFT_MOST }
    ensures next { IfOk result (λ next. (next.size ≡ length content.now) × IsProgramBehind wanted.now.slot wanted.now.start wanted.now.bytes wanted.now.units
        wanted.now.form wanted.now.number wanted.now.drop.now (KeepsShare wanted.now.weight wanted.now.drift wanted.now.coarser.now) content.now next.program) }
    ensures read { IfOk result (λ next. IsReadProgram wanted.now.start next.program) }
    ensures sizes { IfOk result (λ next. AreProgramSizes next.program wanted.now.coarser.now next.sizes) }
    ensures fault { IfErr result (IsContentFault wanted.now.slot wanted.now.start wanted.now.bytes wanted.now.units
        wanted.now.form wanted.now.number wanted.now.drop.now (KeepsShare wanted.now.weight wanted.now.drift wanted.now.coarser.now) wanted.now.place content.now) }
{
    match next_program(alloc, content, wanted) {
        Ok(sized) => Ok(NextProgram {
            program: sized.program,
            sizes: sized.sizes,
            size: content.len(),
        }),
        Err(ProgramFault::Refused { kind, at }) => Err(ProgramsFault::Refused(SourceFault {
            program: wanted.place,
            kind,
            at,
        })),
        Err(ProgramFault::OutOfMemory) => Err(ProgramsFault::OutOfMemory),
    }
}

/// The next program in the bytes of its file, or the first of what refuses it.
fn next_program(
    alloc: Global,
    content: &[u8],
    wanted: &Wanted<'_>,
) -> Result<SizedProgram, ProgramFault>
    requires start { wanted.now.start ≤ START_MOST }
    requires slot { wanted.now.slot ≤ SLOT_MOST }
    requires bytes { wanted.now.bytes ≤ FILE_BYTES_MOST }
    requires units { wanted.now.units ≤ UNITS_MOST }
    requires coarser { length wanted.now.coarser.now < VERSIONS_MOST }
    requires weight { wanted.now.weight ≤ WEIGHT_MOST }
    requires drift { wanted.now.drift ≤ DRIFT_MOST }
    ensures program { MatchResult result
        (λ next. IsProgramBehind wanted.now.slot wanted.now.start wanted.now.bytes wanted.now.units wanted.now.form wanted.now.number wanted.now.drop.now (KeepsShare wanted.now.weight wanted.now.drift wanted.now.coarser.now) content.now next.program)
        (IsNextFault wanted.now.slot wanted.now.start wanted.now.bytes wanted.now.units wanted.now.form wanted.now.number wanted.now.drop.now (KeepsShare wanted.now.weight wanted.now.drift wanted.now.coarser.now) content.now) }
    ensures read { IfOk result (λ next. IsReadProgram wanted.now.start next.program) }
    ensures sizes { IfOk result (λ next. AreProgramSizes next.program wanted.now.coarser.now next.sizes) }
{
    if content.len() > FILE_BYTES_MOST - wanted.bytes {
        return Err(passes_limit());
    }
    let sized = sized_program(alloc, content, wanted)?;
    if sized.program.units.len() > UNITS_MOST - wanted.units {
        return Err(passes_limit());
    }
    if !is_within_time(&sized.program, wanted.slot) {
        return Err(passes_limit());
    }
    if !keeps_share(&sized, wanted) {
        return Err(passes_limit());
    }
    programs_of_files_are_read();
    see_bytes(sized.program.video.as_slice());
    Ok(sized)
}

/// The program in the bytes of its file by itself, with the sizes of its units' versions.
fn sized_program(
    alloc: Global,
    content: &[u8],
    wanted: &Wanted<'_>,
) -> Result<SizedProgram, ProgramFault>
    requires start { wanted.now.start ≤ START_MOST }
    requires coarser { length wanted.now.coarser.now < VERSIONS_MOST }
    ensures program { MatchResult result (λ sized. IsProgramOfFile wanted.now.form content.now wanted.now.number wanted.now.drop.now wanted.now.start sized.program)
        (IsProgramRefused wanted.now.form content.now wanted.now.number wanted.now.drop.now) }
    ensures sizes { IfOk result (λ sized. AreProgramSizes sized.program wanted.now.coarser.now sized.sizes) }
{
    match read_sized_program(
        alloc,
        content,
        wanted.form,
        wanted.number,
        wanted.drop,
        wanted.start,
        wanted.coarser,
    ) {
        Ok(sized) => Ok(sized),
        Err(fault) => Err(fault),
    }
}

/// A limit of this project is passed.
pub(crate) fn passes_limit() -> ProgramFault
    ensures { result ≡ ProgramFault.Refused SourceKind.ProgramLimit 0 }
{
    ProgramFault::Refused {
        kind: SourceKind::ProgramLimit,
        at: 0,
    }
}
