//! One program behind others, read while its file passes, so that the bytes of its streams aren't kept.

ghost use Rattle.std.specs.Prelude.{◌≡◌, ◌+◌, ◌≤◌, ◌<◌, length, IfOk, IfErr, IsErrAnd};
ghost use Rattle.job_report.specs.declared.limits.TheConstants.{DRIFT_MOST, START_MOST, WEIGHT_MOST};
ghost use Rattle.shelf_io.specs.Asked.{AsksUpTo};
ghost use Rattle.version_table.specs.declared.limits.TheConstants.{SLOT_MOST};
ghost use Rattle.program_reader.specs.declared.program.Program.{Program as AnyProgram};
ghost use Rattle.job_programs.specs.Passed.{IsSizedOff};
ghost use Rattle.job_programs.specs.Share.{KeepsShare};
ghost use Rattle.job_programs.specs.Told.{CountReads, EndsFailed, EndsMissing, ReadsEnd};
ghost use Rattle.job_programs.specs.Private.Next.{HasNextCause};
ghost use Rattle.job_programs.specs.Private.Passed as spec;
ghost use Rattle.job_programs.specs.Private.Passed.{IsNextPassed, KeepsLimits, PassesLimits};

use crate::next::Wanted;
use crate::share::passed_keeps_share;
use crate::source_fault::{ProgramsFault, SourceFault};
use crate::times::passed_within_time;
use passed_programs::{PassedFault, ProgramWanted, SizedPassed, pass_program};
use program_reader::limits::{FILE_BYTES_MOST, UNITS_MOST};
use program_reader::{ProgramFault, SizesWanted, SourceKind};
use shelf_io::Shelf;
use std::alloc::Global;
use version_table::limits::VERSIONS_MOST;

/// Reads the next program by passes over its file, of which no more is read than the files before it leave of the limit, and one byte.
pub(crate) fn pass_next<K: Shelf>(
    alloc: Global,
    shelf: &mut K,
    wanted: &Wanted<'_>,
) -> Result<SizedPassed, ProgramsFault>
    requires start { wanted.now.start ≤ START_MOST }
    requires slot { wanted.now.slot ≤ SLOT_MOST }
    requires bytes { wanted.now.bytes ≤ FILE_BYTES_MOST }
    requires units { wanted.now.units ≤ UNITS_MOST }
    requires coarser { length wanted.now.coarser.now < VERSIONS_MOST }
    requires weight { wanted.now.weight ≤ WEIGHT_MOST }
    requires drift { wanted.now.drift ≤ DRIFT_MOST }
    ensures next { IfOk result (IsNextPassed (K.files shelf.old) wanted.now.file.now wanted.now.slot wanted.now.start wanted.now.bytes wanted.now.units
        wanted.now.form wanted.now.number wanted.now.drop.now wanted.now.weight wanted.now.drift wanted.now.coarser.now) }
    ensures cause { IfErr result (HasNextCause (K.files shelf.old) wanted.now.file.now wanted.now.slot wanted.now.start wanted.now.bytes wanted.now.units
        wanted.now.form wanted.now.number wanted.now.drop.now (KeepsShare wanted.now.weight wanted.now.drift wanted.now.coarser.now) wanted.now.place (K.counts shelf.old) (K.counts shelf.new) (K.since_fault shelf.new)) }
    ensures few_bytes { IfOk result (λ next. wanted.now.bytes + next.size ≤ FILE_BYTES_MOST) }
    ensures few_units { IfOk result (λ next. wanted.now.units + length next.program.units ≤ UNITS_MOST) }

    ensures files { K.files shelf.new ≡ K.files shelf.old }
    ensures asked { AsksUpTo wanted.now.file.now (FILE_BYTES_MOST + 1) (K.asked shelf.old) (K.asked shelf.new) }
    ensures counts { CountReads (K.counts shelf.old) (K.counts shelf.new) }
    ensures ends { ReadsEnd (IsErrAnd result EndsFailed) (IsErrAnd result EndsMissing) (K.counts shelf.old) (K.counts shelf.new) (K.since_fault shelf.new) }
{
    let limit = (FILE_BYTES_MOST - wanted.bytes) as u64;
    let program = ProgramWanted {
        form: wanted.form,
        number: wanted.number,
        drop: wanted.drop,
        start: wanted.start,
    };
    let sizes = SizesWanted {
        are_wanted: true,
        coarser: wanted.coarser,
    };
    match pass_program(alloc, shelf, wanted.file, limit, &program, sizes) {
        Ok(passed) => within_limits(passed, wanted),
        Err(fault) => Err(fault_at(wanted.place, fault)),
    }
}

/// A program, unless it passes a limit that it shares with those before it.
fn within_limits(passed: SizedPassed, wanted: &Wanted<'_>) -> Result<SizedPassed, ProgramsFault>
    requires slot { wanted.now.slot ≤ SLOT_MOST }
    requires units { wanted.now.units ≤ UNITS_MOST }
    requires weight { wanted.now.weight ≤ WEIGHT_MOST }
    requires drift { wanted.now.drift ≤ DRIFT_MOST }
    requires sized { (program : AnyProgram) × IsSizedOff program wanted.now.coarser.now passed }
    ensures kept { (program : AnyProgram) → IsSizedOff program wanted.now.coarser.now passed
        → IfOk result (λ same. (same ≡ passed) × KeepsLimits wanted.now.slot wanted.now.units (KeepsShare wanted.now.weight wanted.now.drift wanted.now.coarser.now) program) }
    ensures refused { (program : AnyProgram) → IsSizedOff program wanted.now.coarser.now passed
        → IfErr result (λ fault. (fault ≡ spec.over_limit wanted.now.place) × PassesLimits wanted.now.slot wanted.now.units (KeepsShare wanted.now.weight wanted.now.drift wanted.now.coarser.now) program) }
{
    if passed.program.units.len() > UNITS_MOST - wanted.units {
        return Err(over_limit(wanted.place));
    }
    if !passed_within_time(&passed.program, wanted.slot) {
        return Err(over_limit(wanted.place));
    }
    if !passed_keeps_share(&passed, wanted) {
        return Err(over_limit(wanted.place));
    }
    Ok(passed)
}

/// The program at this place of its job passes a limit of this project.
pub(crate) fn over_limit(place: u8) -> ProgramsFault
    ensures { result ≡ spec.over_limit place }
{
    ProgramsFault::Refused(SourceFault {
        program: place,
        kind: SourceKind::ProgramLimit,
        at: 0,
    })
}

/// Why the program at this place of its job isn't read.
fn fault_at(place: u8, fault: PassedFault) -> ProgramsFault
    ensures { result ≡ spec.fault_at place fault }
{
    match fault {
        PassedFault::Refused(refusal) => match refusal {
            ProgramFault::Refused { kind, at } => ProgramsFault::Refused(SourceFault {
                program: place,
                kind,
                at,
            }),
            ProgramFault::OutOfMemory => ProgramsFault::OutOfMemory,
        },
        PassedFault::Failed => ProgramsFault::Failed(place),
        PassedFault::Missing => ProgramsFault::Missing(place),
    }
}
