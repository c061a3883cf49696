ghost use Rattle.std.specs.Prelude.{◌≡◌, List, map, Contains, IfOk, IfErr, IsErrAnd};
ghost use Rattle.job_report.specs.ValidJob.{IsValidJob};
ghost use Rattle.job_programs.specs.Passed.{AreSizedOff};
ghost use Rattle.job_programs.specs.Read.{AreReadPrograms};
ghost use Rattle.job_programs.specs.Told.{AsksForPrograms, CountReads, ReadsEnd};
ghost use Rattle.program_reader.specs.declared.program.Program.{Program as AnyProgram};
ghost use Rattle.program_table.specs.Table.{IsTableOf};
ghost use Rattle.version_table.specs.Table.{IsValidTable};
ghost use Rattle.job_files.specs.PassedJob.{IsJobPassed, IsPassedOfJob};
ghost use Rattle.job_files.specs.Stops.{AsksForJob, EndsMissing, EndsUnread, StopsFor, StopsJob};

use crate::job_stop::JobStop;
use crate::passed_job::PassedJob;
use crate::read::{file_of, missing, read_job_file, unread};
use job_programs::{PassedPrograms, ProgramsFault, pass_sized_programs};
use job_report::Job;
use list_types::OutOfMemory;
use program_table::laws::table_is_valid;
use program_table::table_of_passed;
use shelf_io::Shelf;
use std::alloc::Global;
use version_table::Table;

/// The table of the job in a file of a shelf, with the job and its programs, which are read by passes over their files, so that the bytes of
/// their streams aren't kept; or why there is none. `named` are the files that the
/// command names itself, the job's among them: no program may stand in one of them.
///
/// No file is changed.
pub fn pass_job_table<K: Shelf>(
    alloc: Global,
    shelf: &mut K,
    name: &str,
    named: &[&str],
) -> Result<PassedJob, JobStop>
    requires { Contains (map (λ file. file.now) named.now) name.now }
    ensures table { IfOk result (IsJobPassed (K.files shelf.old) name.now (map (λ file. file.now) named.now)) }
    ensures job { IfOk result (λ made. IsValidJob made.job) }
    ensures valid { IfOk result (λ made. IsValidTable made.table) }
    ensures stop { IfErr result (StopsFor (K.files shelf.old) name.now (map (λ file. file.now) named.now) (K.counts shelf.old) (K.counts shelf.new) (K.since_fault shelf.new)) }

    ensures files { K.files shelf.new ≡ K.files shelf.old }
    ensures asked { AsksForJob (K.files shelf.old) name.now (map (λ file. file.now) named.now) (K.asked shelf.old) (K.asked shelf.new) }
    ensures counts { CountReads (K.counts shelf.old) (K.counts shelf.new) }
    ensures ends { ReadsEnd (IsErrAnd result EndsUnread) (IsErrAnd result EndsMissing) (K.counts shelf.old) (K.counts shelf.new) (K.since_fault shelf.new) }
{
    match read_job_file(alloc, shelf, name, named) {
        Ok(job) => pass_table_of_job(alloc, shelf, job),
        Err(stop) => Err(stop),
    }
}

/// The table of a job, with its programs, read so, or why there is none.
///
/// No file is changed.
pub fn pass_table_of_job<K: Shelf>(
    alloc: Global,
    shelf: &mut K,
    job: Job,
) -> Result<PassedJob, JobStop>
    requires { IsValidJob job }
    ensures table { IfOk result (IsPassedOfJob (K.files shelf.old) job) }
    ensures valid { IfOk result (λ made. IsValidTable made.table) }
    ensures stop { IfErr result (StopsJob (K.files shelf.old) job (K.counts shelf.old) (K.counts shelf.new) (K.since_fault shelf.new)) }

    ensures files { K.files shelf.new ≡ K.files shelf.old }
    ensures asked { AsksForPrograms job.programs (K.asked shelf.old) (K.asked shelf.new) }
    ensures counts { CountReads (K.counts shelf.old) (K.counts shelf.new) }
    ensures ends { ReadsEnd (IsErrAnd result EndsUnread) (IsErrAnd result EndsMissing) (K.counts shelf.old) (K.counts shelf.new) (K.since_fault shelf.new) }
{
    match pass_sized_programs(alloc, shelf, &job) {
        Ok(read) => match table_of_passes(alloc, &job, &read) {
            Ok(table) => Ok(PassedJob {
                job,
                programs: read.programs,
                table,
            }),
            Err(OutOfMemory) => Err(JobStop::OutOfMemory),
        },
        Err(ProgramsFault::Refused(fault)) => Err(JobStop::Source(fault)),
        Err(ProgramsFault::Failed(number)) => Err(unread(alloc, file_of(&job, number))),
        Err(ProgramsFault::Missing(number)) => Err(missing(alloc, file_of(&job, number))),
        Err(ProgramsFault::OutOfMemory) => Err(JobStop::OutOfMemory),
    }
}

/// The table of a job's programs, of the sizes that were told when they were read. Fails only for want of memory.
fn table_of_passes(alloc: Global, job: &Job, read: &PassedPrograms) -> Result<Table, OutOfMemory>
    requires job { IsValidJob job.now }
    requires read { (programs : List AnyProgram) × AreReadPrograms job.now programs × AreSizedOff job.now programs read.now }
    ensures table { (programs : List AnyProgram) → AreSizedOff job.now programs read.now → IfOk result (IsTableOf job.now programs) }
    ensures valid { IfOk result IsValidTable }
{
    table_is_valid();
    table_of_passed(alloc, job, read)
}
