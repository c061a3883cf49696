ghost use Rattle.std.specs.Prelude.{◌≡◌, ◌∷◌, ◌++◌, ◌+◌, length, map, Contains, IfOk, IfErr, IsErrAnd};
ghost use Rattle.job_report.specs.declared.job.ProgramJob.{ProgramJob as AnyProgram};
ghost use Rattle.job_report.specs.ValidJob.{IsValidJob};
ghost use Rattle.job_programs.specs.Read.{AreReadPrograms};
ghost use Rattle.job_programs.specs.Sizes.{AreJobSizes};
ghost use Rattle.job_programs.specs.Told.{AreProgramsOn, AsksForPrograms, CountReads, HasReadCause, ReadsEnd};
ghost use Rattle.program_table.specs.Table.{IsTableOf};
ghost use Rattle.shelf_io.specs.Asked.{AsksUpTo};
ghost use Rattle.version_table.specs.Table.{IsValidTable};
ghost use Rattle.job_files.specs.JobTable.{IsJobTable, IsTableOfJob};
ghost use Rattle.job_files.specs.JobFile.{HoldsJob};
ghost use Rattle.job_files.specs.Stops.{AsksForJob, EndsMissing, EndsUnread, StopsFile, StopsFor, StopsJob};
ghost use Rattle.job_files.specs.Private.Steps.{IsMissing, IsProgramAt, IsUnread};

use crate::job_stop::JobStop;
use crate::job_table::JobTable;
use crate::text::job_of_text;
use job_programs::{ProgramsFault, SizedPrograms, read_sized_programs};
use job_report::Job;
use job_report::limits::JOB_TEXT_MOST;
use list_types::{OutOfMemory, Text};
use program_table::laws::table_is_valid;
use program_table::table_of;
use shelf_io::{Fault, Shelf, read_file};
use std::alloc::Global;
use version_source::laws::programs_can_be_sent;
use version_table::Table;

/// The table of the job in a file of a shelf, with the job and its programs, or why there is none. `named` are the files that the
/// command names itself, the job's among them: no program may stand in one of them.
///
/// No file is changed.
pub fn read_job_table<K: Shelf>(
    alloc: Global,
    shelf: &mut K,
    name: &str,
    named: &[&str],
) -> Result<JobTable, JobStop>
    requires { Contains (map (λ file. file.now) named.now) name.now }
    ensures table { IfOk result (IsJobTable (K.files shelf.old) name.now (map (λ file. file.now) named.now)) }
    ensures job { IfOk result (λ made. IsValidJob made.job) }
    ensures valid { IfOk result (λ made. IsValidTable made.table) }
    ensures stop { IfErr result (StopsFor (K.files shelf.old) name.now (map (λ file. file.now) named.now) (K.counts shelf.old) (K.counts shelf.new) (K.since_fault shelf.new)) }

    ensures files { K.files shelf.new ≡ K.files shelf.old }
    ensures asked { AsksForJob (K.files shelf.old) name.now (map (λ file. file.now) named.now) (K.asked shelf.old) (K.asked shelf.new) }
    ensures counts { CountReads (K.counts shelf.old) (K.counts shelf.new) }
    ensures ends { ReadsEnd (IsErrAnd result EndsUnread) (IsErrAnd result EndsMissing) (K.counts shelf.old) (K.counts shelf.new) (K.since_fault shelf.new) }
{
    match read_job_file(alloc, shelf, name, named) {
        Ok(job) => read_table_of_job(alloc, shelf, job),
        Err(stop) => Err(stop),
    }
}

/// The job in a file of a shelf, or why there is none; no program of it is read. `named` are the files that the command names itself: no
/// program may stand in one of them.
///
/// No file is changed.
pub fn read_job_file<K: Shelf>(
    alloc: Global,
    shelf: &mut K,
    name: &str,
    named: &[&str],
) -> Result<Job, JobStop>
    ensures job { IfOk result (HoldsJob (K.files shelf.old) name.now (map (λ file. file.now) named.now)) }
    ensures valid { IfOk result IsValidJob }
    ensures stop { IfErr result (StopsFile (K.files shelf.old) name.now (map (λ file. file.now) named.now) (K.counts shelf.old) (K.counts shelf.new) (K.since_fault shelf.new)) }

    ensures files { K.files shelf.new ≡ K.files shelf.old }
    ensures asked { AsksUpTo name.now (JOB_TEXT_MOST + 1) (K.asked shelf.old) (K.asked shelf.new) }
    ensures counts { CountReads (K.counts shelf.old) (K.counts shelf.new) }
    ensures ends { ReadsEnd (IsErrAnd result EndsUnread) (IsErrAnd result EndsMissing) (K.counts shelf.old) (K.counts shelf.new) (K.since_fault shelf.new) }
{
    match read_file(alloc, shelf, name, JOB_TEXT_MOST as u64) {
        Ok(text) => job_of_text(alloc, text.as_slice(), named),
        Err(Fault::Failed) => Err(unread(alloc, name)),
        Err(Fault::Missing) => Err(missing(alloc, name)),
        Err(Fault::OutOfMemory) => Err(JobStop::OutOfMemory),
    }
}

/// The table of a job, with its programs, or why there is none.
///
/// No file is changed.
pub fn read_table_of_job<K: Shelf>(
    alloc: Global,
    shelf: &mut K,
    job: Job,
) -> Result<JobTable, JobStop>
    requires { IsValidJob job }
    ensures table { IfOk result (IsTableOfJob (K.files shelf.old) job) }
    ensures valid { IfOk result (λ made. IsValidTable made.table) }
    ensures stop { IfErr result (StopsJob (K.files shelf.old) job (K.counts shelf.old) (K.counts shelf.new) (K.since_fault shelf.new)) }

    ensures files { K.files shelf.new ≡ K.files shelf.old }
    ensures asked { AsksForPrograms job.programs (K.asked shelf.old) (K.asked shelf.new) }
    ensures counts { CountReads (K.counts shelf.old) (K.counts shelf.new) }
    ensures ends { ReadsEnd (IsErrAnd result EndsUnread) (IsErrAnd result EndsMissing) (K.counts shelf.old) (K.counts shelf.new) (K.since_fault shelf.new) }
{
    match read_sized_programs(alloc, shelf, &job) {
        Ok(read) => match table_of_programs(alloc, &job, &read) {
            Ok(table) => Ok(JobTable {
                job,
                programs: read.programs,
                table,
            }),
            Err(OutOfMemory) => Err(JobStop::OutOfMemory),
        },
        Err(ProgramsFault::Refused(fault)) => Err(JobStop::Source(fault)),
        Err(ProgramsFault::Failed(number)) => Err(unread(alloc, file_of(&job, number))),
        Err(ProgramsFault::Missing(number)) => Err(missing(alloc, file_of(&job, number))),
        Err(ProgramsFault::OutOfMemory) => Err(JobStop::OutOfMemory),
    }
}

/// The table of a job's programs, of the sizes that were told when they were read. Fails only for want of memory.
fn table_of_programs(alloc: Global, job: &Job, read: &SizedPrograms) -> Result<Table, OutOfMemory>
    requires job { IsValidJob job.now }
    requires programs { AreReadPrograms job.now read.now.programs }
    requires sizes { AreJobSizes job.now.programs read.now.programs read.now.sizes }
    ensures table { IfOk result (IsTableOf job.now read.now.programs) }
    ensures valid { IfOk result IsValidTable }
{
    programs_can_be_sent();
    table_is_valid();
    table_of(alloc, job, read.programs.as_slice(), read.sizes.as_slice())
}

/// The file of the program of this number in a job.
pub(crate) fn file_of(job: &Job, number: u8) -> &str
    requires { (program : AnyProgram) × IsProgramAt job.now number program }
    ensures { (program : AnyProgram) → IsProgramAt job.now number program → result.now ≡ program.file }
{
    job.programs.as_slice()[usize::from(number)].file.as_str()
}

/// A file that can't be read.
pub(crate) fn unread(alloc: Global, name: &str) -> JobStop
    ensures { IsUnread name.now result }
{
    match Text::of(alloc, name) {
        Ok(name) => JobStop::Unread(name),
        Err(OutOfMemory) => JobStop::OutOfMemory,
    }
}

/// A file that isn't there.
pub(crate) fn missing(alloc: Global, name: &str) -> JobStop
    ensures { IsMissing name.now result }
{
    match Text::of(alloc, name) {
        Ok(name) => JobStop::Missing(name),
        Err(OutOfMemory) => JobStop::OutOfMemory,
    }
}
