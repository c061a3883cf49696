ghost use Rattle.std.specs.Prelude.{◌≡◌, map, IfOk, IfErr};
ghost use Rattle.job_report.specs.ValidJob.{IsValidJob};
ghost use Rattle.job_files.specs.JobFile.{IsJobOfText, StandsApart};
ghost use Rattle.job_files.specs.Private.Texts.{IsSharedStop, IsTextStop, stop_by};

use crate::job_stop::{JobStop, TextRefusal};
use job_report::{Job, JobFault, read_job, shared_file};
use std::alloc::Global;

/// The job that a text spells, none of whose programs stands in a file that the command names itself, or why there is none.
pub(crate) fn job_of_text(alloc: Global, text: &[u8], named: &[&str]) -> Result<Job, JobStop>
    ensures job { IfOk result (IsJobOfText text.now (map (λ name. name.now) named.now)) }
    ensures valid { IfOk result IsValidJob }
    ensures stop { IfErr result (IsTextStop text.now (map (λ name. name.now) named.now)) }
{
    match read_job(alloc, text) {
        Ok(job) => apart_from(job, named),
        Err(fault) => Err(stop_of(fault)),
    }
}

/// A job, unless one of its programs stands in a file that the command names itself.
fn apart_from(job: Job, named: &[&str]) -> Result<Job, JobStop>
    requires { IsValidJob job }
    ensures job { IfOk result (λ same. same ≡ job) }
    ensures apart { IfOk result (λ same. StandsApart (map (λ name. name.now) named.now) job) }
    ensures stop { IfErr result (IsSharedStop (map (λ name. name.now) named.now) job) }
{
    match shared_file(&job, named) {
        None => Ok(job),
        Some(field) => Err(JobStop::Text(TextRefusal::Field(field))),
    }
}

/// Why a job isn't read.
fn stop_of(fault: JobFault) -> JobStop
    ensures { result ≡ stop_by fault }
{
    match fault {
        JobFault::JobSyntax => JobStop::Text(TextRefusal::NoDocument),
        JobFault::JobField(name) => JobStop::Text(TextRefusal::Field(name)),
        JobFault::JobLimit(name) => JobStop::Text(TextRefusal::Limit(name)),
        JobFault::OutOfMemory => JobStop::OutOfMemory,
    }
}
