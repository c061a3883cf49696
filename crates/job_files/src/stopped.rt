//! How a command over a job ends where the job has no table.

ghost use Rattle.std.specs.Prelude.{◌≡◌, IfSome};
ghost use Rattle.command_words.specs.declared.status.Status.TheVariants as statuses;
ghost use Rattle.command_words.specs.Ended.{EndsBy};
ghost use Rattle.command_words.specs.Report as spec;
ghost use Rattle.job_files.specs.JobCalls.{refusal_by_text, StopEnds};

use crate::job_stop::{JobStop, TextRefusal};
use command_words::{
    Ended, JobRefusal, Status, end_missing, end_refused_source, end_unread, end_with,
    refusal_report,
};
use std::alloc::Global;

/// Ends a command whose job has no table; none for want of memory.
pub fn end_stopped(alloc: Global, stop: JobStop) -> Option<Ended>
    ensures { StopEnds stop result }
{
    match stop {
        JobStop::Text(refusal) => end_refused_text(alloc, refusal),
        JobStop::Source(fault) => end_refused_source(alloc, fault),
        JobStop::Unread(file) => end_unread(alloc, file.as_str()),
        JobStop::Missing(file) => end_missing(alloc, file.as_str()),
        JobStop::OutOfMemory => None,
    }
}

/// A job text that is refused; none for want of memory.
fn end_refused_text(alloc: Global, refusal: TextRefusal) -> Option<Ended>
    ensures { IfSome result (EndsBy (statuses.JobRefused (refusal_by_text refusal)) (spec.refusal_report (refusal_by_text refusal))) }
{
    let refusal = job_refusal(refusal);
    let report = refusal_report(&refusal);
    end_with(alloc, Status::JobRefused(refusal), &report)
}

/// The refusal of a job text.
fn job_refusal(refusal: TextRefusal) -> JobRefusal
    ensures { result ≡ refusal_by_text refusal }
{
    match refusal {
        TextRefusal::NoDocument => JobRefusal::JobSyntax,
        TextRefusal::Field(name) => JobRefusal::JobField(name),
        TextRefusal::Limit(name) => JobRefusal::JobLimit(name),
    }
}
