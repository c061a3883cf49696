ghost use Rattle.std.specs.Prelude.{◌≡◌, IfSome, IfOk};
ghost use Rattle.job_report.specs.declared.report.Report.TheVariants as reports;
ghost use Rattle.run_report.specs.Report as told;
ghost use Rattle.command_words.specs.declared.status.Status.TheVariants as statuses;
ghost use Rattle.command_words.specs.Ended.{EndsBy};

use crate::status::Status;
use job_programs::SourceFault;
use job_report::{Report, Text, report_text};
use list_types::OutOfMemory;
use run_report::source_report;
use std::alloc::Global;

/// How a command ended, and the line that says it.
#[derive(Drop)]
pub struct Ended {
    pub status: Status,
    pub line: Vec<u8>,
}

/// A status with its report line; none for want of memory.
pub fn end_with(alloc: Global, status: Status, report: &Report) -> Option<Ended>
    ensures { IfSome result (EndsBy status report.now) }
{
    let line = report_text(alloc, report).ok()?;
    Some(Ended { status, line })
}

/// A file that can't be read; none for want of memory.
pub fn end_unread(alloc: Global, name: &str) -> Option<Ended>
    ensures { IfSome result (EndsBy statuses.ReadFault (reports.ReadFault name.now)) }
{
    let name = Text::of(alloc, name).ok()?;
    end_with(alloc, Status::ReadFault, &Report::ReadFault { name })
}

/// A file that can't be written; none for want of memory.
pub fn end_unwritten(alloc: Global, name: &str) -> Option<Ended>
    ensures { IfSome result (EndsBy statuses.WriteFault (reports.WriteFault name.now)) }
{
    let name = Text::of(alloc, name).ok()?;
    end_with(alloc, Status::WriteFault, &Report::WriteFault { name })
}

/// A file that isn't there; none for want of memory.
pub fn end_missing(alloc: Global, name: &str) -> Option<Ended>
    ensures { IfSome result (EndsBy statuses.Missing (reports.Missing name.now)) }
{
    let name = Text::of(alloc, name).ok()?;
    end_with(alloc, Status::Missing, &Report::Missing { name })
}

/// A program that is refused; none for want of memory.
pub fn end_refused_source(alloc: Global, fault: SourceFault) -> Option<Ended>
    ensures { IfSome result (EndsBy (statuses.SourceRefused fault) (told.source_report fault)) }
{
    end_with(alloc, Status::SourceRefused(fault), &source_report(fault))
}
