//! What is reported of refusals, as `job_report` prints it.

ghost use Rattle.std.specs.Prelude.{◌≡◌};
ghost use Rattle.job_report.specs.Report.{report_line};
ghost use Rattle.command_words.specs.Report as spec;

use crate::status::{CertRefusal, JobRefusal};
use job_report::Report;
use run_report::cert_fault_report;
use slot_rule::Miss;

/// A text that is refused.
pub fn refusal_report(refusal: &JobRefusal) -> Report
    ensures { result ≡ spec.refusal_report refusal.now }
{
    match refusal {
        JobRefusal::TableSyntax(line) => Report::TableSyntax { line: *line },
        JobRefusal::TableLimit(name) => Report::TableLimit { name: *name },
        JobRefusal::JobSyntax => Report::JobSyntax,
        JobRefusal::JobField(name) => Report::JobField { name: *name },
        JobRefusal::JobLimit(name) => Report::JobLimit { name: *name },
        JobRefusal::ListSyntax(line) => Report::ListSyntax { line: *line },
    }
}

/// A table that can't be met.
pub fn miss_report(miss: Miss) -> Report
    ensures { result ≡ spec.miss_report miss }
{
    Report::Unschedulable {
        due: miss.due,
        slot: miss.slot,
        stream: miss.stream,
        unit: miss.unit,
    }
}

/// A certificate that is refused: its line is that of the definition.
pub fn cert_report(refusal: CertRefusal) -> Report
    ensures { report_line result ≡ report_line (spec.cert_report refusal) }
{
    match refusal {
        CertRefusal::Syntax(byte) => Report::CertSyntax { byte },
        CertRefusal::Fault(fault) => cert_fault_report(fault),
    }
}
