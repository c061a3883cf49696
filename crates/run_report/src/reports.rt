ghost use Rattle.std.specs.Prelude.{◌≡◌, ◌≤◌, length, IfOk};
ghost use Rattle.job_report.specs.Report.{report_line};
ghost use Rattle.version_table.specs.declared.limits.TheConstants.{NODES_MOST};
ghost use Rattle.run_report.specs.Report as spec;

use crate::findings::finding_name;
use crate::kinds::kind_name;
use crate::programs::program_reports;
use crate::whys::why_name;
use arrayvec::ArrayString;
use bound_certificate::Cert;
use certificate_checker::CertFault;
use job_programs::SourceFault;
use job_report::{ProgramJob, Report};
use list_types::OutOfMemory;
use program_reader::Program;
use std::alloc::Global;
use stream_audit::Finding;

/// What is reported of a run. Fails only for want of memory.
pub fn run_report(
    alloc: Global,
    jobs: &[ProgramJob],
    programs: &[Program],
    cert: &Cert,
    slots: u32,
) -> Result<Report, OutOfMemory>
    requires { length cert.now.nodes ≤ NODES_MOST }
    ensures { IfOk result (λ report. report ≡ spec.run_report jobs.now programs.now cert.now slots) }
{
    let programs = program_reports(alloc, jobs, programs, cert.choice.as_slice())?;
    Ok(Report::Run {
        bound: cert.bound,
        distortion: cert.distortion,
        nodes: cert.nodes.len() as u32,
        programs,
        optimal: cert.bound == cert.distortion,
        slots,
    })
}

/// What is reported of a refused program: its line is that of the definition.
pub fn source_report(fault: SourceFault) -> Report
    ensures { report_line result ≡ report_line (spec.source_report fault) }
{
    Report::Source {
        at: fault.at,
        kind: short_text(kind_name(fault.kind)),
        program: fault.program,
    }
}

/// What is reported of the first finding of an audit: its line is that of the definition.
pub fn finding_report(finding: Finding) -> Report
    ensures { report_line result ≡ report_line (spec.finding_report finding) }
{
    Report::AuditFault {
        at: finding.at,
        fault: short_text(finding_name(finding.fault)),
        pid: finding.pid,
    }
}

/// What is reported of a certificate that is wrong: its line is that of the definition.
pub fn cert_fault_report(fault: CertFault) -> Report
    ensures { report_line result ≡ report_line (spec.cert_fault_report fault) }
{
    Report::CertFault {
        node: fault.node,
        why: short_text(why_name(fault.why)),
    }
}

/// A short text as reports hold it.
fn short_text(text: &str) -> ArrayString<32>
    requires { length text.now ≤ 32 }
    ensures { result.bytes ≡ text.now }
{
    let mut short = ArrayString::new();
    short.push_str(text);
    short
}
