//! Whether a certificate holds for the programs of a job, step by step.

ghost use Rattle.std.specs.Prelude.{◌≢◌, IfSome};
ghost use Rattle.version_table.specs.Table.{IsValidTable};
ghost use Rattle.bound_certificate.specs.Cert.{IsCert};
ghost use Rattle.command_words.specs.Ended.{PerformsOn};
ghost use Rattle.check_command.specs.CheckCommand.{check_task_of};
ghost use Rattle.check_command.specs.Private.Checked.{IsTableOn};
ghost use Rattle.check_command.specs.Verdict.{IsVerdict, IsVerdictOn};

use bound_certificate::limits::CERT_BYTES_MOST;
use bound_certificate::{Cert, CertFormat, read_cert};
use certificate_checker::{CheckRoom, check};
use command_words::{
    CertRefusal, CheckFiles, Ended, Status, cert_report, end_missing, end_unread, end_with,
};
use job_files::{end_stopped, pass_job_table};
use job_report::Report;
use shelf_io::{Fault, Shelf, read_file};
use std::alloc::Global;
use version_table::Table;

/// Does the work of `check JOB CERT`; none for want of memory. No file is changed.
pub fn check_job<K: Shelf>(alloc: Global, files: &CheckFiles<'_>, shelf: &mut K) -> Option<Ended>
    requires { files.now.job.now ≢ files.now.certificate.now }
    ensures { PerformsOn K.files K.counts K.asked K.since_fault shelf.old shelf.new (check_task_of files.now) result }
{
    let named = [files.job, files.certificate];
    match pass_job_table(alloc, shelf, files.job, &named) {
        Ok(passed) => check_table(alloc, files, &passed.table, shelf),
        Err(stop) => end_stopped(alloc, stop),
    }
}

/// From the table on.
fn check_table<K: Shelf>(
    alloc: Global,
    files: &CheckFiles<'_>,
    table: &Table,
    shelf: &mut K,
) -> Option<Ended>
    requires apart { files.now.job.now ≢ files.now.certificate.now }
    requires valid { IsValidTable table.now }
    requires held { IsTableOn (K.files shelf.now) files.now table.now }
    ensures { PerformsOn K.files K.counts K.asked K.since_fault shelf.old shelf.new (check_task_of files.now) result }
{
    match read_file(alloc, shelf, files.certificate, CERT_BYTES_MOST as u64) {
        Ok(bytes) => verdict(alloc, table, bytes.as_slice()),
        Err(Fault::Failed) => end_unread(alloc, files.certificate),
        Err(Fault::Missing) => end_missing(alloc, files.certificate),
        Err(Fault::OutOfMemory) => None,
    }
}

/// What becomes of the first bytes of CERT, up to one past its limit, checked against a table; none for want of memory.
pub fn verdict(alloc: Global, table: &Table, bytes: &[u8]) -> Option<Ended>
    requires { IsValidTable table.now }
    ensures { IfSome result (IsVerdictOn table.now bytes.now) }
{
    match read_cert(alloc, bytes) {
        Ok(cert) => verdict_of(alloc, table, &cert),
        Err(CertFormat::CertSyntax(byte)) => {
            let refusal = CertRefusal::Syntax(byte);
            end_with(alloc, Status::CertRefused(refusal), &cert_report(refusal))
        }
        Err(CertFormat::OutOfMemory) => None,
    }
}

/// What becomes of a certificate; none for want of memory.
fn verdict_of(alloc: Global, table: &Table, cert: &Cert) -> Option<Ended>
    requires valid { IsValidTable table.now }
    requires cert { IsCert cert.now }
    ensures { IfSome result (IsVerdict table.now cert.now) }
{
    let Ok(mut room) = CheckRoom::new(alloc, table) else {
        return None;
    };
    match check(table, cert, &mut room) {
        Ok(bound) => end_with(alloc, Status::Ok, &Report::Check { bound }),
        Err(fault) => {
            let refusal = CertRefusal::Fault(fault);
            end_with(alloc, Status::CertRefused(refusal), &cert_report(refusal))
        }
    }
}
