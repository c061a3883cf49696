//! From a file to what an audit of one of its programs finds, step by step.

ghost use Rattle.std.specs.Prelude.{◌≤◌, IfSome};
ghost use Rattle.job_programs.specs.Alone.{IsAlone};
ghost use Rattle.job_report.specs.declared.limits.TheConstants.{START_DEFAULT};
ghost use Rattle.version_table.specs.declared.limits.TheConstants.{SLOT_MOST};
ghost use Rattle.command_words.specs.Ended.{PerformsOn};
ghost use Rattle.audit_command.specs.AuditCommand.{audit_task_of};
ghost use Rattle.audit_command.specs.Private.Audited.{EndsByAudit, EndsByFinding, EndsByStop};

use crate::kept::kept_units;
use crate::refusal::refusal_of;
use command_words::{
    AuditWords, Ended, Status, end_missing, end_refused_source, end_unread, end_with,
};
use job_programs::{AloneProgram, ProgramsFault, SourceFault, read_alone};
use job_report::Report;
use job_report::limits::START_DEFAULT;
use program_reader::ProgramFault;
use run_report::finding_report;
use shelf_io::Shelf;
use std::alloc::Global;
use stream_audit::{AuditStop, Finding, audit};
use version_source::laws::programs_can_be_sent;

/// Does the work of `audit FILE PROGRAM SLOT`; none for want of memory. No file is changed.
pub fn audit_file<K: Shelf>(alloc: Global, words: &AuditWords<'_>, shelf: &mut K) -> Option<Ended>
    requires { words.now.slot ≤ SLOT_MOST }
    ensures { PerformsOn K.files K.counts K.asked K.since_fault shelf.old shelf.new (audit_task_of words.now) result }
{
    match read_alone(
        alloc,
        shelf,
        words.file,
        words.program,
        START_DEFAULT,
        words.slot,
    ) {
        Ok(read) => audit_read(alloc, words, read),
        Err(ProgramsFault::Refused(fault)) => end_refused_source(alloc, fault),
        Err(ProgramsFault::Failed(_)) => end_unread(alloc, words.file),
        Err(ProgramsFault::Missing(_)) => end_missing(alloc, words.file),
        Err(ProgramsFault::OutOfMemory) => None,
    }
}

/// From the program on, which is given up once its units are listed.
fn audit_read(alloc: Global, words: &AuditWords<'_>, read: AloneProgram) -> Option<Ended>
    requires slot { words.now.slot ≤ SLOT_MOST }
    requires alone { IsAlone words.now.slot START_DEFAULT words.now.program read.content read.program }
    ensures { IfSome result (EndsByAudit words.now.slot words.now.program read.content read.program) }
{
    programs_can_be_sent();
    let AloneProgram { content, program } = read;
    let Ok(kept) = kept_units(alloc, program) else {
        return None;
    };
    match audit(alloc, content.as_slice(), words.program, words.slot, &kept) {
        Ok(None) => end_with(alloc, Status::Ok, &Report::AuditClean),
        Ok(Some(finding)) => end_found(alloc, finding),
        Err(stop) => end_stopped(alloc, stop),
    }
}

/// A stream that breaks the decoder's model; none for want of memory.
fn end_found(alloc: Global, finding: Finding) -> Option<Ended>
    ensures { IfSome result (EndsByFinding finding) }
{
    let report = finding_report(finding);
    end_with(alloc, Status::AuditFault(finding), &report)
}

/// A program that isn't audited; none for want of memory.
fn end_stopped(alloc: Global, stop: AuditStop) -> Option<Ended>
    ensures { IfSome result (EndsByStop stop) }
{
    match refusal_of(stop) {
        ProgramFault::Refused { kind, at } => end_refused_source(
            alloc,
            SourceFault {
                program: 0,
                kind,
                at,
            },
        ),
        ProgramFault::OutOfMemory => None,
    }
}
