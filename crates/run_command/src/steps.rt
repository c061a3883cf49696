//! From the file of a job to the stream of its programs and the certificate of its plan, step by step.

ghost use Rattle.std.specs.Prelude.{IfSome};
ghost use Rattle.slot_rule.specs.SlotList.{IsSlotList};
ghost use Rattle.command_words.specs.Ended.{PerformsOn};
ghost use Rattle.plan_command.specs.Plan.{IsPlan};
ghost use Rattle.run_command.specs.RunCommand.{run_task_of};
ghost use Rattle.run_command.specs.Private.Prepared.{HasJob, IsPrepared, WritesCert};

use crate::write::write_stream_file;
use bound_certificate::{Cert, write_cert};
use branch_plan::PlanFault;
use command_words::{Ended, RunFiles, Status, end_unwritten, end_with, miss_report};
use job_files::{JobTable, end_stopped, read_job_table};
use list_types::ListOf;
use plan_command::plan_of_table;
use run_report::run_report;
use shelf_io::{Fault, Shelf, write_file};
use slot_rule::{ScheduleFault, SlotList, no_miss_where_scheduled, schedule};
use std::alloc::Global;

/// Does the work of `run JOB OUT CERT`; none for want of memory. OUT is started once the plan, its certificate's bytes and the
/// report stand, CERT once OUT is whole.
pub fn run_job<K: Shelf>(alloc: Global, files: &RunFiles<'_>, shelf: &mut K) -> Option<Ended>
    ensures { PerformsOn K.files K.counts K.asked K.since_fault shelf.old shelf.new (run_task_of files.now) result }
{
    let named = [files.job, files.out, files.certificate];
    match read_job_table(alloc, shelf, files.job, &named) {
        Ok(made) => plan_job(alloc, files, &made, shelf),
        Err(stop) => end_stopped(alloc, stop),
    }
}

/// From the table on.
fn plan_job<K: Shelf>(
    alloc: Global,
    files: &RunFiles<'_>,
    made: &JobTable,
    shelf: &mut K,
) -> Option<Ended>
    requires { HasJob (K.files shelf.now) files.now made.now }
    ensures { PerformsOn K.files K.counts K.asked K.since_fault shelf.old shelf.new (run_task_of files.now) result }
{
    match plan_of_table(alloc, &made.table) {
        Ok(cert) => schedule_job(alloc, files, made, &cert, shelf),
        Err(PlanFault::Missed(miss)) => {
            end_with(alloc, Status::Unschedulable(miss), &miss_report(miss))
        }
        Err(PlanFault::OutOfMemory) => None,
    }
}

/// From the plan on.
fn schedule_job<K: Shelf>(
    alloc: Global,
    files: &RunFiles<'_>,
    made: &JobTable,
    cert: &Cert,
    shelf: &mut K,
) -> Option<Ended>
    requires read { HasJob (K.files shelf.now) files.now made.now }
    requires plan { IsPlan made.now.table cert.now }
    ensures { PerformsOn K.files K.counts K.asked K.since_fault shelf.old shelf.new (run_task_of files.now) result }
{
    no_miss_where_scheduled();
    match schedule(alloc, &made.table, &cert.choice) {
        Ok(slots) => write_job(alloc, files, made, cert, &slots, shelf),
        Err(ScheduleFault::Missed(_)) => unreachable!(),
        Err(ScheduleFault::OutOfMemory) => None,
    }
}

/// Writes the stream and the certificate of a plan. Bytes and report are made first, so that want of memory for them leaves the
/// files as they were.
fn write_job<K: Shelf>(
    alloc: Global,
    files: &RunFiles<'_>,
    made: &JobTable,
    cert: &Cert,
    slots: &SlotList,
    shelf: &mut K,
) -> Option<Ended>
    requires read { HasJob (K.files shelf.now) files.now made.now }
    requires plan { IsPlan made.now.table cert.now }
    requires slots { IsSlotList made.now.table cert.now.choice slots.now }
    ensures { PerformsOn K.files K.counts K.asked K.since_fault shelf.old shelf.new (run_task_of files.now) result }
{
    let prepared = prepare(alloc, made, cert, slots)?;
    match write_stream_file(alloc, shelf, files.out, made, &cert.choice, slots) {
        Ok(()) => write_certificate(alloc, files, prepared, shelf),
        Err(Fault::Failed) => end_unwritten(alloc, files.out),
        Err(Fault::OutOfMemory) => None,
        Err(Fault::Missing) => unreachable!(),
    }
}

/// What is written and reported beside the stream, made before a file is started.
#[derive(Drop)]
struct Prepared {
    /// The bytes of the certificate.
    bytes: ListOf<u8>,
    /// The end of a run whose files were written.
    done: Ended,
}

/// Makes the certificate's bytes and the report of a plan; none for want of memory.
fn prepare(alloc: Global, made: &JobTable, cert: &Cert, slots: &SlotList) -> Option<Prepared>
    requires { IsPlan made.now.table cert.now }
    ensures { IfSome result (IsPrepared made.now cert.now slots.now) }
{
    let Ok(bytes) = write_cert(alloc, cert) else {
        return None;
    };
    let jobs = made.job.programs.as_slice();
    let Ok(report) = run_report(alloc, jobs, made.programs.as_slice(), cert, slots.slots) else {
        return None;
    };
    let done = end_with(alloc, Status::Ok, &report)?;
    Some(Prepared { bytes, done })
}

/// Writes the certificate, once the stream is whole.
fn write_certificate<K: Shelf>(
    alloc: Global,
    files: &RunFiles<'_>,
    prepared: Prepared,
    shelf: &mut K,
) -> Option<Ended>
    ensures { WritesCert K.files K.counts K.asked K.since_fault shelf.old shelf.new files.now.certificate.now prepared result }
{
    match write_file(shelf, files.certificate, prepared.bytes.as_slice()) {
        Ok(()) => Some(prepared.done),
        Err(Fault::Failed) => end_unwritten(alloc, files.certificate),
        Err(Fault::OutOfMemory) => None,
        Err(Fault::Missing) => unreachable!(),
    }
}
