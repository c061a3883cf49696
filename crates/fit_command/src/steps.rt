//! In which slots of a list the programs of a job fit, step by step.

ghost use Rattle.std.specs.Prelude.{◌≡◌, ◌≢◌, ◌≤◌, All, IfSome, length};
ghost use Rattle.job_report.specs.ValidJob.{IsValidJob};
ghost use Rattle.job_files.specs.JobFile.{HoldsJob};
ghost use Rattle.version_table.specs.declared.limits.TheConstants.{SLOT_LEAST};
ghost use Rattle.version_table.specs.Table.{IsValidTable, greatest};
ghost use Rattle.rate_fit.specs.Fit.{in_slots};
ghost use Rattle.command_words.specs.Ended.{PerformsOn};
ghost use Rattle.fit_command.specs.FitCommand.{HoldsAsked, files_of_fit, fit_task_of};
ghost use Rattle.fit_command.specs.ListText.{MayBeSlots};
ghost use Rattle.fit_command.specs.Private.Judged as judged;
ghost use Rattle.fit_command.specs.Private.Judged.{EndsByVerdicts, HoldsListFront};

use crate::limits::LIST_BYTES_MOST;
use crate::list::read_list;
use crate::list_fault::ListFault;
use crate::reported::report_of;
use command_words::{
    Ended, FitFiles, JobRefusal, Status, end_missing, end_unread, end_with, refusal_report,
};
use job_files::{end_stopped, pass_table_of_job, read_job_file};
use job_report::Job;
use rate_fit::{fit, greatest_fit, longest};
use shelf_io::{Fault, Shelf, read_file};
use std::alloc::Global;
use version_table::{Table, smallest_choice_is_one};

/// Does the work of `fit JOB LIST`; none for want of memory. No file is changed.
pub fn fit_job<K: Shelf>(alloc: Global, files: &FitFiles<'_>, shelf: &mut K) -> Option<Ended>
    requires { files.now.job.now ≢ files.now.list.now }
    ensures { PerformsOn K.files K.counts K.asked K.since_fault shelf.old shelf.new (fit_task_of files.now) result }
{
    let named = [files.job, files.list];
    match read_job_file(alloc, shelf, files.job, &named) {
        Ok(job) => fit_in_list(alloc, files, job, shelf),
        Err(stop) => end_stopped(alloc, stop),
    }
}

/// From the job on.
fn fit_in_list<K: Shelf>(
    alloc: Global,
    files: &FitFiles<'_>,
    job: Job,
    shelf: &mut K,
) -> Option<Ended>
    requires apart { files.now.job.now ≢ files.now.list.now }
    requires valid { IsValidJob job }
    requires held { HoldsJob (K.files shelf.now) files.now.job.now (files_of_fit files.now.job.now files.now.list.now) job }
    ensures { PerformsOn K.files K.counts K.asked K.since_fault shelf.old shelf.new (fit_task_of files.now) result }
{
    match read_file(alloc, shelf, files.list, LIST_BYTES_MOST as u64) {
        Ok(text) => fit_in_text(alloc, files, job, text.as_slice(), shelf),
        Err(Fault::Failed) => end_unread(alloc, files.list),
        Err(Fault::Missing) => end_missing(alloc, files.list),
        Err(Fault::OutOfMemory) => None,
    }
}

/// From the first bytes of the list's text on, up to one past its limit.
fn fit_in_text<K: Shelf>(
    alloc: Global,
    files: &FitFiles<'_>,
    job: Job,
    text: &[u8],
    shelf: &mut K,
) -> Option<Ended>
    requires apart { files.now.job.now ≢ files.now.list.now }
    requires valid { IsValidJob job }
    requires held { HoldsJob (K.files shelf.now) files.now.job.now (files_of_fit files.now.job.now files.now.list.now) job }
    requires list { HoldsListFront (K.files shelf.now) files.now.list.now text.now }
    ensures { PerformsOn K.files K.counts K.asked K.since_fault shelf.old shelf.new (fit_task_of files.now) result }
{
    match read_list(alloc, text) {
        Ok(slots) => fit_in_slots(alloc, files, job, slots.as_slice(), shelf),
        Err(ListFault::ListSyntax(line)) => {
            let refusal = JobRefusal::ListSyntax(line);
            let report = refusal_report(&refusal);
            end_with(alloc, Status::JobRefused(refusal), &report)
        }
        Err(ListFault::OutOfMemory) => None,
    }
}

/// From the slots on: the programs are read in the longest of them.
fn fit_in_slots<K: Shelf>(
    alloc: Global,
    files: &FitFiles<'_>,
    mut job: Job,
    slots: &[u32],
    shelf: &mut K,
) -> Option<Ended>
    requires apart { files.now.job.now ≢ files.now.list.now }
    requires valid { IsValidJob job }
    requires some { 1 ≤ length slots.now }
    requires stand { MayBeSlots slots.now }
    requires asked { HoldsAsked (K.files shelf.now) files.now.job.now files.now.list.now job slots.now }
    ensures { PerformsOn K.files K.counts K.asked K.since_fault shelf.old shelf.new (fit_task_of files.now) result }
{
    smallest_choice_is_one();
    job.slot = longest(slots);
    match pass_table_of_job(alloc, shelf, job) {
        Ok(passed) => verdicts_on(alloc, passed.table, slots),
        Err(stop) => end_stopped(alloc, stop),
    }
}

/// From the table on; none for want of memory.
fn verdicts_on(alloc: Global, table: Table, slots: &[u32]) -> Option<Ended>
    requires valid { IsValidTable (in_slots (greatest slots.now) table) }
    requires slots { All (λ slot. SLOT_LEAST ≤ slot) slots.now }
    ensures { IfSome result (EndsByVerdicts table slots.now) }
{
    let Ok(verdicts) = fit(alloc, table, slots) else {
        return None;
    };
    let greatest = greatest_fit(slots, verdicts.as_slice());
    let Ok(report) = report_of(alloc, greatest, slots, verdicts.as_slice()) else {
        return None;
    };
    end_with(alloc, status_of(greatest), &report)
}

/// The status of what was found.
fn status_of(greatest: Option<u32>) -> Status
    ensures { result ≡ judged.status_of greatest }
{
    match greatest {
        Some(_) => Status::Ok,
        None => Status::NoFit,
    }
}
