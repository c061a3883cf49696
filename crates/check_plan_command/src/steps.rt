//! Whether a certificate holds for a table, step by step.

ghost use Rattle.std.specs.Prelude.{◌≢◌};
ghost use Rattle.version_table.specs.Table.{IsValidTable};
ghost use Rattle.command_words.specs.Ended.{PerformsOn};
ghost use Rattle.plan_command.specs.PlanCommand.{HoldsTable};
ghost use Rattle.plan_command.specs.Private.Front.{HoldsFront};
ghost use Rattle.check_plan_command.specs.CheckPlanCommand.{check_plan_task_of};

use bound_certificate::limits::CERT_BYTES_MOST;
use check_command::verdict;
use command_words::{CheckPlanFiles, Ended, end_missing, end_unread};
use plan_command::end_refused_table;
use shelf_io::{Fault, Shelf, read_file};
use std::alloc::Global;
use version_table::limits::TABLE_TEXT_MOST;
use version_table::{Table, read_table};

/// Does the work of `check-plan TABLE CERT`; none for want of memory. No file is changed.
pub fn check_plan<K: Shelf>(
    alloc: Global,
    files: &CheckPlanFiles<'_>,
    shelf: &mut K,
) -> Option<Ended>
    requires { files.now.table.now ≢ files.now.certificate.now }
    ensures { PerformsOn K.files K.counts K.asked K.since_fault shelf.old shelf.new (check_plan_task_of files.now) result }
{
    match read_file(alloc, shelf, files.table, TABLE_TEXT_MOST as u64) {
        Ok(text) => check_text(alloc, files, text.as_slice(), shelf),
        Err(Fault::Failed) => end_unread(alloc, files.table),
        Err(Fault::Missing) => end_missing(alloc, files.table),
        Err(Fault::OutOfMemory) => None,
    }
}

/// From the first bytes of the table's text on, up to one past its limit.
fn check_text<K: Shelf>(
    alloc: Global,
    files: &CheckPlanFiles<'_>,
    text: &[u8],
    shelf: &mut K,
) -> Option<Ended>
    requires apart { files.now.table.now ≢ files.now.certificate.now }
    requires front { HoldsFront (K.files shelf.now) files.now.table.now text.now }
    ensures { PerformsOn K.files K.counts K.asked K.since_fault shelf.old shelf.new (check_plan_task_of files.now) result }
{
    match read_table(alloc, text) {
        Ok(table) => check_table(alloc, files, &table, shelf),
        Err(fault) => end_refused_table(alloc, fault),
    }
}

/// From the table on.
fn check_table<K: Shelf>(
    alloc: Global,
    files: &CheckPlanFiles<'_>,
    table: &Table,
    shelf: &mut K,
) -> Option<Ended>
    requires apart { files.now.table.now ≢ files.now.certificate.now }
    requires valid { IsValidTable table.now }
    requires held { HoldsTable (K.files shelf.now) files.now.table.now table.now }
    ensures { PerformsOn K.files K.counts K.asked K.since_fault shelf.old shelf.new (check_plan_task_of files.now) result }
{
    match read_file(alloc, shelf, files.certificate, CERT_BYTES_MOST as u64) {
        Ok(bytes) => verdict(alloc, table, bytes.as_slice()),
        Err(Fault::Failed) => end_unread(alloc, files.certificate),
        Err(Fault::Missing) => end_missing(alloc, files.certificate),
        Err(Fault::OutOfMemory) => None,
    }
}
