//! From the file of a table to the certificate of its plan, step by step.

ghost use Rattle.std.specs.Prelude.{◌≡◌, IfErr, IfOk, IfSome};
ghost use Rattle.bound_certificate.specs.Reading.{IsWritable};
ghost use Rattle.version_table.specs.Table.{IsValidTable};
ghost use Rattle.version_table.specs.Text.{Holds, IsFaultOf, IsTableRead};
ghost use Rattle.command_words.specs.Ended.{PerformsOn};
ghost use Rattle.plan_command.specs.PlanCommand.{HoldsTable, HasPlan, plan_task_of};
ghost use Rattle.plan_command.specs.Private.Front.{HoldsFront};
ghost use Rattle.plan_command.specs.Refused.{refusal_by, IsRefusedFor};

use crate::planned::plan_of_table;
use crate::report::plan_report;
use bound_certificate::{Cert, write_cert};
use branch_plan::PlanFault;
use command_words::{
    Ended, JobRefusal, PlanFiles, Status, end_missing, end_unread, end_unwritten, end_with,
    miss_report, refusal_report,
};
use list_types::ListOf;
use shelf_io::{Fault, Shelf, read_file, write_file};
use std::alloc::Global;
use version_table::limits::TABLE_TEXT_MOST;
use version_table::{Table, TableFault, read_table};

/// Does the work of `plan TABLE CERT`; none for want of memory.
pub fn plan_file<K: Shelf>(alloc: Global, files: &PlanFiles<'_>, shelf: &mut K) -> Option<Ended>
    ensures { PerformsOn K.files K.counts K.asked K.since_fault shelf.old shelf.new (plan_task_of files.now) result }
{
    match read_file(alloc, shelf, files.table, TABLE_TEXT_MOST as u64) {
        Ok(text) => plan_text(alloc, files, text, shelf),
        Err(Fault::Failed) => end_unread(alloc, files.table),
        Err(Fault::Missing) => end_missing(alloc, files.table),
        Err(Fault::OutOfMemory) => None,
    }
}

/// From the first bytes of the table's text on, up to one past its limit.
fn plan_text<K: Shelf>(
    alloc: Global,
    files: &PlanFiles<'_>,
    text: ListOf<u8>,
    shelf: &mut K,
) -> Option<Ended>
    requires { HoldsFront (K.files shelf.now) files.now.table.now text }
    ensures { PerformsOn K.files K.counts K.asked K.since_fault shelf.old shelf.new (plan_task_of files.now) result }
{
    match table_in(alloc, text) {
        Ok(table) => plan_table(alloc, files, &table, shelf),
        Err(fault) => end_refused_table(alloc, fault),
    }
}

/// The table in a text, which is let go before the table is planned: beside an hour's table it would take as much again.
fn table_in(alloc: Global, text: ListOf<u8>) -> Result<Table, TableFault>
    ensures table { IfOk result (λ table. IsTableRead text (Holds table)) }
    ensures refusal { IfErr result (IsFaultOf text) }
{
    read_table(alloc, text.as_slice())
}

/// From the table on.
fn plan_table<K: Shelf>(
    alloc: Global,
    files: &PlanFiles<'_>,
    table: &Table,
    shelf: &mut K,
) -> Option<Ended>
    requires valid { IsValidTable table.now }
    requires held { HoldsTable (K.files shelf.now) files.now.table.now table.now }
    ensures { PerformsOn K.files K.counts K.asked K.since_fault shelf.old shelf.new (plan_task_of files.now) result }
{
    match plan_of_table(alloc, table) {
        Ok(plan) => write_plan(alloc, files, plan, shelf),
        Err(PlanFault::Missed(miss)) => {
            end_with(alloc, Status::Unschedulable(miss), &miss_report(miss))
        }
        Err(PlanFault::OutOfMemory) => None,
    }
}

/// Writes the certificate of a plan. The report is made first, so that want of memory for it leaves the file as it was.
fn write_plan<K: Shelf>(
    alloc: Global,
    files: &PlanFiles<'_>,
    plan: Cert,
    shelf: &mut K,
) -> Option<Ended>
    requires writable { IsWritable plan }
    requires planned { HasPlan (K.files shelf.now) files.now.table.now plan }
    ensures { PerformsOn K.files K.counts K.asked K.since_fault shelf.old shelf.new (plan_task_of files.now) result }
{
    let Ok(bytes) = write_cert(alloc, &plan) else {
        return None;
    };
    let done = end_with(alloc, Status::Ok, &plan_report(plan))?;
    match write_file(shelf, files.certificate, bytes.as_slice()) {
        Ok(()) => Some(done),
        Err(Fault::Failed) => end_unwritten(alloc, files.certificate),
        Err(Fault::OutOfMemory) => None,
        Err(Fault::Missing) => unreachable!(),
    }
}

/// A table's text that is refused; none for want of memory.
pub fn end_refused_table(alloc: Global, fault: TableFault) -> Option<Ended>
    ensures { IfSome result (IsRefusedFor (refusal_by fault)) }
{
    let refusal = refusal_of(fault)?;
    let report = refusal_report(&refusal);
    end_with(alloc, Status::JobRefused(refusal), &report)
}

/// The refusal of a table fault; none for want of memory.
fn refusal_of(fault: TableFault) -> Option<JobRefusal>
    ensures { result ≡ refusal_by fault }
{
    match fault {
        TableFault::TableSyntax(line) => Some(JobRefusal::TableSyntax(line)),
        TableFault::TableLimit(name) => Some(JobRefusal::TableLimit(name)),
        TableFault::OutOfMemory => None,
    }
}
