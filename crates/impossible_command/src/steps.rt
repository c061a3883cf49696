//! From the file of a table to the verdict on it, step by step.

ghost use Rattle.std.specs.Prelude.{IfSome};
ghost use Rattle.version_table.specs.Table.{IsValidTable};
ghost use Rattle.command_words.specs.Ended.{PerformsOn};
ghost use Rattle.plan_command.specs.Private.Front.{HoldsFront};
ghost use Rattle.impossible_command.specs.ImpossibleCommand.{impossible_task_of};
ghost use Rattle.impossible_command.specs.Private.Judged.{EndsByVerdict};

use crate::verdicts::verdict;
use command_words::{Ended, ImpossibleFiles, Status, end_missing, end_unread, end_with};
use plan_command::end_refused_table;
use shelf_io::{Fault, Shelf, read_file};
use std::alloc::Global;
use version_table::limits::TABLE_TEXT_MOST;
use version_table::{Table, read_table};

/// Does the work of `impossible TABLE`; none for want of memory. No file is changed.
pub fn judge_file<K: Shelf>(
    alloc: Global,
    files: &ImpossibleFiles<'_>,
    shelf: &mut K,
) -> Option<Ended>
    ensures { PerformsOn K.files K.counts K.asked K.since_fault shelf.old shelf.new (impossible_task_of files.now) result }
{
    match read_file(alloc, shelf, files.table, TABLE_TEXT_MOST as u64) {
        Ok(text) => judge_text(alloc, files, text.as_slice(), shelf),
        Err(Fault::Failed) => end_unread(alloc, files.table),
        Err(Fault::Missing) => end_missing(alloc, files.table),
        Err(Fault::OutOfMemory) => None,
    }
}

/// From the first bytes of the table's text on, up to one past its limit. The shelf isn't called again.
fn judge_text<K: Shelf>(
    alloc: Global,
    files: &ImpossibleFiles<'_>,
    text: &[u8],
    shelf: &mut K,
) -> Option<Ended>
    requires { HoldsFront (K.files shelf.now) files.now.table.now text.now }
    ensures { PerformsOn K.files K.counts K.asked K.since_fault shelf.old shelf.new (impossible_task_of files.now) result }
{
    match read_table(alloc, text) {
        Ok(table) => judge_table(alloc, &table),
        Err(fault) => end_refused_table(alloc, fault),
    }
}

/// From the table on; none for want of memory.
fn judge_table(alloc: Global, table: &Table) -> Option<Ended>
    requires { IsValidTable table.now }
    ensures { IfSome result (EndsByVerdict table.now) }
{
    let Ok(report) = verdict(alloc, table) else {
        return None;
    };
    end_with(alloc, Status::Ok, &report)
}
