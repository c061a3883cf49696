//! From a file to the text of the table of one of its programs, step by step.

ghost use Rattle.std.specs.Prelude.{◌≡◌, ◌∷◌, ℕ, [], IfOk, IfSome};
ghost use Rattle.job_programs.specs.Passed.{IsPassedProbed, IsSizedOff};
ghost use Rattle.job_programs.specs.Read.{IsReadProbed};
ghost use Rattle.job_report.specs.declared.limits.TheConstants.{COARSER_DEFAULT, PROBE_SLOT, START_DEFAULT};
ghost use Rattle.program_reader.specs.declared.program.Program.{Program as AnyProgram};
ghost use Rattle.version_table.specs.Text.{IsTextTable};
ghost use Rattle.command_words.specs.Ended.{PerformsOn};
ghost use Rattle.probe_command.specs.Private.Probed.{IsProbedText};
ghost use Rattle.probe_command.specs.ProbeCommand.{IsProbedTable, probe_task_of};

use crate::report::probe_report;
use command_words::{
    Ended, ProbeWords, Status, end_missing, end_refused_source, end_unread, end_unwritten, end_with,
};
use job_programs::{ProgramsFault, pass_one};
use job_report::limits::{
    DRIFT_DEFAULT, EVALUATIONS_DEFAULT, NODES_DEFAULT, PROBE_SLOT, START_DEFAULT, WEIGHT_DEFAULT,
};
use list_types::{ListOf, OutOfMemory};
use passed_programs::SizedPassed;
use program_table::laws::row_is_valid;
use program_table::row_of_passed_program;
use shelf_io::{Fault, Shelf, write_file};
use std::alloc::Global;
use version_table::{ProgramRow, Table, write_table};

/// Does the work of `probe FILE PROGRAM TABLE`; none for want of memory. TABLE is started once its text and the report stand.
pub fn probe_file<K: Shelf>(alloc: Global, words: &ProbeWords<'_>, shelf: &mut K) -> Option<Ended>
    ensures { PerformsOn K.files K.counts K.asked K.since_fault shelf.old shelf.new (probe_task_of words.now) result }
{
    match pass_one(
        alloc,
        shelf,
        words.file,
        words.program,
        &[],
        START_DEFAULT,
        PROBE_SLOT,
    ) {
        Ok(read) => write_probed(alloc, words, &read, shelf),
        Err(ProgramsFault::Refused(fault)) => end_refused_source(alloc, fault),
        Err(ProgramsFault::Failed(_)) => end_unread(alloc, words.file),
        Err(ProgramsFault::Missing(_)) => end_missing(alloc, words.file),
        Err(ProgramsFault::OutOfMemory) => None,
    }
}

/// From the program on. Text and report are made first, so that want of memory for them leaves the file as it was.
fn write_probed<K: Shelf>(
    alloc: Global,
    words: &ProbeWords<'_>,
    read: &SizedPassed,
    shelf: &mut K,
) -> Option<Ended>
    requires { IsPassedProbed (K.files shelf.now) words.now.file.now PROBE_SLOT START_DEFAULT words.now.program [] read.now }
    ensures { PerformsOn K.files K.counts K.asked K.since_fault shelf.old shelf.new (probe_task_of words.now) result }
{
    let probed = prepare(alloc, read)?;
    match write_file(shelf, words.table, probed.text.as_slice()) {
        Ok(()) => Some(probed.done),
        Err(Fault::Failed) => end_unwritten(alloc, words.table),
        Err(Fault::OutOfMemory) => None,
        Err(Fault::Missing) => unreachable!(),
    }
}

/// What is written and reported of a program, made before a file is started.
#[derive(Drop)]
struct Probed {
    /// The text of its table.
    text: ListOf<u8>,
    /// The end of a command whose file was written.
    done: Ended,
}

/// Makes the table's text and the report of a program; none for want of memory.
fn prepare(alloc: Global, read: &SizedPassed) -> Option<Probed>
    requires { (number : ℕ) × (program : AnyProgram) × IsReadProbed PROBE_SLOT START_DEFAULT number [] program × IsSizedOff program COARSER_DEFAULT read.now }
    ensures { (program : AnyProgram) → IsSizedOff program COARSER_DEFAULT read.now → IfSome result (IsProbedText program) }
{
    let Ok(table) = table_of_probed(alloc, read) else {
        return None;
    };
    let Ok(text) = write_table(alloc, &table) else {
        return None;
    };
    let Ok(report) = probe_report(alloc, &read.program) else {
        return None;
    };
    let done = end_with(alloc, Status::Ok, &report)?;
    Some(Probed { text, done })
}

/// The table of a program as it is probed, of the sizes that were told when it was read. Fails only for want of memory.
fn table_of_probed(alloc: Global, read: &SizedPassed) -> Result<Table, OutOfMemory>
    requires { (number : ℕ) × (program : AnyProgram) × IsReadProbed PROBE_SLOT START_DEFAULT number [] program × IsSizedOff program COARSER_DEFAULT read.now }
    ensures table { (program : AnyProgram) → IsSizedOff program COARSER_DEFAULT read.now → IfOk result (IsProbedTable program) }
    ensures text { IfOk result IsTextTable }
{
    row_is_valid();
    let row = row_of_passed_program(
        alloc,
        &read.program,
        read.sizes.as_slice(),
        WEIGHT_DEFAULT,
        DRIFT_DEFAULT,
    )?;
    let programs = only_program(alloc, row)?;
    Ok(Table {
        slot: PROBE_SLOT,
        nodes: NODES_DEFAULT,
        evaluations: EVALUATIONS_DEFAULT,
        programs,
    })
}

/// A list of one program. Fails only for want of memory.
fn only_program(alloc: Global, row: ProgramRow) -> Result<ListOf<ProgramRow>, OutOfMemory>
    ensures { IfOk result (λ programs. programs ≡ row ∷ []) }
{
    let mut programs = ListOf::new(alloc);
    programs.push(row)?;
    Ok(programs)
}
