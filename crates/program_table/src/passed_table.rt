ghost use Rattle.std.specs.Prelude.{◌≡◌, List, length, IfOk};
ghost use Rattle.job_report.specs.ValidJob.{IsValidJob};
ghost use Rattle.job_programs.specs.Passed.{AreSizedOff};
ghost use Rattle.job_programs.specs.Read.{AreReadPrograms};
ghost use Rattle.program_reader.specs.declared.program.Program.{Program as AnyProgram};
ghost use Rattle.program_table.specs.Table.{IsTableOf};

use crate::passed_row::row_of_passed_program;
use job_programs::PassedPrograms;
use job_report::Job;
use list_types::{ListOf, OutOfMemory};
use std::alloc::Global;
use version_table::Table;

/// The table of the programs of a job that were read without the bytes of their streams, with the sizes of their units, as
/// `pass_sized_programs` tells them, at the ratios that the job gives each of them. No unit is read. The error is want of memory.
pub fn table_of_passed(
    alloc: Global,
    job: &Job,
    read: &PassedPrograms,
) -> Result<Table, OutOfMemory>
    requires job { IsValidJob job.now }
    requires read { (programs : List AnyProgram) × AreReadPrograms job.now programs × AreSizedOff job.now programs read.now }
    ensures { (programs : List AnyProgram) → AreSizedOff job.now programs read.now → IfOk result (IsTableOf job.now programs) }
{
    let jobs = job.programs.as_slice();
    let programs = read.programs.as_slice();
    let sizes = read.sizes.as_slice();
    let mut rows = ListOf::new(alloc);
    for i in 0..programs.len() {
        let own = sizes[i].as_slice();
        let wanted = &jobs[i];
        let row = row_of_passed_program(alloc, &programs[i], own, wanted.weight, wanted.drift)?;
        rows.push(row)?;
    }
    Ok(Table {
        slot: job.slot,
        nodes: job.nodes,
        evaluations: job.evaluations,
        programs: rows,
    })
}
