ghost use Rattle.std.specs.Prelude.{◌≡◌, length, All, IfOk};
ghost use Rattle.job_report.specs.ValidJob.{IsValidJob};
ghost use Rattle.job_programs.specs.Sizes.{AreJobSizes};
ghost use Rattle.version_source.specs.Sendable.{IsSendable};
ghost use Rattle.program_table.specs.Table.{IsTableOf};

use crate::sized_row::row_of_sized_program;
use job_report::Job;
use list_types::{ListOf, OutOfMemory};
use program_reader::{Program, UnitSizes};
use std::alloc::Global;
use version_table::Table;

/// The table of the programs of a job, each of which can be sent. `sizes` has of each program those of its units, as
/// `read_sized_programs` tells them, at the ratios that the job gives it. No unit is read. The error is want of memory.
pub fn table_of(
    alloc: Global,
    job: &Job,
    programs: &[Program],
    sizes: &[ListOf<UnitSizes>],
) -> Result<Table, OutOfMemory>
    requires job { IsValidJob job.now }
    requires sizes { AreJobSizes job.now.programs programs.now sizes.now }
    requires sendable { All IsSendable programs.now }
    ensures { IfOk result (IsTableOf job.now programs.now) }
{
    let jobs = job.programs.as_slice();
    let mut rows = ListOf::new(alloc);
    for i in 0..programs.len() {
        let own = sizes[i].as_slice();
        let wanted = &jobs[i];
        let row = row_of_sized_program(alloc, &programs[i], own, wanted.weight, wanted.drift)?;
        rows.push(row)?;
    }
    Ok(Table {
        slot: job.slot,
        nodes: job.nodes,
        evaluations: job.evaluations,
        programs: rows,
    })
}
