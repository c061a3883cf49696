ghost use Rattle.std.specs.Prelude.{◌≡◌, List, length, take, drop, IfOk};
ghost use Rattle.std.specs.List.{AllZip};
ghost use Rattle.program_reader.specs.declared.program.Program.{Program};
ghost use Rattle.passed_programs.specs.PassedProgram.{IsReadOff};
ghost use Rattle.job_pieces.specs.JobLanes.{AreJobLanes, IsSentProgram};

use file_pieces::{Lane, SentProgram, push_lanes};
use job_report::ProgramJob;
use list_types::OutOfMemory;
use passed_programs::PassedProgram;
use std::alloc::Global;
use version_table::ProgramRow;

/// The lanes of the programs of a job, in the versions that the choice names, program by program: of each program its video and its audio streams in order. There is
/// one program and one row of the table for each of the job's. An error is want of memory.
pub fn job_lanes<'a>(
    alloc: Global,
    jobs: &'a [ProgramJob],
    programs: &'a [PassedProgram],
    rows: &'a [ProgramRow],
    choice: &'a [u8],
) -> Result<Vec<Lane<'a>>, OutOfMemory>
    requires programs { length programs.now ≡ length jobs.now }
    requires rows { length rows.now ≡ length jobs.now }
    ensures { IfOk result (λ lanes. (read : List Program) → AllZip IsReadOff read programs.now → AreJobLanes jobs.now read rows.now choice.now lanes.items) }
{
    let mut lanes = Vec::new(alloc);
    let mut rest = choice;
    for k in 0..jobs.len() {
        let program = &programs[k];
        let units = program.units.len();
        let sent = sent_program(&jobs[k], program, &rows[k], first_of(rest, units));
        push_lanes(&mut lanes, &sent)?;
        rest = behind(rest, units);
    }
    Ok(lanes)
}

/// What is sent of a program of a job.
fn sent_program<'a>(
    job: &'a ProgramJob,
    program: &'a PassedProgram,
    row: &'a ProgramRow,
    choice: &'a [u8],
) -> SentProgram<'a>
    ensures { (read : Program) → IsReadOff read program.now → IsSentProgram job.now read row.now choice.now result }
{
    SentProgram {
        name: job.file.as_str(),
        streams: program.map.streams.as_slice(),
        units: program.units.as_slice(),
        rows: row.units.as_slice(),
        coarser: job.coarser.as_slice(),
        choice,
        audios: program.audios.as_slice(),
    }
}

/// So many version numbers from the front, or as many as there are.
fn first_of(choice: &[u8], units: usize) -> &[u8]
    ensures { result.now ≡ take units choice.now }
{
    if units >= choice.len() {
        return choice;
    }
    &choice[..units]
}

/// Those behind so many from the front.
fn behind(choice: &[u8], units: usize) -> &[u8]
    ensures { result.now ≡ drop units choice.now }
{
    if units >= choice.len() {
        return &[];
    }
    &choice[units..]
}
