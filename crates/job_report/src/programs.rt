//! The programs of a job.

ghost use Rattle.std.specs.Prelude.{◌≡◌, ◌<◌, ◌≤◌, [], length, map, IfOk, IfErr};
ghost use Rattle.toml.specs.View.{view, table_view};
ghost use Rattle.job_report.specs.Field.{program_fields};
ghost use Rattle.job_report.specs.Refusal.{refusals_of_table, refusals_of_programs, place_of_program, tables_among};
ghost use Rattle.job_report.specs.Job.{StatesProgram, AreProgramsOf};
ghost use Rattle.job_report.specs.Private.Fault.{TellsFirst};

use crate::fault::JobFault;
use crate::fields::{
    optional_coarser, optional_form, optional_number, optional_numbers, required_new_number,
    required_number, required_text,
};
use crate::job::ProgramJob;
use crate::limits::{
    DRIFT_DEFAULT, DRIFT_MOST, NUMBER_MOST, PID_MOST, WEIGHT_DEFAULT, WEIGHT_MOST,
};
use crate::names::check_program_names;
use crate::place::Place;
use list_types::{ListOf, Text};
use std::alloc::Global;
use toml::{Table, Value};
use version_table::limits::PROGRAMS_MOST;

/// The programs that tables state.
pub(crate) fn read_programs(alloc: Global, values: &[Value]) -> Result<ListOf<ProgramJob>, JobFault>
    requires { length values.now ≤ PROGRAMS_MOST }
    ensures right { IfOk result (λ programs. refusals_of_programs [] (tables_among (map view values.now)) ≡ []) }
    ensures programs { IfOk result (AreProgramsOf (tables_among (map view values.now))) }
    ensures wrong { IfErr result (TellsFirst (refusals_of_programs [] (tables_among (map view values.now)))) }
{
    let mut programs = ListOf::new(alloc);
    for value in values {
        if let Some(table) = value.as_table() {
            let program = read_program(alloc, table, programs.as_slice())?;
            programs.push(program)?;
        }
    }
    Ok(programs)
}

/// The program that a table states behind others.
fn read_program(alloc: Global, table: &Table, before: &[ProgramJob]) -> Result<ProgramJob, JobFault>
    requires { length before.now < PROGRAMS_MOST }
    ensures right { IfOk result (λ job. refusals_of_table (place_of_program (length before.now)) (table_view table.now) (program_fields (map (λ program. program.number) before.now)) ≡ []) }
    ensures program { IfOk result (StatesProgram (table_view table.now)) }
    ensures wrong { IfErr result (TellsFirst (refusals_of_table (place_of_program (length before.now)) (table_view table.now) (program_fields (map (λ program. program.number) before.now)))) }
{
    let place = Place::Program(before.len() as u8);
    let name = required_text(table, place, "file")?;
    let program = required_number(table, place, "program", 1, NUMBER_MOST as u64)?;
    let number = required_new_number(table, place, before)?;
    let weight = optional_number(
        table,
        place,
        "weight",
        WEIGHT_DEFAULT as u64,
        1,
        WEIGHT_MOST as u64,
    )?;
    let coarser = optional_coarser(table, place)?;
    let drift = optional_number(
        table,
        place,
        "drift",
        DRIFT_DEFAULT as u64,
        0,
        DRIFT_MOST as u64,
    )?;
    let drop = optional_numbers(table, place, "drop", &[], 0, PID_MOST)?;
    let form = optional_form(table, place)?;
    check_program_names(table, place)?;
    let mut file = Text::new(alloc);
    file.push_str(name)?;
    Ok(ProgramJob {
        file,
        program: program as u16,
        number,
        weight: weight as u8,
        coarser,
        drift: drift as u8,
        drop,
        form,
    })
}
