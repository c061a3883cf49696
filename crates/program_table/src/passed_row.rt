//! One program of a table that was read without the bytes of its streams.
ghost use Rattle.std.specs.Prelude.{◌≡◌, ◌≤◌, ℕ, List, length, All, IfOk};
ghost use Rattle.passed_programs.specs.PassedProgram.{IsReadOff};
ghost use Rattle.program_reader.specs.declared.program.Program.{Program as AnyProgram};
ghost use Rattle.program_reader.specs.Sizes.{AreProgramSizes};
ghost use Rattle.program_reader.specs.ReadProgram.{IsReadProgram};
ghost use Rattle.program_table.specs.Table.{IsRowOf};

use crate::audio_rows::rows_of_pieces;
use crate::sized_row::rows_of_sized_units;
use job_report::limits::{DRIFT_MOST, WEIGHT_MOST};
use list_types::OutOfMemory;
use passed_programs::PassedProgram;
use program_reader::UnitSizes;
use std::alloc::Global;
use version_laws::laws::sizes_are_bounded;
use version_source::laws::programs_can_be_sent;
use version_table::ProgramRow;

/// The row of a program in a table, of the sizes that were told when it was read: each unit with all its versions, whose distortions
/// count as much as the unit weighs at the program's weight and drift, and the packets of its audio streams. No unit is read. The error is want of memory.
pub fn row_of_passed_program(
    alloc: Global,
    passed: &PassedProgram,
    sizes: &[UnitSizes],
    weight: u8,
    drift: u8,
) -> Result<ProgramRow, OutOfMemory>
    requires read { (start : ℕ) × (program : AnyProgram) × (coarser : List ℕ) × IsReadProgram start program × IsReadOff program passed.now × AreProgramSizes program coarser sizes.now }
    requires weight { weight ≤ WEIGHT_MOST }
    requires drift { drift ≤ DRIFT_MOST }
    ensures { (program : AnyProgram) (coarser : List ℕ) → IsReadOff program passed.now → AreProgramSizes program coarser sizes.now
        → IfOk result (IsRowOf program coarser weight drift) }
{
    sizes_are_bounded();
    programs_can_be_sent();
    let units = rows_of_sized_units(alloc, passed.units.as_slice(), sizes, weight, drift)?;
    let audios = rows_of_pieces(alloc, passed.audios.as_slice())?;
    Ok(ProgramRow {
        vbv: passed.vbv,
        units,
        audios,
    })
}
