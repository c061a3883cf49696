//! One program of a table, of which the sizes of its units' versions are told.
ghost use Rattle.std.specs.Prelude.{◌≡◌, ◌≤◌, ℕ, List, None, length, map, All, IfOk};
ghost use Rattle.pes_units.specs.VideoHeader.{AreInRange, IsBesidePts};
ghost use Rattle.program_reader.specs.Sizes.{AreProgramSizes};
ghost use Rattle.version_source.specs.Sendable.{IsSendable};
ghost use Rattle.program_table.specs.Table.{IsRowOf};
ghost use Rattle.program_table.specs.Private.Rows.{AreBounded, CanBeSaid, sized_row, sized_rows};

use crate::audio_rows::rows_of_audios;
use crate::unit_row::{header_bytes, with_headers};
use job_report::limits::{DRIFT_MOST, WEIGHT_MOST};
use list_types::{ListOf, OutOfMemory};
use program_reader::laws::see_bytes;
use program_reader::limits::UNIT_WEIGHT_MOST;
use program_reader::{Program, UnitSizes, UnitSource, unit_weight};
use std::alloc::Global;
use version_laws::laws::sizes_are_bounded;
use version_table::{ProgramRow, Unit};

/// The row of a program in a table, of the sizes that were told when it was read: each unit with all its versions, whose distortions
/// count as much as the unit weighs at the program's weight and drift, and the packets of its audio streams. No unit is read. The error is want of memory.
pub fn row_of_sized_program(
    alloc: Global,
    program: &Program,
    sizes: &[UnitSizes],
    weight: u8,
    drift: u8,
) -> Result<ProgramRow, OutOfMemory>
    requires sendable { IsSendable program.now }
    requires sizes { (coarser : List ℕ) × AreProgramSizes program.now coarser sizes.now }
    requires weight { weight ≤ WEIGHT_MOST }
    requires drift { drift ≤ DRIFT_MOST }
    ensures { (coarser : List ℕ) → AreProgramSizes program.now coarser sizes.now → IfOk result (IsRowOf program.now coarser weight drift) }
{
    sizes_are_bounded();
    let video = program.video.as_slice();
    see_bytes(video);
    let units = rows_of_sized_units(alloc, program.units.as_slice(), sizes, weight, drift)?;
    let audios = rows_of_audios(alloc, program.audios.as_slice())?;
    Ok(ProgramRow {
        vbv: program.vbv,
        units,
        audios,
    })
}

/// The rows of units with these sizes.
pub(crate) fn rows_of_sized_units(
    alloc: Global,
    units: &[UnitSource],
    sizes: &[UnitSizes],
    weight: u8,
    drift: u8,
) -> Result<ListOf<Unit>, OutOfMemory>
    requires units { All CanBeSaid units.now }
    requires as_many { length sizes.now ≡ length units.now }
    requires bounded { All AreBounded sizes.now }
    requires weight { weight ≤ WEIGHT_MOST }
    requires drift { drift ≤ DRIFT_MOST }
    ensures { IfOk result (λ rows. rows ≡ sized_rows weight drift units.now sizes.now) }
{
    let mut rows = ListOf::new(alloc);
    for k in 0..units.len() {
        let own = unit_weight(units, k, weight, drift);
        rows.push(row_of_sized_unit(&units[k], &sizes[k], own))?;
    }
    Ok(rows)
}

/// The row of a unit of this weight with these sizes.
fn row_of_sized_unit(unit: &UnitSource, sizes: &UnitSizes, weight: u32) -> Unit
    requires said { CanBeSaid unit.now }
    requires bounded { AreBounded sizes.now }
    requires weight { weight ≤ UNIT_WEIGHT_MOST }
    ensures { result ≡ sized_row weight unit.now sizes.now }
{
    let header = header_bytes(&unit.times);
    Unit {
        due: unit.due,
        versions: with_headers(header, weight, sizes.versions.as_slice()),
    }
}
