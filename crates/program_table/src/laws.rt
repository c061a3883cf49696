//! What holds of the tables of programs.
ghost use Rattle.std.specs.Prelude.{◌≡◌, ◌≤◌, ◌<◌, ℕ, List, length, sum_by};
ghost use Rattle.std.specs.List.{flat_map};
ghost use Rattle.job_report.specs.declared.job.Job.{Job};
ghost use Rattle.job_report.specs.ValidJob.{IsValidJob};
ghost use Rattle.program_reader.specs.declared.program.Program.{Program};
ghost use Rattle.version_table.specs.declared.table.ProgramRow.{ProgramRow};
ghost use Rattle.version_table.specs.declared.table.Table.{Table};
ghost use Rattle.version_table.specs.Table.{IsValidProgram, IsValidTable, greatest_distortion};
ghost use Rattle.program_reader.specs.ReadProgram.{IsReadProgram};
ghost use Rattle.job_programs.specs.Programs.{IsWithinTime};
ghost use Rattle.job_programs.specs.Read.{AreReadPrograms};
ghost use Rattle.job_programs.specs.Share.{KeepsShare};
ghost use Rattle.program_table.specs.Table.{IsRowOf, IsTableOf};

use job_report::limits::{COARSER_MOST, DRIFT_DEFAULT, WEIGHT_MOST};
use program_reader::limits::UNITS_MOST;
use version_laws::laws::versions_have_places;
use version_source::laws::one_list_of_versions;
use version_table::limits::{AUDIO_PACKETS_LIMIT, DISTORTIONS_LIMIT};

/// The programs of a job have one table.
pub fn one_table()
    ensures { (job : Job) (programs : List Program) (a b : Table) → IsTableOf job programs a → IsTableOf job programs b → a ≡ b }
{
    one_list_of_versions();
}

/// Where the programs of a valid job were read, their table keeps the limits of tables.
pub fn table_is_valid()
    ensures { (job : Job) (programs : List Program) (table : Table) → IsValidJob job → AreReadPrograms job programs → IsTableOf job programs table
        → IsValidTable table }
{
    versions_have_places();
}

/// Where a program was read whose times lie within a slot length's limit, and that takes no more of a table than its share, its row
/// without drift has a place in a table of such slots.
pub fn row_is_valid()
    ensures { (slot start weight : ℕ) (coarser : List ℕ) (program : Program) (row : ProgramRow) → weight ≤ WEIGHT_MOST → length coarser ≤ COARSER_MOST
        → IsReadProgram start program → IsWithinTime slot program → KeepsShare weight DRIFT_DEFAULT coarser program → IsRowOf program coarser weight DRIFT_DEFAULT row
        → IsValidProgram slot row × (length row.units ≤ UNITS_MOST) × (length (flat_map (λ packets. packets) row.audios) < AUDIO_PACKETS_LIMIT)
        × (sum_by greatest_distortion row.units < DISTORTIONS_LIMIT) }
{
    versions_have_places();
}
