//! Laws of the bytes of a job's stream, as functions that do nothing.
ghost use Rattle.std.specs.Prelude.{ℕ, List};
ghost use Rattle.version_table.specs.declared.table.Table.{Table};
ghost use Rattle.version_table.specs.Choice.{Fits};
ghost use Rattle.version_table.specs.Table.{IsValidTable};
ghost use Rattle.slot_rule.specs.declared.slot_list.SlotList.{SlotList};
ghost use Rattle.slot_rule.specs.SlotList.{IsSlotList};
ghost use Rattle.job_report.specs.declared.job.Job.{Job};
ghost use Rattle.job_report.specs.ValidJob.{IsValidJob};
ghost use Rattle.program_reader.specs.declared.program.Program.{Program};
ghost use Rattle.job_programs.specs.Read.{AreReadPrograms};
ghost use Rattle.program_table.specs.Table.{IsTableOf};
ghost use Rattle.job_stream.specs.Stream.{IsStreamIn};
ghost use Rattle.clean_laws.specs.Clean.{IsCleanStream};

use job_stream::laws::stream_has_slots;
use slot_rule::laws::{packets_stand_in_order, slots_name_the_table};
use tstd_bridge::laws::{removals_when_wanted_are_allowed, schedules_are_clean};
use version_source::laws::{one_list_of_versions, pieces_are_as_queued, programs_can_be_sent};

/// The bytes of a job's stream under a scheduled choice are clean: what their packets bring to the decoder of each elementary
/// stream, and of each program's sections, gives it no fault.
pub fn stream_is_clean()
    ensures { (job : Job) (programs : List Program) (table : Table) (choice : List ℕ) (slots : SlotList) (stream : List ℕ)
        → IsValidJob job → AreReadPrograms job programs → IsTableOf job programs table → IsValidTable table → Fits table choice
        → IsSlotList table choice slots → IsStreamIn job programs choice slots stream → IsCleanStream table choice stream }
{
    programs_can_be_sent();
    one_list_of_versions();
    pieces_are_as_queued();
    slots_name_the_table();
    packets_stand_in_order();
    schedules_are_clean();
    removals_when_wanted_are_allowed();
    stream_has_slots();
}
