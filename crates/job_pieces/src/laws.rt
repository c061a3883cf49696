//! What holds of the lanes of a job, each a law that is the contract of a function that nobody needs to call.
ghost use Rattle.std.specs.Prelude.{◌≡◌, ℕ, List, All, Option, Some};
ghost use Rattle.shelf_io.specs.Files.{Files};
ghost use Rattle.version_table.specs.declared.table.Table.{Table};
ghost use Rattle.version_table.specs.Table.{IsValidTable};
ghost use Rattle.slot_rule.specs.declared.slot_list.SlotList.{SlotList};
ghost use Rattle.slot_rule.specs.SlotList.{IsSlotList};
ghost use Rattle.mux_writer.specs.Output.{IsOfLayout, output_stream};
ghost use Rattle.job_report.specs.declared.job.Job.{Job};
ghost use Rattle.program_reader.specs.declared.program.Program.{Program};
ghost use Rattle.version_maker.specs.declared.version.UnitVersion.{UnitVersion};
ghost use Rattle.version_source.specs.Pieces.{pieces_of};
ghost use Rattle.job_stream.specs.Stream.{IsStreamIn, layout_of};
ghost use Rattle.file_pieces.specs.declared.lane.Lane.{Lane};
ghost use Rattle.file_pieces.specs.FilePieces.{AreHeld, AreLanesVersions, HaveLanesVersions, LanesHave, lanes_items};
ghost use Rattle.job_pieces.specs.JobLanes.{AreJobLanes, CanBeSent};

use file_pieces::laws::{files_hold_programs, files_send_programs};
use slot_rule::laws::slots_name_the_table;
use version_source::laws::{one_list_of_versions, programs_can_be_sent};

/// The lanes of the programs of a job can be sent, and their units have versions.
pub fn lanes_can_be_sent()
    ensures held { (told : Option Files) (job : Job) (programs : List Program) (table : Table) (choice : List ℕ) (lanes : List Lane) → CanBeSent told job programs table choice →
        AreJobLanes job.programs programs table.programs choice lanes → AreHeld told lanes }
    ensures versions { (told : Option Files) (job : Job) (programs : List Program) (table : Table) (choice : List ℕ) (lanes : List Lane) → CanBeSent told job programs table choice →
        AreJobLanes job.programs programs table.programs choice lanes → HaveLanesVersions told lanes }
{
    files_hold_programs();
    files_send_programs();
    programs_can_be_sent();
}

/// They have each piece that the slots of the job's schedule name.
pub fn slots_are_of_the_lanes()
    ensures { (told : Option Files) (job : Job) (programs : List Program) (table : Table) (choice : List ℕ) (lanes : List Lane) (slots : SlotList) →
        CanBeSent told job programs table choice → AreJobLanes job.programs programs table.programs choice lanes → IsValidTable table → IsSlotList table choice slots →
        All (IsOfLayout (layout_of job programs) (LanesHave lanes)) slots.rows }
{
    programs_can_be_sent();
    slots_name_the_table();
}

/// Where files are told, the stream of their pieces is the stream of the job.
pub fn lanes_give_the_stream()
    ensures { (files : Files) (job : Job) (programs : List Program) (table : Table) (choice : List ℕ) (lanes : List Lane) (slots : SlotList)
        (versions : List (List (List UnitVersion))) (stream : List ℕ) → CanBeSent (Some files) job programs table choice →
        AreJobLanes job.programs programs table.programs choice lanes → AreLanesVersions files lanes versions → IsStreamIn job programs choice slots stream →
        stream ≡ output_stream (layout_of job programs) job.slot (pieces_of (lanes_items files lanes versions)) slots.rows }
{
    files_send_programs();
    programs_can_be_sent();
    one_list_of_versions();
}
