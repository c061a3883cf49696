//! What holds of the stream of a job.
ghost use Rattle.std.specs.Prelude.{◌≡◌, ◌*◌, ◌^◌, ◌<◌, ◌≤◌, ℕ, All, List, length};
ghost use Rattle.stream_constants.specs.declared.packets.TheConstants.{PACKET_BYTES};
ghost use Rattle.version_table.specs.declared.table.Table.{Table};
ghost use Rattle.version_table.specs.Choice.{Fits};
ghost use Rattle.version_table.specs.Table.{IsValidTable};
ghost use Rattle.slot_rule.specs.declared.slot_list.SlotList.{SlotList};
ghost use Rattle.slot_rule.specs.SlotList.{IsSlotList};
ghost use Rattle.job_report.specs.declared.job.Job.{Job};
ghost use Rattle.job_report.specs.ValidJob.{IsValidJob};
ghost use Rattle.program_reader.specs.declared.program.Program.{Program};
ghost use Rattle.job_programs.specs.Programs.{ArePrograms};
ghost use Rattle.job_programs.specs.Read.{AreReadPrograms};
ghost use Rattle.program_table.specs.Table.{IsTableOf};
ghost use Rattle.job_stream.specs.Stream.{IsStreamIn, IsStreamOf, layout_of};
ghost use Rattle.version_table.specs.declared.limits.TheConstants.{PROGRAMS_MOST};
ghost use Rattle.version_maker.specs.declared.version.UnitVersion.{UnitVersion};
ghost use Rattle.version_source.specs.Pieces.{pieces_of, stream_items};
ghost use Rattle.version_source.specs.Versions.{AreAllVersions, ratios_of};
ghost use Rattle.mux_writer.specs.Layout.{IsLayout};
ghost use Rattle.mux_writer.specs.Output.{IsOfLayout};
ghost use Rattle.mux_writer.specs.Pieces.{IsPayload};

use slot_rule::laws::{slot_list_is_one, slots_name_the_table};
use version_source::laws::{one_list_of_versions, programs_can_be_sent};

/// The stream of a job has the bytes of one packet for each of its slots.
pub fn stream_has_slots()
    ensures { (job : Job) (programs : List Program) (table : Table) (choice : List ℕ) (slots : SlotList) (stream : List ℕ)
        → IsValidJob job → AreReadPrograms job programs → IsTableOf job programs table → IsValidTable table → Fits table choice
        → IsSlotList table choice slots → IsStreamIn job programs choice slots stream → length stream ≡ PACKET_BYTES * slots.slots }
{
    programs_can_be_sent();
    one_list_of_versions();
    slots_name_the_table();
}

/// What stands in the slots of a job's schedule is of the layout of its stream, which is one that can be written, and each piece that
/// it names is a packet's payload.
pub fn slots_are_of_the_layout()
    ensures layout { (job : Job) (contents : List (List ℕ)) (programs : List Program) → IsValidJob job → ArePrograms job contents programs
        → IsLayout (layout_of job programs) × (length (layout_of job programs).maps.items ≤ PROGRAMS_MOST) }
    // The stream types of its maps have the 8 bits of their field.
    ensures kinds { (job : Job) (contents : List (List ℕ)) (programs : List Program) → ArePrograms job contents programs
        → All (λ program. All (λ stream. stream.kind < 2 ^ 8) program.map.streams.items) programs }
    ensures slots { (job : Job) (contents : List (List ℕ)) (programs : List Program) (table : Table) (choice : List ℕ) (slots : SlotList) (versions : List (List (List UnitVersion)))
        → IsValidJob job → ArePrograms job contents programs → IsTableOf job programs table → IsValidTable table → Fits table choice
        → IsSlotList table choice slots → AreAllVersions programs (ratios_of job.programs) versions
        → All (IsOfLayout (layout_of job programs) (IsPayload (pieces_of (stream_items programs versions choice)))) slots.rows }
{
    programs_can_be_sent();
    one_list_of_versions();
    slots_name_the_table();
}

/// A job has one stream under a choice.
pub fn one_stream()
    ensures { (job : Job) (programs : List Program) (table : Table) (choice a b : List ℕ)
        → IsStreamOf job programs table choice a → IsStreamOf job programs table choice b → a ≡ b }
{
    one_list_of_versions();
    slot_list_is_one();
}
