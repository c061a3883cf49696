//! The programs of a job's stream.

ghost use Rattle.std.specs.Prelude.{◌≡◌, ℕ, All, List, Some, length, map, slice_get};
ghost use Rattle.bit_lists.specs.Fields.{AreBytes};
ghost use Rattle.version_table.specs.declared.table.Table.{Table};
ghost use Rattle.version_table.specs.Choice.{Fits};
ghost use Rattle.version_table.specs.Table.{IsValidTable};
ghost use Rattle.slot_rule.specs.declared.slot_list.SlotList.{SlotList};
ghost use Rattle.slot_rule.specs.SlotList.{IsSlotList};
ghost use Rattle.job_report.specs.declared.job.Job.{Job};
ghost use Rattle.job_report.specs.ValidJob.{IsValidJob};
ghost use Rattle.program_reader.specs.declared.program.Program.{Program};
ghost use Rattle.version_maker.specs.declared.version.UnitVersion.{UnitVersion};
ghost use Rattle.version_source.specs.Pieces.{pieces_of, stream_items};
ghost use Rattle.version_source.specs.Versions.{AreAllVersions, ratios_of};
ghost use Rattle.mux_writer.specs.Layout.{map_pid};
ghost use Rattle.mux_writer.specs.Output.{output_stream};
ghost use Rattle.job_programs.specs.Programs.{ArePrograms};
ghost use Rattle.program_table.specs.Table.{IsTableOf};
ghost use Rattle.job_stream.specs.Stream.{layout_of};
ghost use Rattle.parsing_laws.specs.TakenOut.{LeadsToMap};
ghost use Rattle.job_laws.specs.ParsesTo.{ParsesTo};

use crate::streams::{slots_are_rows, streams_carry_their_items};
use layer_laws::packets::packets_stand_in_order;
use layer_laws::pes::{packets_gathered_again, video_packet_read_as_written};
use mux_writer::laws::read_as_written;
use parsing_laws::parsed::{slots_begin_with_tables, units_of_the_video};
use parsing_laws::programs::{maps_are_read, programs_are_taken_out};
use unit_laws::units::versions_are_whole_units;
use version_source::laws::{one_list_of_versions, programs_can_be_sent};

/// Each program of a job is read back from the job's stream: under its number, with its map and no stream left out, its units in the chosen versions with their
/// times, and its audio PES packets byte for byte. It needs programs whose videos are bytes.
pub fn programs_are_read_back()
    ensures { (job : Job) (contents : List (List ℕ)) (programs : List Program) (table : Table) (choice : List ℕ) (slots : SlotList) (versions : List (List (List UnitVersion)))
        → IsValidJob job → ArePrograms job contents programs → IsTableOf job programs table → IsValidTable table → Fits table choice
        → IsSlotList table choice slots → AreAllVersions programs (ratios_of job.programs) versions
        → All (λ program. AreBytes program.video) programs
        → ParsesTo (output_stream (layout_of job programs) job.slot (pieces_of (stream_items programs versions choice)) slots.rows) 0 job.programs contents programs versions choice }
{
    slots_are_rows();
    streams_carry_their_items();
    slots_begin_with_tables();
    programs_are_taken_out();
    packets_stand_in_order();
    read_as_written();
    packets_gathered_again();
    video_packet_read_as_written();
    units_of_the_video();
    versions_are_whole_units();
    programs_can_be_sent();
    one_list_of_versions();
}

/// The PAT of a job's stream leads to the map of each program: for its number it names the PID of the map of its place, and no other one.
pub fn pat_leads_to_the_maps()
    ensures { (job : Job) (contents : List (List ℕ)) (programs : List Program) (table : Table) (choice : List ℕ) (slots : SlotList) (versions : List (List (List UnitVersion)))
        → IsValidJob job → ArePrograms job contents programs → IsTableOf job programs table → IsValidTable table → Fits table choice
        → IsSlotList table choice slots → AreAllVersions programs (ratios_of job.programs) versions
        → (place number : ℕ) → slice_get (map (λ program. program.number) job.programs) place ≡ Some number
        → LeadsToMap (output_stream (layout_of job programs) job.slot (pieces_of (stream_items programs versions choice)) slots.rows) number (map_pid place) }
{
    slots_are_rows();
    slots_begin_with_tables();
    maps_are_read();
    programs_can_be_sent();
    one_list_of_versions();
}
