//! What an audit finds on a job's stream, as a function that does nothing.
ghost use Rattle.std.specs.Prelude.{◌≡◌, ℕ, ◌≤◌, All, List, Some, length, map, slice_get};
ghost use Rattle.bit_lists.specs.Fields.{AreBytes};
ghost use Rattle.version_table.specs.declared.table.Table.{Table};
ghost use Rattle.version_table.specs.Choice.{Fits};
ghost use Rattle.version_table.specs.Table.{IsValidTable};
ghost use Rattle.slot_rule.specs.declared.slot_list.SlotList.{SlotList};
ghost use Rattle.slot_rule.specs.SlotList.{IsSlotList};
ghost use Rattle.job_report.specs.declared.job.Job.{Job};
ghost use Rattle.job_report.specs.ValidJob.{IsValidJob};
ghost use Rattle.program_reader.specs.declared.program.Program.{Program};
ghost use Rattle.job_programs.specs.Programs.{ArePrograms};
ghost use Rattle.program_table.specs.Table.{IsTableOf};
ghost use Rattle.job_stream.specs.Stream.{IsStreamIn};
ghost use Rattle.stream_audit.specs.declared.audited_program.TheConstants.{AUDITED_BYTES_MOST};
ghost use Rattle.audit_laws.specs.Written.{IsFoundClean};

use crate::laws::{audio_is_clean, clock_is_read, sections_are_clean, video_is_clean};
use job_laws::programs::programs_are_read_back;
use job_laws::streams::slots_are_rows;
use job_programs::laws::programs_of_contents_are_read;
use job_stream::laws::stream_has_slots;
use layer_laws::packets::counted_payloads_are_carried;
use layer_laws::pes::audio_packet_wherever_it_stands;
use output_laws::pids::packets_are_counted;
use slot_rule::laws::{packets_stand_in_order, slots_name_the_table};
use time_laws::laws::stream_carries_its_times;
use ts_demux::laws::one_answer;
use tstd_bridge::laws::{removals_when_wanted_are_allowed, schedules_are_clean};
use version_source::laws::{one_list_of_versions, pieces_are_as_queued, programs_can_be_sent};

/// What `run` writes, audited, has no finding but a transport buffer that isn't empty for a second: each program of a job's stream is read by an audit, none of
/// its clock references is off, and whatever units of its pictures the audit is handed, as they are decoded by the stream's own clock, it finds nothing else on
/// its video, its audio streams and its sections. It needs programs whose videos are bytes, and a stream no longer than is audited.
pub fn written_streams_are_clean()
    ensures { (job : Job) (contents : List (List ℕ)) (programs : List Program) (table : Table) (choice : List ℕ) (slots : SlotList) (stream : List ℕ)
        → IsValidJob job → ArePrograms job contents programs → IsTableOf job programs table → IsValidTable table → Fits table choice
        → IsSlotList table choice slots → IsStreamIn job programs choice slots stream → All (λ program. AreBytes program.video) programs
        → length stream ≤ AUDITED_BYTES_MOST → (place number : ℕ) → slice_get (map (λ program. program.number) job.programs) place ≡ Some number → IsFoundClean stream job.slot number }
{
    programs_can_be_sent();
    one_list_of_versions();
    pieces_are_as_queued();
    slots_name_the_table();
    packets_stand_in_order();
    schedules_are_clean();
    removals_when_wanted_are_allowed();
    stream_has_slots();
    programs_of_contents_are_read();
    stream_carries_its_times();
    programs_are_read_back();
    slots_are_rows();
    packets_are_counted();
    counted_payloads_are_carried();
    one_answer();
    clock_is_read();
    sections_are_clean();
    video_is_clean();
    audio_is_clean();
    audio_packet_wherever_it_stands();
    program_reader::laws::one_answer();
}
