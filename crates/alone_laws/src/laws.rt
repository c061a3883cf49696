//! What `audit` makes of a job's stream, as functions that do nothing.
ghost use Rattle.std.specs.Prelude.{◌≡◌, ℕ, ◌≤◌, All, List, Some, length, map, slice_get};
ghost use Rattle.std.specs.FinMap.{get};
ghost use Rattle.bit_lists.specs.Fields.{AreBytes};
ghost use Rattle.shelf_io.specs.Files.{Files};
ghost use Rattle.version_table.specs.declared.table.Table.{Table};
ghost use Rattle.version_table.specs.Choice.{Fits};
ghost use Rattle.version_table.specs.Table.{IsValidTable};
ghost use Rattle.job_report.specs.declared.job.Job.{Job};
ghost use Rattle.job_report.specs.ValidJob.{IsValidJob};
ghost use Rattle.program_reader.specs.declared.program.Program.{Program};
ghost use Rattle.job_programs.specs.Programs.{ArePrograms};
ghost use Rattle.program_table.specs.Table.{IsTableOf};
ghost use Rattle.job_stream.specs.Stream.{IsStreamOf};
ghost use Rattle.stream_audit.specs.declared.audited_program.TheConstants.{AUDITED_BYTES_MOST};
ghost use Rattle.command_words.specs.declared.status.Status.{Status as AnyStatus};
ghost use Rattle.audit_command.specs.AuditCommand.{AuditCallsFor};
ghost use Rattle.alone_laws.specs.PassesAudit.{IsPassed, PassesAudit};

use audit_command::laws::audits_stop_before_streams;
use audit_laws::laws::{audio_is_clean, clock_is_read, sections_are_clean, video_is_clean};
use job_laws::programs::programs_are_read_back;
use job_laws::streams::slots_are_rows;
use job_programs::laws::{lone_program_has_one_answer, programs_of_contents_are_read};
use job_stream::laws::stream_has_slots;
use layer_laws::packets::counted_payloads_are_carried;
use layer_laws::pes::audio_packet_wherever_it_stands;
use output_laws::pids::packets_are_counted;
use picture_heads::laws::head_without_delay_is_read;
use picture_laws::pictures::spelled_picture_has_state;
use picture_laws::written::written_picture_is_read;
use requantiser::laws::version_is_lawful_behind;
use slot_rule::laws::{packets_stand_in_order, slots_name_the_table};
use time_laws::laws::stream_carries_its_times;
use ts_demux::laws::one_answer;
use tstd_bridge::laws::{removals_when_wanted_are_allowed, schedules_are_clean};
use unit_laws::units::versions_are_whole_units;
use version_source::laws::{one_list_of_versions, pieces_are_as_queued, programs_can_be_sent};

/// Each program of a job's stream passes an audit: read by itself as `audit` reads it, it is refused for nothing, and in the audit of its units nothing is found
/// but a transport buffer that isn't empty for a second. It needs programs whose videos are bytes, and a stream no longer than is audited.
pub fn written_programs_pass()
    ensures { (job : Job) (contents : List (List ℕ)) (programs : List Program) (table : Table) (choice stream : List ℕ) → IsValidJob job → ArePrograms job contents programs
        → IsTableOf job programs table → IsValidTable table → Fits table choice → IsStreamOf job programs table choice stream → All (λ program. AreBytes program.video) programs
        → length stream ≤ AUDITED_BYTES_MOST → (place number : ℕ) → slice_get (map (λ program. program.number) job.programs) place ≡ Some number
        → PassesAudit stream job.slot number }
{
    programs_can_be_sent();
    one_list_of_versions();
    pieces_are_as_queued();
    slots_name_the_table();
    packets_stand_in_order();
    schedules_are_clean();
    removals_when_wanted_are_allowed();
    stream_has_slots();
    programs_of_contents_are_read();
    stream_carries_its_times();
    programs_are_read_back();
    slots_are_rows();
    packets_are_counted();
    counted_payloads_are_carried();
    one_answer();
    clock_is_read();
    sections_are_clean();
    video_is_clean();
    audio_is_clean();
    audio_packet_wherever_it_stands();
    program_reader::laws::one_answer();
    head_without_delay_is_read();
    spelled_picture_has_state();
    written_picture_is_read();
    version_is_lawful_behind();
    versions_are_whole_units();
    audits_stop_before_streams();
}

/// So the command `audit` on a file that holds a job's stream, for each of its programs in the job's slots, ends with status 0, or with 11 and a transport buffer
/// that isn't empty for a second.
pub fn written_streams_pass()
    ensures { (job : Job) (contents : List (List ℕ)) (programs : List Program) (table : Table) (choice stream : List ℕ) → IsValidJob job → ArePrograms job contents programs
        → IsTableOf job programs table → IsValidTable table → Fits table choice → IsStreamOf job programs table choice stream → All (λ program. AreBytes program.video) programs
        → length stream ≤ AUDITED_BYTES_MOST → (place number : ℕ) → slice_get (map (λ program. program.number) job.programs) place ≡ Some number
        → (files : Files) (name : List ℕ) (status : AnyStatus) → get files name ≡ Some stream → AuditCallsFor name number job.slot (Some files) status → IsPassed status }
{
    written_programs_pass();
    lone_program_has_one_answer();
}
