//! The streams of a job's stream.

ghost use Rattle.std.specs.Prelude.{◌≡◌, ℕ, ◌<◌, List, [], length, map, slice_index_or};
ghost use Rattle.std.specs.List.{flat_map};
ghost use Rattle.version_table.specs.declared.table.Table.{Table};
ghost use Rattle.version_table.specs.Choice.{Fits};
ghost use Rattle.version_table.specs.Table.{IsValidTable};
ghost use Rattle.slot_rule.specs.declared.slot_list.SlotList.{SlotList};
ghost use Rattle.slot_rule.specs.SlotList.{IsSlotList};
ghost use Rattle.ts_packets.specs.TransportStream.{pid_pieces as packets_on};
ghost use Rattle.ts_packets.specs.Carried.{carried};
ghost use Rattle.job_report.specs.declared.job.Job.{Job};
ghost use Rattle.job_report.specs.ValidJob.{IsValidJob};
ghost use Rattle.program_reader.specs.declared.program.Program.{Program};
ghost use Rattle.version_maker.specs.declared.version.UnitVersion.{UnitVersion};
ghost use Rattle.version_source.specs.Pieces.{pieces_of, stream_items};
ghost use Rattle.version_source.specs.Versions.{AreAllVersions, ratios_of};
ghost use Rattle.mux_writer.specs.Layout.{stream_pid, stream_pids};
ghost use Rattle.mux_writer.specs.Output.{output_stream};
ghost use Rattle.job_programs.specs.Programs.{ArePrograms};
ghost use Rattle.program_table.specs.Table.{IsTableOf};
ghost use Rattle.job_stream.specs.Stream.{layout_of};
ghost use Rattle.output_laws.specs.SentOn.{AreRowsOf};

use job_stream::laws::slots_are_of_the_layout;
use output_laws::streams::{queues_send_items, streams_read_as_sent};
use version_source::laws::{one_list_of_versions, pieces_are_as_queued};

/// The slots of a job's schedule are rows of an output stream, so that all laws of reading one hold of them.
pub fn slots_are_rows()
    ensures { (job : Job) (contents : List (List ℕ)) (programs : List Program) (table : Table) (choice : List ℕ) (slots : SlotList) (versions : List (List (List UnitVersion)))
        → IsValidJob job → ArePrograms job contents programs → IsTableOf job programs table → IsValidTable table → Fits table choice
        → IsSlotList table choice slots → AreAllVersions programs (ratios_of job.programs) versions
        → AreRowsOf (layout_of job programs) (pieces_of (stream_items programs versions choice)) slots.rows }
{
    slots_are_of_the_layout();
}

/// Each stream's PID carries the pieces of this stream's items in order: of video the PES packets of the units in their chosen
/// versions, of audio the payloads that the program was read with.
pub fn streams_carry_their_items()
    ensures { (job : Job) (contents : List (List ℕ)) (programs : List Program) (table : Table) (choice : List ℕ) (slots : SlotList) (versions : List (List (List UnitVersion))) (stream : ℕ)
        → IsValidJob job → ArePrograms job contents programs → IsTableOf job programs table → IsValidTable table → Fits table choice
        → IsSlotList table choice slots → AreAllVersions programs (ratios_of job.programs) versions
        → stream < length (stream_items programs versions choice) → stream < length (stream_pids (layout_of job programs))
        → map (λ carried. carried.payload)
        (carried (packets_on (output_stream (layout_of job programs) job.slot (pieces_of (stream_items programs versions choice)) slots.rows)
        (stream_pid (layout_of job programs) stream) 0 (length slots.rows)))
        ≡ flat_map (λ pieces. pieces) (slice_index_or (stream_items programs versions choice) stream []) }
{
    slots_are_rows();
    one_list_of_versions();
    pieces_are_as_queued();
    queues_send_items();
    streams_read_as_sent();
}
