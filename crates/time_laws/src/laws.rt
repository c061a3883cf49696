//! Laws of the times of a job's stream, as functions that do nothing.
ghost use Rattle.std.specs.Prelude.{◌≡◌, ◌*◌, ◌^◌, ◌<◌, ℕ, ℤ, pos, All, List, map};
ghost use Rattle.bit_lists.specs.Fields.{AreBytes};
ghost use Rattle.stream_constants.specs.declared.clock.TheConstants.{TICKS_PER_TIME_UNIT};
ghost use Rattle.ts_packets.specs.Packet.{PacketRecord};
ghost use Rattle.version_table.specs.declared.table.Table.{Table};
ghost use Rattle.version_table.specs.Choice.{Fits};
ghost use Rattle.version_table.specs.Table.{IsValidTable};
ghost use Rattle.slot_rule.specs.declared.slot_list.SlotList.{SlotList};
ghost use Rattle.slot_rule.specs.SlotList.{IsSlotList};
ghost use Rattle.job_report.specs.declared.job.Job.{Job};
ghost use Rattle.job_report.specs.ValidJob.{IsValidJob};
ghost use Rattle.program_reader.specs.declared.program.Program.{Program};
ghost use Rattle.job_programs.specs.Programs.{ArePrograms};
ghost use Rattle.program_table.specs.Table.{IsTableOf};
ghost use Rattle.job_stream.specs.Stream.{IsStreamIn};
ghost use Rattle.time_laws.specs.Carried.{CarriesTable, IsCleanByItsTimes};
ghost use Rattle.time_laws.specs.Clock.{IsClock, IsFirstShown};

use clean_laws::laws::stream_is_clean;
use job_laws::programs::{pat_leads_to_the_maps, programs_are_read_back};
use job_laws::streams::slots_are_rows;
use job_programs::laws::programs_of_contents_are_read;
use layer_laws::pes::audio_packet_wherever_it_stands;
use mux_writer::laws::read_as_written;
use picture_heads::laws::head_without_delay_is_read;
use picture_laws::pictures::spelled_picture_has_state;
use picture_laws::written::written_picture_is_read;
use program_reader::laws::one_answer;
use requantiser::laws::version_is_lawful_behind;
use version_source::laws::one_list_of_versions;

/// A job's stream carries the times of its table: its PCRs, its PES headers and its frames say when each unit is due, and when each
/// audio packet is due and gone, and its PES packets are as long as the chosen versions. It needs programs whose videos are bytes.
pub fn stream_carries_its_times()
    ensures { (job : Job) (contents : List (List ℕ)) (programs : List Program) (table : Table) (choice : List ℕ) (slots : SlotList) (stream : List ℕ)
        → IsValidJob job → ArePrograms job contents programs → IsTableOf job programs table → IsValidTable table → Fits table choice
        → IsSlotList table choice slots → IsStreamIn job programs choice slots stream → All (λ program. AreBytes program.video) programs
        → CarriesTable table choice (map (λ program. program.number) job.programs) stream }
{
    programs_are_read_back();
    pat_leads_to_the_maps();
    slots_are_rows();
    audio_packet_wherever_it_stands();
    read_as_written();
    head_without_delay_is_read();
    spelled_picture_has_state();
    written_picture_is_read();
    version_is_lawful_behind();
    one_answer();
    one_list_of_versions();
}

/// A job's stream, read by itself, gives no decoder a fault, with removals by the times that it itself carries. It needs programs
/// whose videos are bytes.
pub fn stream_is_clean_by_its_times()
    ensures { (job : Job) (contents : List (List ℕ)) (programs : List Program) (table : Table) (choice : List ℕ) (slots : SlotList) (stream : List ℕ)
        → IsValidJob job → ArePrograms job contents programs → IsTableOf job programs table → IsValidTable table → Fits table choice
        → IsSlotList table choice slots → IsStreamIn job programs choice slots stream → All (λ program. AreBytes program.video) programs
        → IsCleanByItsTimes job.slot (map (λ program. program.number) job.programs) stream }
{
    stream_carries_its_times();
    stream_is_clean();
    programs_of_contents_are_read();
}

/// Nothing else is carried: PCRs are those of one clock, a clock first shows a time at one tick, and at a tick one time of a PES header.
pub fn carried_times_are_one()
    ensures base { (stream : List PacketRecord) (slot pid base other : ℕ) → IsClock stream slot pid base → IsClock stream slot pid other → base ≡ other }
    ensures tick { (base at other : ℕ) (time : ℤ) → IsFirstShown base time at → IsFirstShown base time other → at ≡ other }
    ensures time { (base at time other : ℕ) → time < 2 ^ 33 → other < 2 ^ 33 → IsFirstShown base (pos (TICKS_PER_TIME_UNIT * time)) at
        → IsFirstShown base (pos (TICKS_PER_TIME_UNIT * other)) at → time ≡ other }
{}
