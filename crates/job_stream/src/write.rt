ghost use Rattle.std.specs.Prelude.{◌≡◌, ◌<◌, ℕ, List, OnOk, OnErr, IsErrOf};
ghost use Rattle.shelf_io.specs.Causes.{SinkCauses};
ghost use Rattle.shelf_io.specs.Sink.{with_bytes, AddsPrefix};
ghost use Rattle.slot_rule.specs.SlotList.{IsSlotList};
ghost use Rattle.version_table.specs.Table.{IsValidTable};
ghost use Rattle.version_table.specs.Choice.{Fits};
ghost use Rattle.job_report.specs.ValidJob.{IsValidJob};
ghost use Rattle.job_programs.specs.Read.{AreReadPrograms};
ghost use Rattle.program_table.specs.Table.{IsTableOf};
ghost use Rattle.job_stream.specs.Stream.{IsStreamIn};

use crate::layout::layout_of;
use job_report::Job;
use mux_writer::write_stream;
use program_reader::Program;
use shelf_io::{Fault, Sink};
use slot_rule::SlotList;
use slot_rule::laws::slots_name_the_table;
use std::alloc::Global;
use version_source::VersionSource;
use version_source::laws::programs_can_be_sent;
use version_table::{Choice, Table};

/// Writes the stream of a job's programs in the versions that the choice names, in these slots. After a fault a front of it was
/// written. Failed is the sink's own; Missing never comes.
///
/// It needs programs that were read for the job, their table, which is valid, a choice that fits it, and the table's slots under the choice.
pub fn write_job_stream<K: Sink>(
    alloc: Global,
    to: &mut K,
    job: &Job,
    programs: &[Program],
    table: &Table,
    choice: &Choice,
    slots: &SlotList,
) -> Result<(), Fault>
    requires job { IsValidJob job.now }
    requires programs { AreReadPrograms job.now programs.now }
    requires table { IsTableOf job.now programs.now table.now }
    requires valid { IsValidTable table.now }
    requires fits { Fits table.now choice.now }
    requires slots { IsSlotList table.now choice.now slots.now }
    // The sink gets the stream and nothing else; after a fault a front of it.
    ensures ok { OnOk result ((stream : List ℕ) → IsStreamIn job.now programs.now choice.now slots.now stream → K.written to.new ≡ with_bytes (K.written to.old) stream) }
    ensures err { OnErr result ((stream : List ℕ) → IsStreamIn job.now programs.now choice.now slots.now stream → AddsPrefix (K.written to.old) (K.written to.new) stream) }
    // There is one stream.
    ensures one { (stream : List ℕ) × IsStreamIn job.now programs.now choice.now slots.now stream }

    ensures causes { SinkCauses K.faults (IsErrOf result Fault.Failed) (IsErrOf result Fault.Missing) to.old to.new }
    ensures failed_last { IsErrOf result Fault.Failed → K.since_fault to.new ≡ 0 }
    ensures only_failed { K.faults to.old < K.faults to.new → IsErrOf result Fault.Failed }
    ensures keeps { K.keeps to.old to.new }
{
    programs_can_be_sent();
    slots_name_the_table();
    let layout = layout_of(job, programs);
    let Ok(mut pieces) = VersionSource::new(
        alloc,
        programs,
        job.programs.as_slice(),
        choice.as_slice(),
    ) else {
        return Err(Fault::OutOfMemory);
    };
    write_stream(to, &layout, job.slot, slots, &mut pieces)
}
