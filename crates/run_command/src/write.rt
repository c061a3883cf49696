ghost use Rattle.std.specs.Prelude.{◌≡◌, OnOk, OnErr, IsErrOf};
ghost use Rattle.shelf_io.specs.Asked.{AsksNothing};
ghost use Rattle.shelf_io.specs.Causes.{WriteCauses};
ghost use Rattle.slot_rule.specs.SlotList.{IsSlotList};
ghost use Rattle.version_table.specs.Choice.{Fits};
ghost use Rattle.version_table.specs.Table.{IsValidTable};
ghost use Rattle.job_report.specs.ValidJob.{IsValidJob};
ghost use Rattle.job_programs.specs.Told.{AreProgramsOn};
ghost use Rattle.program_table.specs.Table.{IsTableOf};
ghost use Rattle.run_command.specs.Private.StreamFile.{HoldsStream, HoldsStreamPart};

use clean_laws::laws::stream_is_clean;
use job_files::JobTable;
use job_laws::programs::programs_are_read_back;
use job_stream::laws::stream_has_slots;
use job_stream::write_job_stream;
use shelf_io::{Fault, Shelf, Writing};
use slot_rule::SlotList;
use std::alloc::Global;
use time_laws::laws::{stream_carries_its_times, stream_is_clean_by_its_times};
use version_table::Choice;

/// Makes the stream of a job in the versions that the choice names, in these slots, the content of a file. After a fault the file
/// holds what it held before, or a front of the stream.
///
/// It needs programs that were read for the job and their valid table, a choice that fits it, and the table's slots under the choice.
pub(crate) fn write_stream_file<K: Shelf>(
    alloc: Global,
    shelf: &mut K,
    name: &str,
    made: &JobTable,
    choice: &Choice,
    slots: &SlotList,
) -> Result<(), Fault>
    requires job { IsValidJob made.now.job }
    requires programs { AreProgramsOn (K.files shelf.now) made.now.job made.now.programs }
    requires table { IsTableOf made.now.job made.now.programs made.now.table }
    requires valid { IsValidTable made.now.table }
    requires fits { Fits made.now.table choice.now }
    requires slots { IsSlotList made.now.table choice.now slots.now }
    ensures ok { OnOk result (HoldsStream (K.files shelf.old) (K.files shelf.new) name.now made.now choice.now slots.now) }
    ensures err { OnErr result (HoldsStreamPart (K.files shelf.old) (K.files shelf.new) name.now made.now choice.now slots.now) }

    ensures asked { AsksNothing (K.asked shelf.old) (K.asked shelf.new) }

    ensures causes { WriteCauses (IsErrOf result Fault.Failed) (IsErrOf result Fault.Missing) (K.counts shelf.old) (K.counts shelf.new) }
    ensures failed_last { IsErrOf result Fault.Failed → K.since_fault shelf.new ≡ 0 }
{
    stream_has_slots();
    stream_is_clean();
    stream_carries_its_times();
    stream_is_clean_by_its_times();
    programs_are_read_back();
    shelf.start(name)?;
    write_job_stream(
        alloc,
        &mut Writing::new(shelf, name),
        &made.job,
        made.programs.as_slice(),
        &made.table,
        choice,
        slots,
    )
}
