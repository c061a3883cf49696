ghost use Rattle.std.specs.Prelude.{◌≡◌, List, map};
ghost use Rattle.version_table.specs.Choice.{Fits};
ghost use Rattle.version_table.specs.Table.{IsValidTable};
ghost use Rattle.slot_rule.specs.declared.row.Row.{Row};
ghost use Rattle.slot_rule.specs.Queues.{queues_of};
ghost use Rattle.slot_rule.specs.Schedule.{IsSchedule};
ghost use Rattle.slot_rule.specs.SlotList.{IsSlotList, sent_of};
ghost use Rattle.tstd_bridge.specs.Clean.{AreClean};

use crate::laws::schedules_are_clean;
use slot_rule::SlotList;
use version_table::{Choice, Table};

/// The slots of a schedule are clean: in the rows that they stand for no decoder of the system target decoder (ISO/IEC
/// 13818-1, 2.4.2) has a fault, whatever PES headers the packets have and whichever allowed removals there are. It does
/// nothing: its contract is the theorem.
pub fn prove_clean(table: &Table, choice: &Choice, schedule: &SlotList)
    requires valid { IsValidTable table.now }
    requires fits { Fits table.now choice.now }
    requires scheduled { IsSlotList table.now choice.now schedule.now }
    ensures clean { (rows : List Row) → schedule.now.rows ≡ map (sent_of (queues_of table.now choice.now)) rows
        → IsSchedule table.now choice.now rows → AreClean table.now choice.now rows }
{
    schedules_are_clean();
}
