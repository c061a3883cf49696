ghost use Rattle.std.specs.Prelude.{◌≡◌, ◌<◌, [], ◌∷◌, ◌++◌, List, length};
ghost use Rattle.version_table.specs.declared.limits.TheConstants.{TIME_SLOTS_MOST};
ghost use Rattle.version_table.specs.Table.{IsValidTable};
ghost use Rattle.version_table.specs.Choice.{Fits};
ghost use Rattle.slot_rule.specs.Buffers.{Row};
ghost use Rattle.slot_rule.specs.Schedule.{IsRow};
ghost use Rattle.slot_rule.specs.Private.Runs.{IsAfterSlots, IsRun};
ghost use Rattle.slot_rule.specs.Queues.{queues_of};

use crate::row::Row;
use crate::run_state::RunState;
use crate::timetable::Timetable;
use version_table::Table;

/// What stands in slot `n`, where `run` is what is kept before it; it becomes what is kept after it.
pub fn run_slot(table: &Table, choice: &[u8], run: &mut RunState, n: u32) -> Row
    requires valid { IsValidTable table.now }
    requires fits { Fits table.now choice.now }
    requires slot { n < TIME_SLOTS_MOST }
    requires run { IsAfterSlots table.now choice.now n run.old }
    ensures { (rows : List Row) → length rows ≡ n → IsRun table.now choice.now rows run.old
        → IsRow table.now.slot (length table.now.programs) (queues_of table.now choice.now) rows result
        × IsRun table.now choice.now (rows ++ result ∷ []) run.new }
{
    let start = u64::from(n) * u64::from(table.slot);
    match Timetable::of(table).at(n) {
        Some(reserved) => run.reserve(reserved, start),
        None => run.send_first(table, choice, start),
    }
}
