ghost use Rattle.std.specs.Prelude.{◌≡◌, ◌≢◌, ◌↔◌, IfOk};
ghost use Rattle.version_table.specs.Table.{IsValidTable};
ghost use Rattle.version_table.specs.Choice.{Fits};
ghost use Rattle.slot_rule.specs.declared.sent.Miss.{Miss};
ghost use Rattle.slot_rule.specs.Schedule.{IsFirstMiss};
ghost use Rattle.slot_rule.specs.SlotList.{IsSlotList};

use crate::after::After;
use crate::run_state::RunState;
use crate::sent::Miss;
use crate::slot::run_slot;
use crate::slot_list::SlotList;
use crate::timetable::Timetable;
use list_types::{ListOf, OutOfMemory};
use std::alloc::Global;
use thiserror::Error;
use version_table::limits::TIME_SLOTS_MOST;
use version_table::{Choice, Table};

/// Why there is no schedule.
#[derive(Clone, Copy, Debug, PartialEq, Eq, Error)]
pub enum ScheduleFault {
    /// The choice has this first miss.
    #[error("a packet comes too late")]
    Missed(Miss),
    /// Memory was wanted and not there.
    #[error("out of memory")]
    OutOfMemory,
}

impl From<OutOfMemory> for ScheduleFault {
    ghost use Rattle.std.specs.Prelude.{◌≡◌};
    ghost use Rattle.slot_rule.specs.declared.schedules.ScheduleFault.TheVariants.{OutOfMemory as NoMemory};

    ghost from_gives = { λ _ fault. fault ≡ NoMemory };

    fn from(_e: OutOfMemory) -> ScheduleFault {
        ScheduleFault::OutOfMemory
    }
}

/// The slots of a table under a choice, from slot 0, with what stands in each by the slot rule (ISO/IEC 13818-1, 2.4.2,
/// taken at slots). `Missed` comes exactly where `first_miss` has that miss, unless memory is wanted. Takes memory for
/// the list alone.
pub fn schedule(alloc: Global, table: &Table, choice: &Choice) -> Result<SlotList, ScheduleFault>
    requires valid { IsValidTable table.now }
    requires fits { Fits table.now choice.now }
    ensures slots { IfOk result (IsSlotList table.now choice.now) }
    ensures missed { result ≢ Err ScheduleFault.OutOfMemory
        → (miss : Miss) → (result ≡ Err (ScheduleFault.Missed miss)) ↔ IsFirstMiss table.now choice.now miss }
{
    schedule_of(alloc, table, choice.as_slice())
}

/// The same, of the choice's numbers.
fn schedule_of(alloc: Global, table: &Table, choice: &[u8]) -> Result<SlotList, ScheduleFault>
    requires valid { IsValidTable table.now }
    requires fits { Fits table.now choice.now }
    ensures slots { IfOk result (IsSlotList table.now choice.now) }
    ensures missed { result ≢ Err ScheduleFault.OutOfMemory
        → (miss : Miss) → (result ≡ Err (ScheduleFault.Missed miss)) ↔ IsFirstMiss table.now choice.now miss }
{
    let mut run = RunState::new(table, choice);
    let mut rows = ListOf::new(alloc);
    for n in 0..TIME_SLOTS_MOST as u32 {
        let row = run_slot(table, choice, &mut run, n);
        rows.push(row.sent(run.states.as_slice()))?;
        match run.after(row, table.slot, n) {
            After::Missed(miss) => return Err(ScheduleFault::Missed(miss)),
            After::AllSent => return Ok(SlotList::fill(Timetable::of(table), rows, n)?),
            After::Waiting => {}
        }
    }
    unreachable!()
}
