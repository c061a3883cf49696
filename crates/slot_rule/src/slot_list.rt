ghost use Rattle.std.specs.Prelude.{◌≤◌, ◌<◌, List, IfOk};
ghost use Rattle.version_table.specs.declared.limits.TheConstants.{PROGRAMS_MOST, SLOT_LEAST, SLOT_MOST, TIME_SLOTS_MOST};

use crate::sent::Sent;
use crate::timetable::Timetable;
use list_types::{ListOf, OutOfMemory};

/// The slots of a table under a choice that is scheduled.
#[derive(Drop)]
pub struct SlotList {
    /// The number of slots: the least positive multiple of the timetable's period that is greater than the last slot
    /// in which a packet of a stream is sent; one period where none is.
    pub slots: u32,
    /// What stands in each of the slots.
    pub rows: ListOf<Sent>,
}

impl SlotList {
    ghost use Rattle.slot_rule.specs.Private.IdleSlots.{FillsPeriod};

    /// The slots in `rows`, of which the last is slot `last`, and those after it up to the end of its period, in which
    /// stands what the timetable has there, else a null packet. Fails only for want of memory.
    pub(crate) fn fill(
        timetable: Timetable,
        mut rows: ListOf<Sent>,
        last: u32,
    ) -> Result<SlotList, OutOfMemory>
        requires least { SLOT_LEAST ≤ timetable.slot }
        requires most { timetable.slot ≤ SLOT_MOST }
        requires programs { timetable.programs ≤ PROGRAMS_MOST }
        requires last { last < TIME_SLOTS_MOST }
        ensures { IfOk result (FillsPeriod timetable.slot timetable.programs last rows) }
    {
        let period = timetable.period();
        let slots = (last / period + 1) * period;
        for n in last + 1..slots {
            rows.push(timetable.at(n).unwrap_or(Sent::Null))?;
        }
        Ok(SlotList { slots, rows })
    }
}
