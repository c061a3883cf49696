ghost use Rattle.std.specs.Prelude.{◌≡◌, ◌↔◌, IfOk, IsTrue};
ghost use Rattle.slot_rule.specs.Schedule.{IsScheduled};
ghost use Rattle.version_table.specs.Choice.{Fits};
ghost use Rattle.version_table.specs.Table.{IsValidTable};
ghost use Rattle.impossible_command.specs.Private.Judged.{report_of};
ghost use Rattle.impossible_command.specs.Verdict.{IsVerdict};

use impossible_proof::laws::nothing_is_scheduled;
use impossible_proof::{NoRoom, no_room};
use job_report::Report;
use list_types::OutOfMemory;
use slot_rule::first_miss;
use std::alloc::Global;
use version_table::{Choice, Table, smallest, smallest_choice_is_one};

/// What is shown of a table: that its smallest choice is scheduled, else that no choice is, by the first window of time that has
/// too little room for the fewest packets, else neither. Fails only for want of memory.
pub fn verdict(alloc: Global, table: &Table) -> Result<Report, OutOfMemory>
    requires { IsValidTable table.now }
    ensures { IfOk result (IsVerdict table.now) }
{
    smallest_choice_is_one();
    let choice = smallest(alloc, table)?;
    if is_scheduled(table, &choice) {
        return Ok(Report::ScheduledVerdict);
    }
    nothing_is_scheduled();
    let found = no_room(alloc, table)?;
    Ok(verdict_by(found))
}

/// Whether a choice is scheduled.
fn is_scheduled(table: &Table, choice: &Choice) -> bool
    requires valid { IsValidTable table.now }
    requires fits { Fits table.now choice.now }
    ensures { IsTrue result ↔ IsScheduled table.now choice.now }
{
    first_miss(table, choice).is_none()
}

/// The verdict on a table whose smallest choice isn't scheduled, by its first window without room.
fn verdict_by(found: Option<NoRoom>) -> Report
    ensures { result ≡ report_of found }
{
    match found {
        Some(window) => Report::NoRoomVerdict {
            due: window.due,
            from: window.from,
            needed: window.needed,
            room: window.room,
        },
        None => Report::OpenVerdict,
    }
}
