ghost use Rattle.std.specs.Prelude.{◌≡◌, ◌↔◌, Some, IsNone};
ghost use Rattle.version_table.specs.Table.{IsValidTable};
ghost use Rattle.version_table.specs.Choice.{Fits};
ghost use Rattle.slot_rule.specs.declared.sent.Miss.{Miss};
ghost use Rattle.slot_rule.specs.Schedule.{IsScheduled, IsFirstMiss};

use crate::after::After;
use crate::run_state::RunState;
use crate::sent::Miss;
use crate::slots::run_slots;
use version_table::limits::TIME_SLOTS_MOST;
use version_table::{Choice, Table};

/// The first miss of a table under a choice; none where the choice is scheduled. Takes no memory.
pub fn first_miss(table: &Table, choice: &Choice) -> Option<Miss>
    requires valid { IsValidTable table.now }
    requires fits { Fits table.now choice.now }
    ensures scheduled { IsNone result ↔ IsScheduled table.now choice.now }
    ensures missed { (miss : Miss) → (result ≡ Some miss) ↔ IsFirstMiss table.now choice.now miss }
{
    first_miss_of(table, choice.as_slice())
}

/// The same, where the choice stands in a list of another kind.
pub fn first_miss_of(table: &Table, choice: &[u8]) -> Option<Miss>
    requires valid { IsValidTable table.now }
    requires fits { Fits table.now choice.now }
    ensures scheduled { IsNone result ↔ IsScheduled table.now choice.now }
    ensures missed { (miss : Miss) → (result ≡ Some miss) ↔ IsFirstMiss table.now choice.now miss }
{
    let mut run = RunState::new(table, choice);
    match run_slots(table, choice, &mut run, 0, TIME_SLOTS_MOST as u32) {
        After::Missed(miss) => Some(miss),
        After::AllSent => None,
        After::Waiting => None,
    }
}
