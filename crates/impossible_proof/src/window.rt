ghost use Rattle.std.specs.Prelude.{◌≡◌, ℕ, List, None, IfOk};
ghost use Rattle.version_table.specs.Choice.{Fits};
ghost use Rattle.version_table.specs.Table.{IsValidTable};
ghost use Rattle.slot_rule.specs.Schedule.{IsScheduled};
ghost use Rattle.impossible_proof.specs.NoRoom.{IsAnswer};
ghost use Rattle.impossible_proof.specs.Private.Needs.{AreNeeds};
ghost use Rattle.impossible_proof.specs.Private.Scan.{IsFirstEnd};

use crate::needs::{UnitNeed, needed, needs_in_order};
use crate::scan::{first_due, first_from};
use dual_bounds::window_capacity;
use list_types::OutOfMemory;
use std::alloc::Global;
use version_table::Table;

/// A window of time, from a unit's due time to a unit's, that has too little room. Times are ticks of 1/27,000,000 s.
#[derive(Clone, Copy, Debug, PartialEq)]
pub struct NoRoom {
    /// The window's beginning.
    pub from: u64,
    /// Its end.
    pub due: u64,
    /// How many packets its units need at least.
    pub needed: u64,
    /// How many it has room for: its free slots less its audio packets.
    pub room: i64,
}

/// The window without room that ends first, and of those the one that begins first; none where each has room. Where there is
/// one, no choice is scheduled. Fails only for want of memory.
pub fn no_room(alloc: Global, table: &Table) -> Result<Option<NoRoom>, OutOfMemory>
    requires { IsValidTable table.now }
    ensures exact { IfOk result (IsAnswer table.now) }
    ensures scheduled { (choice : List ℕ) → Fits table.now choice → IsScheduled table.now choice → IfOk result (λ found. found ≡ None) }
{
    let needs = needs_in_order(alloc, table)?;
    Ok(first_window(table, needs.as_slice()))
}

/// That window, by what the units need.
fn first_window(table: &Table, needs: &[UnitNeed]) -> Option<NoRoom>
    requires valid { IsValidTable table.now }
    requires needs { AreNeeds table.now needs.now }
    ensures { IsAnswer table.now result }
{
    match first_due(table, needs) {
        Some(due) => first_window_to(table, needs, due),
        None => None,
    }
}

/// The window without room that begins first, of those that end at a time, the first end of one.
fn first_window_to(table: &Table, needs: &[UnitNeed], due: u64) -> Option<NoRoom>
    requires valid { IsValidTable table.now }
    requires needs { AreNeeds table.now needs.now }
    requires end { IsFirstEnd table.now needs.now due }
    ensures { IsAnswer table.now result }
{
    match first_from(table, needs, due) {
        Some(from) => Some(NoRoom {
            from,
            due,
            needed: needed(needs, from, due),
            room: window_capacity(table, from, due),
        }),
        None => None,
    }
}
