ghost use Rattle.std.specs.Prelude.{◌≡◌, ◌*◌, ◌<◌, ◌≤◌, ◌^◌, ◌↔◌, IsTrue, pos, ◌-ℤ◌, ◌<ℤ◌};
ghost use Rattle.version_table.specs.declared.limits.TheConstants.{TIME_SLOTS_MOST};
ghost use Rattle.version_table.specs.Table.{IsValidTable};
ghost use Rattle.impossible_proof.specs.Private.Needs.{AreFew, AreNeeds};
ghost use Rattle.impossible_proof.specs.Private.Scan.{BeginsFirst, EndsFirst, IsSmall, ending_by, room_before};

use crate::edges::{Balance, less_room, room_before, room_by};
use crate::needs::{UnitNeed, needed};
use version_table::Table;

/// When the first unit is due, up to which more is needed than there is room for, counted from some unit on; none where there
/// is none. The needs stand in the order of due times.
pub(crate) fn first_due(table: &Table, needs: &[UnitNeed]) -> Option<u64>
    requires valid { IsValidTable table.now }
    requires needs { AreNeeds table.now needs.now }
    ensures { EndsFirst table.now needs.now result }
{
    let mut balance = Balance::start();
    for need in needs {
        balance = balance.next(room_before(table, need.due), need.packets);
        if balance.is_over(room_by(table, need.due)) {
            return Some(need.due);
        }
    }
    None
}

/// When the first unit is due, from which on more is needed up to a time than there is room for; none where there is none.
pub(crate) fn first_from(table: &Table, needs: &[UnitNeed], due: u64) -> Option<u64>
    requires valid { IsValidTable table.now }
    requires needs { AreNeeds table.now needs.now }
    requires due { due ≤ TIME_SLOTS_MOST * table.now.slot }
    ensures { BeginsFirst table.now needs.now due result }
{
    let end = end_at(table, needs, due);
    let mut total: u64 = 0;
    for need in needs {
        if begins_below(table, total, *need, due, end) {
            return Some(need.due);
        }
        total += u64::from(need.packets);
    }
    None
}

/// What is needed up to a time, less the room up to it.
fn end_at(table: &Table, needs: &[UnitNeed], due: u64) -> i64
    requires valid { IsValidTable table.now }
    requires few { AreFew needs.now }
    requires due { due ≤ TIME_SLOTS_MOST * table.now.slot }
    ensures { result ≡ ending_by table.now needs.now due }
{
    less_room(needed(needs, 0, due), room_by(table, due))
}

/// Whether a unit is due by a time, and what is needed before it, less the room before it, lies below an end.
fn begins_below(table: &Table, before: u64, need: UnitNeed, due: u64, end: i64) -> bool
    requires valid { IsValidTable table.now }
    requires few { before < 2 ^ 41 }
    requires time { need.due ≤ TIME_SLOTS_MOST * table.now.slot }
    ensures { IsTrue result ↔ (need.due ≤ due) × ((pos before -ℤ room_before table.now need.due) <ℤ end) }
{
    need.due <= due && less_room(before, room_before(table, need.due)) < end
}
