ghost use Rattle.std.specs.Prelude.{◌≡◌, ◌+◌, ◌*◌, ◌<◌, ◌≤◌, ◌^◌, ◌⊎◌, ◌↔◌, IsTrue, pos, ◌-ℤ◌, ◌≤ℤ◌, ◌<ℤ◌};
ghost use Rattle.version_table.specs.declared.limits.TheConstants.{TIME_SLOTS_MOST};
ghost use Rattle.version_table.specs.Table.{IsValidTable};
ghost use Rattle.dual_bounds.specs.Room.{room};
ghost use Rattle.impossible_proof.specs.Private.Scan.{IsSmall, room_before};

use dual_bounds::{capacity, window_capacity};
use version_table::Table;

/// The room up to a time.
pub(crate) fn room_by(table: &Table, time: u64) -> i64
    requires valid { IsValidTable table.now }
    requires time { time ≤ TIME_SLOTS_MOST * table.now.slot }
    ensures value { result ≡ room table.now 0 time }
    ensures small { IsSmall result }
{
    capacity(table, time)
}

/// The room before a time: what a window that begins there can't use.
pub(crate) fn room_before(table: &Table, time: u64) -> i64
    requires valid { IsValidTable table.now }
    requires time { time ≤ TIME_SLOTS_MOST * table.now.slot }
    ensures value { result ≡ room_before table.now time }
    ensures small { IsSmall result }
{
    room_by(table, time) - room_of_instant(table, time)
}

/// The room of the window that begins and ends at a time.
fn room_of_instant(table: &Table, time: u64) -> i64
    requires valid { IsValidTable table.now }
    requires time { time ≤ TIME_SLOTS_MOST * table.now.slot }
    ensures value { result ≡ room table.now time time }
    ensures small { IsSmall result }
{
    window_capacity(table, time, time)
}

/// What units need in the order of their due times, up to a place.
#[derive(Clone, Copy)]
pub(crate) struct Balance {
    /// The packets that they need together.
    pub total: u64,
    /// The least, over them, of what is needed before one less the room before it.
    pub lowest: i64,
}

impl Balance {
    ghost use Rattle.std.specs.Prelude.{◌≡◌, ◌+◌, ◌<◌, ◌^◌, ◌⊎◌, ◌↔◌, IsTrue, pos, ◌-ℤ◌, ◌≤ℤ◌, ◌<ℤ◌};
    ghost use Rattle.impossible_proof.specs.Private.Scan.{IsSmall};

    /// Before the first unit.
    pub(crate) fn start() -> Balance
        ensures total { result.total ≡ 0 }
        ensures lowest { pos (2 ^ 62) ≤ℤ result.lowest }
    {
        Balance {
            total: 0,
            lowest: i64::MAX,
        }
    }

    /// With one more unit, before which there is this room.
    pub(crate) fn next(self, room: i64, packets: u32) -> Balance
        requires few { self.total < 2 ^ 40 }
        requires small { IsSmall room }
        ensures total { result.total ≡ self.total + packets }
        ensures at_most_before { result.lowest ≤ℤ self.lowest }
        ensures at_most_own { result.lowest ≤ℤ (pos self.total -ℤ room) }
        ensures one { (result.lowest ≡ self.lowest) ⊎ (result.lowest ≡ (pos self.total -ℤ room)) }
    {
        Balance {
            total: self.total + u64::from(packets),
            lowest: lesser(self.lowest, less_room(self.total, room)),
        }
    }

    /// Whether more is needed than this room, counted from the place where least was needed before.
    pub(crate) fn is_over(self, room: i64) -> bool
        requires few { self.total < 2 ^ 41 }
        requires small { IsSmall room }
        ensures { IsTrue result ↔ (self.lowest <ℤ (pos self.total -ℤ room)) }
    {
        self.lowest < less_room(self.total, room)
    }
}

/// Packets less a room.
pub(crate) fn less_room(packets: u64, room: i64) -> i64
    requires few { packets < 2 ^ 41 }
    requires small { IsSmall room }
    ensures { result ≡ (pos packets -ℤ room) }
{
    packets as i64 - room
}

/// The lesser of two numbers.
fn lesser(first: i64, second: i64) -> i64
    ensures first { result ≤ℤ first }
    ensures second { result ≤ℤ second }
    ensures one { (result ≡ first) ⊎ (result ≡ second) }
{
    if first < second { first } else { second }
}
