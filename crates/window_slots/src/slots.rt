ghost use Rattle.std.specs.Prelude.{◌≡◌, ◌<◌, ◌≤◌, ◌^◌, ◌↔◌, IsTrue};
ghost use Rattle.version_table.specs.declared.limits.TheConstants.{SLOT_LEAST as SHORTEST};
ghost use Rattle.version_table.specs.Table.{IsValidTable};
ghost use Rattle.dual_bounds.specs.Room.{audio_due, free_below, free_slots};
ghost use Rattle.window_slots.specs.LongestSlot.{HasRoom, IsLongestSlot, with_slot};

use dual_bounds::constants::MARGIN_TICKS;
use dual_bounds::window_capacity;
use slot_rule::constants::PERIOD_TICKS;
use stream_constants::decoder::HOLD_TICKS;
use version_table::Table;
use version_table::limits::SLOT_LEAST;

/// The longest slot, in ticks, no longer than the table's own, in which a window of time has room for so many packets; none
/// where it has in none that tables may have. A longer slot is a lower rate: of 40,608,000,000 / slot bits a second.
pub fn longest_slot(table: &Table, from: u64, due: u64, packets: u64) -> Option<u32>
    requires { IsValidTable table.now }
    ensures { IsLongestSlot table.now from due packets result }
{
    let audio = audio_in(table, from, due);
    for shorter in 0..=(table.slot - SLOT_LEAST) {
        let slot = table.slot - shorter;
        if has_room(table, from, due, packets, audio, slot) {
            return Some(slot);
        }
    }
    None
}

/// The audio packets that are due in a window.
fn audio_in(table: &Table, from: u64, due: u64) -> u64
    requires { IsValidTable table.now }
    ensures value { result ≡ audio_due table.now from due }
    ensures few { result < 2 ^ 32 }
{
    let free = slots_free_in(table, table.slot, from, due);
    (free as i64 - window_capacity(table, from, due)) as u64
}

/// Whether a window has room for so many packets beside its audio packets in slots of this many ticks.
fn has_room(table: &Table, from: u64, due: u64, packets: u64, audio: u64, slot: u32) -> bool
    requires valid { IsValidTable table.now }
    requires audio { audio ≡ audio_due table.now from due }
    requires few { audio < 2 ^ 32 }
    requires least { SHORTEST ≤ slot }
    requires most { slot ≤ table.now.slot }
    ensures { IsTrue result ↔ HasRoom table.now from due packets slot }
{
    slots_free_in(table, slot, from, due) >= packets.saturating_add(audio)
}

/// The free slots of a window in slots of this many ticks.
fn slots_free_in(table: &Table, slot: u32, from: u64, due: u64) -> u64
    requires valid { IsValidTable table.now }
    requires least { SHORTEST ≤ slot }
    requires most { slot ≤ table.now.slot }
    ensures value { result ≡ free_slots (with_slot table.now slot) from due }
    ensures few { result < 2 ^ 62 }
{
    let ticks = u64::from(slot);
    let first = from.saturating_sub(HOLD_TICKS).div_ceil(ticks);
    let until = due.saturating_sub(MARGIN_TICKS) / ticks;
    free_below_in(table, slot, until).saturating_sub(free_below_in(table, slot, first))
}

/// The free slots below slot `n` in slots of this many ticks.
fn free_below_in(table: &Table, slot: u32, n: u64) -> u64
    requires valid { IsValidTable table.now }
    requires least { SHORTEST ≤ slot }
    requires most { slot ≤ table.now.slot }
    ensures value { result ≡ free_below (with_slot table.now slot) n }
    ensures few { result ≤ n }
{
    let period = u64::from(PERIOD_TICKS / slot);
    let reserved = 1 + 2 * table.programs.len() as u64;
    n / period * (period - reserved) + (n % period).saturating_sub(reserved)
}
