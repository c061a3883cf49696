ghost use Rattle.std.specs.Prelude.{◌≡◌, ◌*◌, ◌≤◌, ◌<◌, ◌^◌, pos, neg_ℤ, ◌≤ℤ◌};
ghost use Rattle.version_table.specs.Table.{IsValidTable};
ghost use Rattle.buffer_windows.specs.Room.{free_window_slots as free_slots, buffer_room as room};
ghost use Rattle.buffer_windows.specs.Windows.{latest, stop};

use crate::audio::audio_slots;
use crate::buffers::buffer_bytes;
use crate::windows::BufferWindow;
use dual_bounds::constants::MARGIN_TICKS;
use dual_bounds::slots_free_below;
use stream_constants::decoder::HOLD_TICKS;
use stream_constants::packets::PAYLOAD_BYTES;
use version_table::Table;

/// How many slots of so many ticks end in time for what is due then: 7,200 ticks before it, or earlier.
pub fn stop(slot: u32, due: u64) -> u64
    requires { 1 ≤ slot }
    ensures { result ≡ stop slot due }
{
    due.saturating_sub(MARGIN_TICKS) / u64::from(slot)
}

/// The room of a window, in bytes: what its free slots, the elementary buffers that it counts and, behind its tail, MB can give,
/// less the slots of audio. Negative where audio alone is more than fits.
///
/// Times of slots, units and audio packets are found by arithmetic and binary search, so that the count of slots costs nothing.
pub fn room(table: &Table, window: &BufferWindow) -> i64
    requires { IsValidTable table.now }
    ensures value { result ≡ room table.now window.now }
    ensures low { neg_ℤ (pos (2 ^ 48)) ≤ℤ result }
    ensures high { result ≤ℤ pos (2 ^ 48) }
{
    let payload = PAYLOAD_BYTES as u64;
    let given = payload * free_slots(table, window) + buffer_bytes(table, window);
    let taken = payload * audio_slots(table, window);
    given as i64 - taken as i64
}

/// The free slots from the window's first slot up to its tail.
fn free_slots(table: &Table, window: &BufferWindow) -> u64
    requires { IsValidTable table.now }
    ensures value { result ≡ free_slots table.now window.now }
    ensures few { result < 2 ^ 32 }
{
    let below = slots_free_below(table, u64::from(window.first));
    slots_free_below(table, u64::from(window.tail)).saturating_sub(below)
}

/// The latest time at which what goes before the window's first slot is gone.
pub(crate) fn latest(slot: u32, window: &BufferWindow) -> u64
    ensures value { result ≡ latest slot window.now }
    ensures small { result < 2 ^ 64 }
{
    u64::from(window.first.saturating_sub(1)) * u64::from(slot) + HOLD_TICKS
}

/// When the window's first slot begins, in ticks.
pub(crate) fn beginning(slot: u32, window: &BufferWindow) -> u64
    ensures { result ≡ window.now.first * slot }
{
    u64::from(window.first) * u64::from(slot)
}
