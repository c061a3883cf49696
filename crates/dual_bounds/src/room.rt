ghost use Rattle.std.specs.Prelude.{◌≡◌, ◌+◌, ◌<◌, ◌≤◌, ◌^◌, length, All};
ghost use Rattle.std.specs.List.{flat_map};
ghost use Rattle.version_table.specs.Table.{IsValidTable, IsValidAudio};
ghost use Rattle.dual_bounds.specs.Packets.{DuesStay, SplitsBy};
ghost use Rattle.dual_bounds.specs.Private.Counts.{SplitsBefore, audio_within};
ghost use Rattle.dual_bounds.specs.Room.{audio_due, free_below, free_slots, room, slot_capacity};

use crate::constants::MARGIN_TICKS;
use list_types::ListOf;
use slot_rule::constants::PERIOD_TICKS;
use stream_constants::decoder::HOLD_TICKS;
use version_table::{AudioPacket, Table};

/// The room from the start up to a time: the free slots that end 7,200 ticks before it or earlier, less the audio packets
/// that are due by it. Negative where audio alone is more than fits.
pub fn capacity(table: &Table, due: u64) -> i64
    requires { IsValidTable table.now }
    ensures { result ≡ slot_capacity table.now due }
{
    window_capacity(table, 0, due)
}

/// The room of a window of time: the free slots that begin no earlier than a second before `from` and end 7,200 ticks
/// before `due` or earlier, less the audio packets that are due from `from` to `due`.
pub fn window_capacity(table: &Table, from: u64, due: u64) -> i64
    requires { IsValidTable table.now }
    ensures { result ≡ room table.now from due }
{
    slots_free(table, from, due) as i64 - packets_due(table, from, due) as i64
}

/// The free slots of a window.
fn slots_free(table: &Table, from: u64, due: u64) -> u64
    requires { IsValidTable table.now }
    ensures value { result ≡ free_slots table.now from due }
    ensures few { result < 2 ^ 62 }
{
    let slot = u64::from(table.slot);
    let first = from.saturating_sub(HOLD_TICKS).div_ceil(slot);
    let until = due.saturating_sub(MARGIN_TICKS) / slot;
    slots_free_below(table, until).saturating_sub(slots_free_below(table, first))
}

/// The free slots below slot `n`: in each period of the timetable those behind the reserved ones.
pub fn slots_free_below(table: &Table, n: u64) -> u64
    requires { IsValidTable table.now }
    ensures value { result ≡ free_below table.now n }
    ensures few { result ≤ n }
{
    let period = u64::from(PERIOD_TICKS / table.slot);
    let reserved = 1 + 2 * table.programs.len() as u64;
    n / period * (period - reserved) + (n % period).saturating_sub(reserved)
}

/// The audio packets that are due in a window.
fn packets_due(table: &Table, from: u64, due: u64) -> u64
    requires { IsValidTable table.now }
    ensures value { result ≡ audio_due table.now from due }
    ensures few { result < 2 ^ 32 }
{
    let mut total = 0;
    for program in table.programs.as_slice() {
        total += packets_due_of(program.audios.as_slice(), from, due, table.slot);
    }
    total
}

/// The packets of some audio streams that are due in a window.
fn packets_due_of(audios: &[ListOf<AudioPacket>], from: u64, due: u64, slot: u32) -> u64
    requires valid { All (IsValidAudio slot) audios.now }
    requires few { length (flat_map (λ packets. packets) audios.now) < 2 ^ 32 }
    ensures { result ≡ audio_within from due (flat_map (λ packets. packets) audios.now) }
{
    let mut total = 0;
    for packets in audios {
        total += packets_within(packets.as_slice(), from, due);
    }
    total
}

/// The packets of an audio stream that are due in a window.
fn packets_within(packets: &[AudioPacket], from: u64, due: u64) -> u64
    requires { DuesStay packets.now }
    ensures { result ≡ audio_within from due packets.now }
{
    packets_by(packets, due).saturating_sub(packets_before(packets, from)) as u64
}

/// How many packets of an audio stream are due by a time: the first ones.
#[inline]
pub fn packets_by(packets: &[AudioPacket], time: u64) -> usize
    requires { DuesStay packets.now }
    ensures { SplitsBy time packets.now result }
{
    packets.partition_point(|packet| packet.due <= time)
}

/// How many packets of an audio stream are due before a time.
fn packets_before(packets: &[AudioPacket], time: u64) -> usize
    requires { DuesStay packets.now }
    ensures { SplitsBefore time packets.now result }
{
    packets.partition_point(|packet| packet.due < time)
}
