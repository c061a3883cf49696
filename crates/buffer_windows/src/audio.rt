ghost use Rattle.std.specs.Prelude.{◌≡◌, ◌+◌, ◌-◌, ◌*◌, ◌≤◌, ◌<◌, ◌^◌, length, drop, take, filter, nat_le, ◌&&◌, All, sum_by, ℕ};
ghost use Rattle.std.specs.List.{flat_map};
ghost use Rattle.version_table.specs.Table.{IsValidTable, IsValidAudio, IsValidPacket};
ghost use Rattle.dual_bounds.specs.Packets.{SplitsBy};
ghost use Rattle.buffer_windows.specs.Room.{audio_slots, is_counted, longest_before, slots_taken};
ghost use Rattle.buffer_windows.specs.Windows.{stop};

use crate::rooms::{beginning, latest};
use crate::windows::BufferWindow;
use dual_bounds::constants::MARGIN_TICKS;
use dual_bounds::packets_by;
use list_types::ListOf;
use stream_constants::decoder::AUDIO_BYTES;
use version_table::{AudioPacket, Table};

/// The slots of the window that all audio streams take, at least.
pub(crate) fn audio_slots(table: &Table, window: &BufferWindow) -> u64
    requires { IsValidTable table.now }
    ensures value { result ≡ audio_slots table.now window.now }
    ensures few { result < 2 ^ 32 }
{
    let mut total = 0;
    for program in table.programs.as_slice() {
        total += slots_of(program.audios.as_slice(), window, table.slot);
    }
    total
}

/// The slots of the window that some audio streams take.
fn slots_of(audios: &[ListOf<AudioPacket>], window: &BufferWindow, slot: u32) -> u64
    requires some { 1 ≤ slot }
    requires valid { All (IsValidAudio slot) audios.now }
    requires few { length (flat_map (λ packets. packets) audios.now) < 2 ^ 32 }
    ensures { result ≡ sum_by (slots_taken slot window.now) audios.now }
{
    let mut total = 0;
    for packets in audios {
        total += slots_taken(packets.as_slice(), window, slot);
    }
    total
}

/// The slots of the window that an audio stream takes.
fn slots_taken(packets: &[AudioPacket], window: &BufferWindow, slot: u32) -> u64
    requires some { 1 ≤ slot }
    requires valid { IsValidAudio slot packets.now }
    ensures { result ≡ slots_taken slot window.now packets.now }
{
    let run = counted_run(packets, window, slot);
    let counted = &packets[run.from..run.until];
    (counted.len() - longest_before(counted, window, slot)) as u64
}

/// The packets of an audio stream from one place up to another.
#[derive(Clone, Copy)]
pub(crate) struct PacketRun {
    /// The first place.
    pub from: usize,
    /// The place behind the last one.
    pub until: usize,
}

/// The packets of an audio stream that a window counts, which stand together.
fn counted_run(packets: &[AudioPacket], window: &BufferWindow, slot: u32) -> PacketRun
    requires some { 1 ≤ slot }
    requires valid { IsValidAudio slot packets.now }
    ensures order { result.from ≤ result.until }
    ensures within { result.until ≤ length packets.now }
    ensures counted { filter (is_counted slot window.now) packets.now ≡ take (result.until - result.from) (drop result.from packets.now) }
{
    let from = first_counted(packets, window, slot);
    let until = packets_by(packets, last_counted(slot, window));
    PacketRun {
        from: from.min(until),
        until,
    }
}

/// The place of the first packet of an audio stream that is due once the window's first slot has begun.
fn first_counted(packets: &[AudioPacket], window: &BufferWindow, slot: u32) -> usize
    requires { IsValidAudio slot packets.now }
    ensures start { window.now.first ≡ 0 → result ≡ 0 }
    ensures behind { 0 < window.now.first → SplitsBy (window.now.first * slot) packets.now result }
{
    if window.first == 0 {
        0
    } else {
        packets_by(packets, beginning(slot, window))
    }
}

/// The last due time of packets that the window counts.
fn last_counted(slot: u32, window: &BufferWindow) -> u64
    requires { 1 ≤ slot }
    ensures { (due : ℕ) → (nat_le due window.now.due && nat_le (stop slot due) window.now.tail) ≡ nat_le due result }
{
    let behind = (u64::from(window.tail) + 1) * u64::from(slot) + MARGIN_TICKS;
    window.due.min(behind - 1)
}

/// How long the longest front of these packets is that can go before the window's first slot.
fn longest_before(counted: &[AudioPacket], window: &BufferWindow, slot: u32) -> usize
    requires valid { All (IsValidPacket slot) counted.now }
    ensures value { result ≡ longest_before slot window.now counted.now }
    ensures few { result ≤ length counted.now }
{
    if window.first == 0 {
        return 0;
    }
    let latest = latest(slot, window);
    let mut bytes = 0;
    for (k, packet) in counted.iter().enumerate() {
        bytes += u64::from(packet.bytes);
        if latest < packet.gone || AUDIO_BYTES < bytes {
            return k;
        }
    }
    counted.len()
}
