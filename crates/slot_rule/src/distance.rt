ghost use Rattle.std.specs.Prelude.{◌≡◌, ℕ, ◌≤◌, fold, map, max};
ghost use Rattle.std.specs.List.{flat_map};
ghost use Rattle.version_table.specs.Table.{IsValidTable, audio_packets_of, greatest, units_of};
ghost use Rattle.slot_rule.specs.SlotRun.{latest_due, slots_apart};

use crate::checkpoints::{CHECKPOINTS_MOST, SLOTS_APART};
use list_types::ListOf;
use version_table::{AudioPacket, Table, Unit};

/// Slots from one checkpoint of a table's runs to the next.
pub fn slots_apart(table: &Table) -> u32
    requires { IsValidTable table.now }
    ensures { result ≡ slots_apart table.now }
{
    let last = latest_due(table).saturating_sub(1) / u64::from(table.slot);
    SLOTS_APART * (last as u32 / (CHECKPOINTS_MOST as u32 * SLOTS_APART) + 1)
}

/// The latest due time of the packets of a table; 0 where it has none.
fn latest_due(table: &Table) -> u64
    ensures { result ≡ latest_due table.now }
{
    latest_of_units(table).max(latest_of_audio(table))
}

/// The latest due time of the units of a table.
fn latest_of_units(table: &Table) -> u64
    ensures { result ≡ greatest (map (λ unit. unit.due) (units_of table.now)) }
{
    let mut latest = 0;
    for program in table.programs.as_slice() {
        latest = later_unit(latest, program.units.as_slice());
    }
    latest
}

/// The latest due time of the audio packets of a table.
fn latest_of_audio(table: &Table) -> u64
    ensures { result ≡ greatest (map (λ packet. packet.due) (audio_packets_of table.now)) }
{
    let mut latest = 0;
    for program in table.programs.as_slice() {
        latest = later_audio(latest, program.audios.as_slice());
    }
    latest
}

/// A time, or the latest due time of these units where it is later.
fn later_unit(time: u64, units: &[Unit]) -> u64
    ensures { result ≡ fold max time (map (λ unit. unit.due) units.now) }
{
    let mut latest = time;
    for unit in units {
        latest = latest.max(unit.due);
    }
    latest
}

/// A time, or the latest due time of the packets of these audio streams where it is later.
fn later_audio(time: u64, audios: &[ListOf<AudioPacket>]) -> u64
    ensures { result ≡ fold max time (map (λ packet. packet.due) (flat_map (λ packets. packets) audios.now)) }
{
    let mut latest = time;
    for packets in audios {
        latest = later_packet(latest, packets.as_slice());
    }
    latest
}

/// A time, or the latest due time of these packets where it is later.
fn later_packet(time: u64, packets: &[AudioPacket]) -> u64
    ensures { result ≡ fold max time (map (λ packet. packet.due) packets.now) }
{
    let mut latest = time;
    for packet in packets {
        latest = latest.max(packet.due);
    }
    latest
}
