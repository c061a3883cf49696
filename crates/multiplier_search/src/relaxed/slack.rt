ghost use Rattle.version_table.specs.Table.{IsValidTable};

use super::hull::MixedUnit;
use super::slack_tree::{SlackPlace, SlackTree};
use buffer_windows::stop;
use dual_bounds::{capacity, slots_free_below, window_capacity};
use list_types::OutOfMemory;
use std::alloc::Global;
use stream_constants::decoder::{EB_UNIT_BYTES, HOLD_TICKS};
use stream_constants::packets::PAYLOAD_BYTES;
use version_table::Table;

/// How many packets more each unit may have beside what is taken: what is free up to each due time, and what stands before
/// the first slot that each unit may use.
#[derive(Drop)]
pub struct Slack {
    /// By unit: the free slots up to its due time, and those before its own.
    tree: SlackTree,
    /// Whether the first unit may use all slots.
    from_start: bool,
}

/// Slack that counts what elementary buffers hold.
#[derive(Drop)]
pub struct HeldSlack {
    /// The slack.
    pub slack: Slack,
    /// By unit: whether the buffers hold less than a second does.
    pub held: Vec<bool>,
}

/// Units next to each other that fill their room, and what a packet of it is worth.
#[derive(Clone, Copy)]
pub struct Interval {
    /// The first unit.
    pub first: usize,
    /// The last unit.
    pub last: usize,
    /// The price of a packet, in 1/256 of a distortion.
    pub price: u64,
}

impl Slack {
    /// The slack beside the smallest versions of these units. Fails only for want of memory.
    pub fn new(alloc: Global, table: &Table, units: &[MixedUnit]) -> Result<Slack, OutOfMemory>
        requires { IsValidTable table.now }
    {
        let end = last_due(units);
        let whole = capacity(table, end);
        let mut places = Vec::new(alloc);
        for unit in units {
            places.push(SlackPlace {
                above: capacity(table, unit.due),
                below: whole.saturating_sub(window_capacity(table, unit.due, end)),
                packets: i64::from(unit.packets),
            })?;
        }
        let from_start = starts_at_0(places.as_mut_slice());
        let tree = SlackTree::new(alloc, places.as_slice())?;
        Ok(Slack { tree, from_start })
    }

    /// The slack beside the smallest versions of these units, where before a unit's slots no more is sent than its elementary buffers
    /// hold. Fails only for want of memory.
    pub fn held(alloc: Global, table: &Table, units: &[MixedUnit]) -> Result<HeldSlack, OutOfMemory>
        requires { IsValidTable table.now }
    {
        let end = last_due(units);
        let whole = capacity(table, end);
        let buffers = buffer_packets(table);
        let mut places = Vec::new(alloc);
        let mut held = Vec::new(alloc);
        for unit in units {
            let second = whole.saturating_sub(window_capacity(table, unit.due, end));
            let buffered = below_buffers(table, units, buffers, unit.due);
            places.push(SlackPlace {
                above: capacity(table, unit.due),
                below: second.max(buffered),
                packets: i64::from(unit.packets),
            })?;
            held.push(second < buffered)?;
        }
        let from_start = starts_at_0(places.as_mut_slice());
        let tree = SlackTree::new(alloc, places.as_slice())?;
        Ok(HeldSlack {
            slack: Slack { tree, from_start },
            held,
        })
    }

    /// The same slack. Fails only for want of memory.
    pub fn copied(&self, alloc: Global) -> Result<Slack, OutOfMemory> {
        Ok(Slack {
            tree: self.tree.copied(alloc)?,
            from_start: self.from_start,
        })
    }

    /// How many packets more a unit may have; negative where there is no room for what is taken.
    pub fn of(&self, unit: usize) -> i64 {
        self.tree.of(unit)
    }

    /// Takes packets for a unit.
    pub fn take(&mut self, unit: usize, packets: i64) {
        self.tree.take(unit, packets);
    }

    /// The greatest interval round a unit that has the unit's slack.
    pub fn interval(&self, unit: usize, price: u64) -> Interval {
        Interval {
            first: self.tree.first_beside(unit),
            last: self.tree.last_beside(unit),
            price,
        }
    }

    /// The due time of the first packets that an interval's window charges.
    pub fn start_of(&self, interval: Interval, units: &[MixedUnit]) -> u64 {
        if interval.first == 0 && self.from_start {
            0
        } else {
            due_at(units, interval.first)
        }
    }
}

/// The packets that the elementary buffers of all programs hold.
fn buffer_packets(table: &Table) -> i64 {
    let mut units: u64 = 0;
    for program in table.programs.as_slice() {
        units = units.saturating_add(u64::from(program.vbv));
    }
    (units.min(1 << 20) * EB_UNIT_BYTES / PAYLOAD_BYTES as u64) as i64
}

/// The packets that are sent before the slot in which a unit is due at least, so that no more than the buffers hold is left: half a
/// packet is lost for each unit that may be held.
fn below_buffers(table: &Table, units: &[MixedUnit], buffers: i64, due: u64) -> i64
    requires { IsValidTable table.now }
{
    let before = due.saturating_sub(1);
    let slot = u64::from(table.slot);
    let begun = before / slot;
    let latest = begun
        .saturating_sub(1)
        .saturating_mul(slot)
        .saturating_add(HOLD_TICKS);
    let first = units.partition_point(|unit| unit.due < due);
    let behind = units.partition_point(|unit| unit.due <= latest);
    let lost = (behind.saturating_sub(first) / 2) as i64;
    let audio = (slots_free_below(table, stop(table.slot, before)) as i64).saturating_sub(capacity(
        table, before,
    ));
    (slots_free_below(table, begun) as i64)
        .saturating_sub(buffers)
        .saturating_sub(lost)
        .saturating_sub(audio)
}

/// The due time of a unit.
pub fn due_at(units: &[MixedUnit], place: usize) -> u64 {
    match units.get(place) {
        Some(unit) => unit.due,
        None => 0,
    }
}

/// The due time of the last unit.
fn last_due(units: &[MixedUnit]) -> u64 {
    due_at(units, units.len().saturating_sub(1))
}

/// Whether no slot stands before those of the first unit; from the start on none is free before slot 0.
fn starts_at_0(places: &mut [SlackPlace]) -> bool {
    if places.len() == 0 {
        return true;
    }
    let below = places[0].below;
    places[0].below = below.max(0);
    below <= 0
}
