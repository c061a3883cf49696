ghost use Rattle.version_table.specs.Table.{IsValidTable};

use super::FilledUnit;
use super::stretches::{Stretch, count_by, units_of};
use crate::corners::{Corner, corner_at};
use dual_bounds::{capacity, window_capacity};
use list_types::OutOfMemory;
use multiplier_search::{SlackPlace, SlackTree};
use std::alloc::Global;
use stream_constants::decoder::{EB_UNIT_BYTES, HOLD_TICKS};
use stream_constants::packets::PAYLOAD_BYTES;
use version_table::Table;
use version_table::limits::PROGRAMS_MOST;

/// Packets that are taken off before a miss, at most.
const CUT_MOST: u32 = 4_096;

/// Below every number of slots.
const NOTHING: i64 = i64::MIN / 4;

/// How many packets more each open unit may have beside what the units have now. Fails only for want of memory.
pub(super) fn room_beside(
    alloc: Global,
    units: &[FilledUnit],
    corners: &[Corner],
    open: Stretch,
) -> Result<SlackTree, OutOfMemory> {
    let mut places = Vec::new(alloc);
    let mut least = open.unused;
    for unit in units_of(units, open) {
        places.push(SlackPlace {
            above: unit.above.saturating_sub(open.sent),
            below: unit.below.saturating_sub(open.sent).max(least),
            packets: packets_of(corners, *unit),
        })?;
        least = i64::MIN;
    }
    places.push(SlackPlace {
        above: open.beyond.saturating_sub(open.sent),
        below: NOTHING,
        packets: 0,
    })?;
    SlackTree::new(alloc, places.as_slice())
}

/// A number of packets for each program.
pub(super) type Buffers = [i64; PROGRAMS_MOST];

/// How many packets the elementary buffer of each program is reckoned to hold, filled to so many parts of 100.
pub(super) fn buffers_of(table: &Table, percent: u64) -> Buffers {
    let mut buffers = [0; PROGRAMS_MOST];
    for (number, program) in table.programs.as_slice().iter().enumerate() {
        let bytes = u64::from(program.vbv) * EB_UNIT_BYTES;
        let held = bytes.saturating_mul(percent) / (100 * PAYLOAD_BYTES as u64);
        add_packets(&mut buffers, number, held as i64);
    }
    buffers
}

/// Adds packets to those of a program.
fn add_packets(buffers: &mut Buffers, program: usize, packets: i64) {
    if program < PROGRAMS_MOST {
        buffers[program] = buffers[program].saturating_add(packets);
    }
}

/// Sets what may be sent by each unit's due time, and the slots that stand before those of each, where all of the elementary
/// buffers can be filled.
pub(super) fn set_rooms(table: &Table, units: &mut [FilledUnit], buffers: Buffers)
    requires { IsValidTable table.now }
{
    let held = held_of(buffers, buffers);
    let end = last_due(units);
    let whole = capacity(table, end);
    for place in 0..units.len() {
        let due = units[place].due;
        let free = capacity(table, due);
        units[place].free = free;
        units[place].above = free;
        units[place].passed = whole.saturating_sub(window_capacity(table, due, end));
        units[place].below = below_of(units[place], place, held);
    }
}

/// Sets the slots that stand before those of each open unit: of each program the elementary buffer holds no more than what is due
/// within a second, in the versions that the units have now.
pub(super) fn set_below(
    units: &mut [FilledUnit],
    corners: &[Corner],
    open: Stretch,
    buffers: Buffers,
) {
    let mut counts: Buffers = [0; PROGRAMS_MOST];
    let mut counted = open.first;
    for place in open.first..open.until.min(units.len()) {
        let unit = units[place];
        let until = count_by(units, unit.due.saturating_add(HOLD_TICKS));
        for next in counted..until {
            if next < units.len() {
                let packets = packets_of(corners, units[next]);
                add_packets(&mut counts, units[next].program, packets);
            }
        }
        counted = counted.max(until);
        units[place].below = below_of(unit, place, held_of(counts, buffers));
        let packets = packets_of(corners, unit);
        add_packets(&mut counts, unit.program, 0i64.saturating_sub(packets));
    }
}

/// How many packets elementary buffers hold together, each as many as are sent to it at most.
fn held_of(sent: Buffers, buffers: Buffers) -> i64 {
    let mut held: i64 = 0;
    for program in 0..PROGRAMS_MOST {
        held = held.saturating_add(sent[program].min(buffers[program]));
    }
    held
}

/// The slots before the first that a unit may use, where the elementary buffers hold so many packets.
fn below_of(unit: FilledUnit, place: usize, held: i64) -> i64 {
    let below = unit.passed.max(unit.free.saturating_sub(held));
    if place == 0 { below.max(0) } else { below }
}

/// The due time of the last unit.
fn last_due(units: &[FilledUnit]) -> u64 {
    match units.get(units.len().saturating_sub(1)) {
        Some(unit) => unit.due,
        None => 0,
    }
}

/// Lowers the room of the last unit that is due by a time at which there was a miss, halfway to what is sent in time where that
/// is known, else by so many packets; and tells by how many.
pub(super) fn lower(
    units: &mut [FilledUnit],
    corners: &[Corner],
    open: Stretch,
    due: u64,
    packets: u32,
) -> u32 {
    let sent = sent_by(units, corners, open, due);
    let count = count_by(units, due).min(open.until);
    let place = count.saturating_sub(1);
    if place >= units.len() {
        return packets;
    }
    let unit = units[place];
    let missed = unit.missed.min(sent);
    units[place].missed = missed;
    if unit.in_time < missed && unit.in_time > i64::MIN {
        units[place].above = between(unit.in_time, missed);
        packets_less(sent, units[place].above)
    } else {
        units[place].in_time = i64::MIN;
        let above = sent.saturating_sub(i64::from(packets));
        units[place].above = unit.above.saturating_sub(1).min(above);
        packets
    }
}

/// How many packets more are sent than may be: one at least, and not more than are taken off at once.
fn packets_less(sent: i64, above: i64) -> u32 {
    match u32::try_from(sent.saturating_sub(above)) {
        Ok(less) => less.max(1).min(CUT_MOST),
        Err(_) => 1,
    }
}

/// The middle between what is sent in time and what isn't.
fn between(in_time: i64, missed: i64) -> i64 {
    in_time.saturating_add(missed.saturating_sub(in_time) / 2)
}

/// Notes for each unit that was missed before that what is sent by its due time, or may be, is in time, and raises its room.
pub(super) fn note_in_time(units: &mut [FilledUnit], corners: &[Corner], open: Stretch) {
    let mut sent = open.sent;
    let mut unused = open.unused;
    for place in open.first..open.until.min(units.len()) {
        let unit = units[place];
        unused = unused.max(unit.below.saturating_sub(sent));
        sent = sent.saturating_add(packets_of(corners, unit));
        if unit.missed < i64::MAX {
            let in_time = unit
                .in_time
                .max(sent.saturating_add(unused))
                .max(unit.above);
            let missed = unit.missed.max(in_time.saturating_add(1));
            units[place].in_time = in_time;
            units[place].missed = missed;
            units[place].above = between(in_time, missed);
        }
    }
}

/// Whether there is a number between what is sent in time and what isn't, of some unit that was missed.
pub(super) fn are_open(units: &[FilledUnit]) -> bool {
    for unit in units {
        if unit.missed < i64::MAX && unit.missed.saturating_sub(unit.in_time) > 1 {
            return true;
        }
    }
    false
}

/// The packets that units have which are due by a time, and the slots before them that nothing may use.
fn sent_by(units: &[FilledUnit], corners: &[Corner], open: Stretch, due: u64) -> i64 {
    let mut sent = open.sent;
    let mut unused = open.unused;
    for unit in units_of(units, open) {
        if unit.due <= due {
            unused = unused.max(unit.below.saturating_sub(sent));
            sent = sent.saturating_add(packets_of(corners, *unit));
        }
    }
    sent.saturating_add(unused)
}

/// The packets that a unit has now.
pub(super) fn packets_of(corners: &[Corner], unit: FilledUnit) -> i64 {
    i64::from(corner_at(corners, unit.at).packets)
}
