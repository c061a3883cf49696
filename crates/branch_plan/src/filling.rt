ghost use Rattle.version_table.specs.Table.{IsValidTable};

mod cuts;
mod rooms;
mod stretches;

use crate::corners::{Corner, add_corners, corner_at, ratio};
use cuts::cut_before;
use list_types::OutOfMemory;
use multiplier_search::SlackTree;
use rooms::{
    Buffers, are_open, buffers_of, lower, note_in_time, room_beside, set_below, set_rooms,
};
use std::alloc::Global;
use std::cmp::Reverse;
use stream_constants::decoder::EB_UNIT_BYTES;
pub(crate) use stretches::Stretch;
use stretches::{ahead_of, first_stretch, next_stretch, units_of, whole_stretch};
use version_table::{ProgramRow, Table};

/// What elementary buffers are reckoned to hold.
#[derive(Clone, Copy)]
pub(crate) struct Reckoned {
    /// So many parts of 100 of them.
    pub percent: u64,
    /// Whether no more than what is due within a second, in the versions of the filling before.
    pub sees_seconds: bool,
}

/// A unit with the room that its packets share with those of the others, and the version that it has now.
#[derive(Clone, Copy)]
pub(crate) struct FilledUnit {
    /// Its due time, in ticks.
    pub due: u64,
    /// Its number over all programs in order.
    pub number: usize,
    /// Its first corner, counted over all units.
    pub first: usize,
    /// The corner behind its last.
    pub until: usize,
    /// The corner that it has now.
    pub at: usize,
    /// Its program.
    pub program: usize,
    /// The slots that are free for units up to its due time.
    pub free: i64,
    /// Those of them that stand more than a second before it.
    pub passed: i64,
    /// How many packets of units up to it may be sent by its due time.
    pub above: i64,
    /// How many slots for packets of units stand before the first that it may use.
    pub below: i64,
    /// So many packets of units up to it were sent in time, where it was missed with more.
    pub in_time: i64,
    /// The fewest with which it was missed.
    pub missed: i64,
}

/// A step along a unit's lower hull: more packets, less distortion.
#[derive(Clone, Copy)]
struct Step {
    /// Which unit, in the order of due times.
    unit: usize,
    /// The corner that it leads to.
    corner: usize,
    /// Packets more.
    packets: u32,
    /// Distortion less for a packet.
    ratio: u128,
}

/// A choice that fills the room there is: whole steps, those first that save most for a packet. The room is what is free
/// up to each due time, and from each time on what a second or the elementary buffers hold; where a run shows that it was
/// too much, it is lowered.
#[derive(Drop)]
pub(crate) struct Filling {
    /// The units in the order of due times.
    pub units: Vec<FilledUnit>,
    /// The corners of all units.
    pub corners: Vec<Corner>,
    /// The steps of the open units, those that save most for a packet first.
    steps: Vec<Step>,
    /// The units that are filled.
    open: Stretch,
    /// Of each program how many packets its elementary buffer is reckoned to hold.
    buffers: Buffers,
    /// Whether it is reckoned too that they hold no more than is due within a second.
    sees_seconds: bool,
    /// Whether the room was filled before.
    is_filled: bool,
    /// Of each unit how many packets all units before it may have, with it and those behind it as they were filled at first.
    ahead: Vec<i64>,
}

impl Filling {
    /// The units of a table, each at its smallest version. Fails only for want of memory.
    pub fn new(alloc: Global, table: &Table, reckoned: Reckoned) -> Result<Filling, OutOfMemory>
        requires { IsValidTable table.now }
    {
        let mut units = Vec::new(alloc);
        let mut corners = Vec::new(alloc);
        for (number, program) in table.programs.as_slice().iter().enumerate() {
            add_units(&mut units, &mut corners, program, number)?;
        }
        units.sort_by_key(|unit| unit.due)?;
        let buffers = buffers_of(table, reckoned.percent);
        set_rooms(table, units.as_mut_slice(), buffers);
        let open = whole_stretch(units.len());
        let steps = steps_of(alloc, units.as_slice(), corners.as_slice(), open)?;
        Ok(Filling {
            units,
            corners,
            steps,
            open,
            buffers,
            sees_seconds: reckoned.sees_seconds,
            is_filled: false,
            ahead: Vec::new(alloc),
        })
    }

    /// Opens the first stretch alone, with all units as they are. Fails only for want of memory.
    pub fn open_first(&mut self, alloc: Global) -> Result<(), OutOfMemory> {
        let units = self.units.as_slice();
        self.ahead = ahead_of(alloc, units, self.corners.as_slice())?;
        self.open = first_stretch(units, self.ahead.as_slice());
        self.steps = steps_of(alloc, units, self.corners.as_slice(), self.open)?;
        Ok(())
    }

    /// Closes the open stretch and opens the next one, and tells whether there is one. Fails only for want of memory.
    pub fn open_next(&mut self, alloc: Global) -> Result<bool, OutOfMemory> {
        let units = self.units.as_slice();
        let corners = self.corners.as_slice();
        match next_stretch(units, corners, self.ahead.as_slice(), self.open) {
            Some(next) => {
                self.open = next;
                self.steps = steps_of(alloc, units, corners, next)?;
                Ok(true)
            }
            None => Ok(false),
        }
    }

    /// Opens all units.
    pub fn open_all(&mut self) {
        self.open = whole_stretch(self.units.len());
    }

    /// The due time of the last open unit; of the last slot where nothing is behind it.
    pub fn last_due(&self) -> u64 {
        match self.units.get(self.open.until) {
            Some(unit) => unit.due,
            None => u64::MAX,
        }
    }

    /// Fills the room of the open units anew. Fails only for want of memory.
    pub fn fill(&mut self, alloc: Global) -> Result<(), OutOfMemory> {
        let open = self.open;
        if self.is_filled && self.sees_seconds {
            set_below(
                self.units.as_mut_slice(),
                self.corners.as_slice(),
                open,
                self.buffers,
            );
        }
        self.is_filled = true;
        empty(self.units.as_mut_slice(), open);
        let mut room = room_beside(alloc, self.units.as_slice(), self.corners.as_slice(), open)?;
        fill_units(
            self.units.as_mut_slice(),
            self.steps.as_slice(),
            &mut room,
            open.first,
        );
        Ok(())
    }

    /// The open units.
    pub fn open_units(&self) -> &[FilledUnit] {
        units_of(self.units.as_slice(), self.open)
    }

    /// The distortion of the open units.
    pub fn open_distortion(&self) -> u64 {
        let mut total: u64 = 0;
        for unit in self.open_units() {
            total = total.saturating_add(corner_at(self.corners.as_slice(), unit.at).distortion);
        }
        total
    }

    /// Puts the open units at other corners, in order.
    pub fn put_back(&mut self, kept: &[FilledUnit]) {
        let mut place = self.open.first;
        for unit in kept {
            put_at(self.units.as_mut_slice(), place, unit.at);
            place = place.saturating_add(1);
        }
    }

    /// Lowers the room before a miss, by so many packets where it isn't known how many are sent in time, and takes as many off the
    /// units that are due shortly before it.
    pub fn lower_before(&mut self, due: u64, packets: u32) {
        let units = self.units.as_mut_slice();
        let corners = self.corners.as_slice();
        let less = lower(units, corners, self.open, due, packets);
        let before = cut_before(units, corners, self.open, due, less);
        self.open.sent = self.open.sent.saturating_sub(before);
    }

    /// Notes how many packets are sent in time where there were misses, and raises the room there halfway to the fewest that
    /// were too many.
    pub fn note_in_time(&mut self) {
        note_in_time(
            self.units.as_mut_slice(),
            self.corners.as_slice(),
            self.open,
        );
    }

    /// Whether there is a number somewhere between the packets that were sent in time and those that were missed.
    pub fn is_open(&self) -> bool {
        are_open(self.open_units())
    }
}

/// Adds the units of a program, each at its smallest version.
fn add_units(
    units: &mut Vec<FilledUnit>,
    corners: &mut Vec<Corner>,
    program: &ProgramRow,
    number: usize,
) -> Result<(), OutOfMemory> {
    let bytes = EB_UNIT_BYTES.saturating_mul(u64::from(program.vbv));
    for unit in program.units.as_slice() {
        let first = corners.len();
        add_corners(corners, unit.versions.as_slice(), bytes)?;
        units.push(FilledUnit {
            due: unit.due,
            number: units.len(),
            first,
            until: corners.len(),
            at: first,
            program: number,
            free: 0,
            passed: 0,
            above: 0,
            below: 0,
            in_time: i64::MIN,
            missed: i64::MAX,
        })?;
    }
    Ok(())
}

/// The steps of the open units, those that save most for a packet first.
fn steps_of(
    alloc: Global,
    units: &[FilledUnit],
    corners: &[Corner],
    open: Stretch,
) -> Result<Vec<Step>, OutOfMemory> {
    let mut steps = Vec::new(alloc);
    for place in open.first..open.until {
        if place < units.len() {
            add_steps_of(&mut steps, corners, place, units[place])?;
        }
    }
    steps.sort_by_key(|step| Reverse(step.ratio))?;
    Ok(steps)
}

/// Adds the steps of a unit.
fn add_steps_of(
    steps: &mut Vec<Step>,
    corners: &[Corner],
    number: usize,
    unit: FilledUnit,
) -> Result<(), OutOfMemory> {
    let mut from = corner_at(corners, unit.first);
    for corner in unit.first.saturating_add(1)..unit.until {
        let to = corner_at(corners, corner);
        let packets = to.packets.saturating_sub(from.packets);
        steps.push(Step {
            unit: number,
            corner,
            packets,
            ratio: ratio(from.distortion.saturating_sub(to.distortion), packets),
        })?;
        from = to;
    }
    Ok(())
}

/// Gives each open unit its smallest version.
fn empty(units: &mut [FilledUnit], open: Stretch) {
    for place in open.first..open.until {
        if place < units.len() {
            units[place].at = units[place].first;
        }
    }
}

/// Puts a unit at a corner.
pub(crate) fn put_at(units: &mut [FilledUnit], place: usize, corner: usize) {
    if place < units.len() {
        units[place].at = corner;
    }
}

/// Takes the steps in order, each where the unit has come to it and there is room.
fn fill_units(units: &mut [FilledUnit], steps: &[Step], room: &mut SlackTree, first: usize) {
    for step in steps {
        if step.unit < units.len() && units[step.unit].at.saturating_add(1) == step.corner {
            let packets = i64::from(step.packets);
            let place = step.unit.saturating_sub(first);
            if packets <= room.of(place) {
                room.take(place, packets);
                units[step.unit].at = step.corner;
            }
        }
    }
}
