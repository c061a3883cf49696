use buffer_windows::constants::BYTE_PARTS;
use buffer_windows::{BufferWindow, Charged, Prices, charge_of, stop};
use dual_bounds::Fixed;
use list_types::OutOfMemory;
use std::alloc::Global;
use stream_constants::decoder::EB_UNIT_BYTES;
use stream_constants::packets::PAYLOAD_BYTES;
use version_table::{Table, Unit};

/// A version that may be chosen.
#[derive(Clone, Copy)]
struct PricedVersion {
    /// Its bytes.
    bytes: u32,
    /// Its bytes in whole packets.
    in_packets: u32,
    /// Its distortion.
    distortion: u64,
}

/// A coded picture, with what windows charge for it.
#[derive(Clone, Copy)]
pub struct PricedUnit {
    /// Its due time, in ticks.
    pub due: u64,
    /// Its program's number.
    program: usize,
    /// Its first version that may be chosen, counted over all units.
    first: usize,
    /// The version behind its last.
    until: usize,
    /// What its bytes are charged by all windows.
    prices: Prices,
}

/// The units of a table in the order of due times, with what windows charge for them.
#[derive(Drop)]
pub struct PricedTable {
    /// Ticks of a slot.
    slot: u32,
    /// The units.
    pub units: Vec<PricedUnit>,
    /// The versions of all units.
    versions: Vec<PricedVersion>,
}

impl PricedTable {
    /// The units of a table where these versions are fixed, and these windows charge. Fails only for want of memory.
    pub fn new(
        alloc: Global,
        table: &Table,
        fixed: &Fixed,
        windows: &[BufferWindow],
    ) -> Result<PricedTable, OutOfMemory> {
        let mut units = Vec::new(alloc);
        let mut versions = Vec::new(alloc);
        for (number, program) in table.programs.as_slice().iter().enumerate() {
            let most = EB_UNIT_BYTES.saturating_mul(u64::from(program.vbv));
            for unit in program.units.as_slice() {
                let entry = entry_at(fixed.as_slice(), units.len());
                let first = versions.len();
                add_versions(&mut versions, unit, entry, most)?;
                units.push(PricedUnit {
                    due: unit.due,
                    program: number,
                    first,
                    until: versions.len(),
                    prices: Prices::default(),
                })?;
            }
        }
        units.sort_by_key(|unit| unit.due)?;
        let mut priced = PricedTable {
            slot: table.slot,
            units,
            versions,
        };
        let nothing = BufferWindow::default();
        for window in windows {
            priced.change(nothing, *window);
        }
        Ok(priced)
    }

    /// What the units cost more at least where a window is changed for another, in 1/47,104 of a distortion.
    pub fn gain(&self, old: BufferWindow, new: BufferWindow) -> i128 {
        let mut gained: i128 = 0;
        for unit in self.changed(old, new) {
            let prices = self.with_change(*unit, old, new);
            if prices != unit.prices {
                let more = self.least_cost(*unit, prices);
                let before = self.least_cost(*unit, unit.prices);
                gained = gained.saturating_add(more).saturating_sub(before);
            }
        }
        gained
    }

    /// Changes a window for another.
    pub fn change(&mut self, old: BufferWindow, new: BufferWindow) {
        let from = self.place_behind(begins(self.slot, old, new));
        let until = self.place_behind(old.due.max(new.due));
        for place in from..until {
            if place < self.units.len() {
                let unit = self.units.as_slice()[place];
                let prices = self.with_change(unit, old, new);
                self.units.as_mut_slice()[place] = PricedUnit { prices, ..unit };
            }
        }
    }

    /// The units that are due by a time, at most so many, the last ones.
    pub fn last_by(&self, time: u64, most: usize) -> &[PricedUnit] {
        let until = self.place_behind(time);
        units_between(self.units.as_slice(), until.saturating_sub(most), until)
    }

    /// The units whose price a change may change.
    fn changed(&self, old: BufferWindow, new: BufferWindow) -> &[PricedUnit] {
        let from = self.place_behind(begins(self.slot, old, new));
        let until = self.place_behind(old.due.max(new.due));
        units_between(self.units.as_slice(), from, until)
    }

    /// The first unit that is due later than a time.
    fn place_behind(&self, time: u64) -> usize {
        self.units
            .as_slice()
            .partition_point(|unit| unit.due <= time)
    }

    /// What a unit is charged where a window is changed for another.
    fn with_change(&self, unit: PricedUnit, old: BufferWindow, new: BufferWindow) -> Prices {
        let less = less(unit.prices, old.lambda, self.charge(unit, old));
        more(less, new.lambda, self.charge(unit, new))
    }

    /// How a window charges for a unit.
    fn charge(&self, unit: PricedUnit, window: BufferWindow) -> Charged {
        let slot = self.slot.max(1);
        let stops = stop(slot, unit.due);
        charge_of(slot, &window, unit.program.min(7), unit.due, stops)
    }

    /// What a unit costs at least at these prices.
    fn least_cost(&self, unit: PricedUnit, prices: Prices) -> i128 {
        let mut least: i128 = i128::MAX;
        for k in unit.first..unit.until {
            if k < self.versions.len() {
                least = least.min(cost(self.versions.as_slice()[k], prices));
            }
        }
        least
    }
}

/// Where a change of a window for another begins, in ticks.
fn begins(slot: u32, old: BufferWindow, new: BufferWindow) -> u64 {
    if old.first == new.first
        && old.due == new.due
        && old.lambda == new.lambda
        && old.programs == new.programs
    {
        let tail = u64::from(old.tail.min(new.tail));
        return tail.saturating_mul(u64::from(slot));
    }
    let first = if old.lambda == 0 {
        new.first
    } else {
        old.first.min(new.first)
    };
    if first == 0 {
        return 0;
    }
    u64::from(first).saturating_mul(u64::from(slot))
}

/// The units from one place up to another.
fn units_between(units: &[PricedUnit], from: usize, until: usize) -> &[PricedUnit] {
    let until = until.min(units.len());
    &units[from.min(until)..until]
}

/// What is fixed of a unit.
fn entry_at(fixed: &[Option<u8>], number: usize) -> Option<u8> {
    if number < fixed.len() {
        fixed[number]
    } else {
        None
    }
}

/// Adds the versions of a unit that may be chosen.
fn add_versions(
    versions: &mut Vec<PricedVersion>,
    unit: &Unit,
    fixed: Option<u8>,
    most: u64,
) -> Result<(), OutOfMemory> {
    for (k, version) in unit.versions.as_slice().iter().enumerate() {
        let left = match fixed {
            Some(own) => usize::from(own) == k,
            None => u64::from(version.bytes) <= most,
        };
        if left {
            let packets = version.bytes.div_ceil(PAYLOAD_BYTES as u32);
            versions.push(PricedVersion {
                bytes: version.bytes,
                in_packets: packets.saturating_mul(PAYLOAD_BYTES as u32),
                distortion: version.distortion,
            })?;
        }
    }
    Ok(())
}

/// What a version costs at these prices.
fn cost(version: PricedVersion, prices: Prices) -> i128 {
    let distortion = i128::from(BYTE_PARTS).saturating_mul(i128::from(version.distortion));
    let bytes = i128::from(prices.bytes).saturating_mul(i128::from(version.bytes));
    let packets = i128::from(prices.packets).saturating_mul(i128::from(version.in_packets));
    distortion.saturating_add(bytes).saturating_add(packets)
}

/// Prices with one more.
fn more(prices: Prices, lambda: u64, charged: Charged) -> Prices {
    match charged {
        Charged::Nothing => prices,
        Charged::Bytes => Prices {
            bytes: prices.bytes.saturating_add(lambda),
            packets: prices.packets,
        },
        Charged::Packets => Prices {
            bytes: prices.bytes,
            packets: prices.packets.saturating_add(lambda),
        },
    }
}

/// Prices without one.
fn less(prices: Prices, lambda: u64, charged: Charged) -> Prices {
    match charged {
        Charged::Nothing => prices,
        Charged::Bytes => Prices {
            bytes: prices.bytes.saturating_sub(lambda),
            packets: prices.packets,
        },
        Charged::Packets => Prices {
            bytes: prices.bytes,
            packets: prices.packets.saturating_sub(lambda),
        },
    }
}
