use list_types::OutOfMemory;
use std::alloc::Global;
use std::cmp::Reverse;
use stream_constants::decoder::EB_UNIT_BYTES;
use stream_constants::packets::PAYLOAD_BYTES;
use version_table::limits::VERSIONS_MOST;
use version_table::{ProgramRow, Table, Unit, Version};

/// What a ratio of distortion to packets is multiplied by, so that it is a whole number to more than the 1/256 of prices.
const RATIO_PARTS: u64 = 1 << 15;

/// A version of a unit at which its lower hull turns.
#[derive(Clone, Copy, Default)]
pub struct Corner {
    /// Its packets.
    pub packets: u32,
    /// Its distortion.
    pub distortion: u64,
}

/// A coded picture whose versions may be mixed.
#[derive(Clone, Copy)]
pub struct MixedUnit {
    /// Its due time, in ticks.
    pub due: u64,
    /// The packets of its smallest version.
    pub packets: u32,
    /// Its number over all programs in order.
    pub number: usize,
    /// Its first version, counted over all units.
    versions: usize,
    /// Its first corner, counted over all units.
    first: usize,
    /// The corner behind its last.
    until: usize,
}

/// A step along a unit's lower hull: more packets, less distortion.
#[derive(Clone, Copy, Default)]
pub struct HullStep {
    /// Which unit, in the order of due times.
    pub unit: usize,
    /// Packets more.
    pub packets: u32,
    /// Distortion less.
    pub saved: u64,
    /// Distortion less for a packet, in parts.
    ratio: u64,
}

/// The units of a table in the order of due times, and the steps along their lower hulls, those that save most for a packet first.
#[derive(Drop)]
pub struct MixedTable {
    /// The units.
    pub units: Vec<MixedUnit>,
    /// The steps of all units.
    pub steps: Vec<HullStep>,
    /// The packets of all versions, unit by unit over all programs.
    packets: Vec<u32>,
}

/// Which versions are mixed.
#[derive(Clone, Copy)]
enum VersionLimit {
    /// All.
    None,
    /// Those that their program's elementary buffer holds.
    Buffer,
}

impl VersionLimit {
    /// The bytes that a version of a program has at most.
    fn bytes(self, program: &ProgramRow) -> u64 {
        match self {
            VersionLimit::None => u64::MAX,
            VersionLimit::Buffer => EB_UNIT_BYTES.saturating_mul(u64::from(program.vbv)),
        }
    }
}

impl MixedTable {
    /// The units and steps of a table. Fails only for want of memory.
    pub fn new(alloc: Global, table: &Table) -> Result<MixedTable, OutOfMemory> {
        MixedTable::of_versions(alloc, table, VersionLimit::None)
    }

    /// The units and steps of a table, where versions that their program's elementary buffer doesn't hold are left out. Fails
    /// only for want of memory.
    pub fn held(alloc: Global, table: &Table) -> Result<MixedTable, OutOfMemory> {
        MixedTable::of_versions(alloc, table, VersionLimit::Buffer)
    }

    /// The units and steps over the versions that keep a limit. Fails only for want of memory.
    fn of_versions(
        alloc: Global,
        table: &Table,
        limit: VersionLimit,
    ) -> Result<MixedTable, OutOfMemory> {
        let mut units = Vec::new(alloc);
        let mut packets = Vec::new(alloc);
        let mut corners = Vec::new(alloc);
        for program in table.programs.as_slice() {
            let most = limit.bytes(program);
            for unit in program.units.as_slice() {
                add_unit(&mut units, &mut packets, &mut corners, unit, most)?;
            }
        }
        units.sort_by_key(|unit| unit.due)?;
        let mut steps = Vec::new(alloc);
        for (place, unit) in units.iter().enumerate() {
            add_steps(&mut steps, corners.as_slice(), place, *unit)?;
        }
        steps.sort_by_key(|step| Reverse(step.ratio))?;
        Ok(MixedTable {
            units,
            steps,
            packets,
        })
    }

    /// How many packets a version of a unit has beyond its smallest one.
    pub fn packets_more(&self, unit: MixedUnit, k: u8) -> i64 {
        match self
            .packets
            .get(unit.versions.saturating_add(usize::from(k)))
        {
            Some(packets) => i64::from(*packets).saturating_sub(i64::from(unit.packets)),
            None => 0,
        }
    }
}

/// Adds a unit with its versions' packets and its corners.
fn add_unit(
    units: &mut Vec<MixedUnit>,
    packets: &mut Vec<u32>,
    corners: &mut Vec<Corner>,
    unit: &Unit,
    most: u64,
) -> Result<(), OutOfMemory> {
    let versions = packets.len();
    for version in unit.versions.as_slice() {
        packets.push(corner_of(*version).packets)?;
    }
    let first = corners.len();
    let smallest = smallest_corner(unit.versions.as_slice());
    corners.push(smallest)?;
    add_corners_from(corners, unit.versions.as_slice(), most, smallest)?;
    units.push(MixedUnit {
        due: unit.due,
        packets: smallest.packets,
        number: units.len(),
        versions,
        first,
        until: corners.len(),
    })?;
    Ok(())
}

/// Adds the corners of a unit's lower hull behind the smallest.
fn add_corners_from(
    corners: &mut Vec<Corner>,
    versions: &[Version],
    most: u64,
    smallest: Corner,
) -> Result<(), OutOfMemory> {
    let mut corner = smallest;
    for _step in 1..VERSIONS_MOST {
        let Some(next) = next_corner(versions, most, corner) else {
            return Ok(());
        };
        corners.push(next)?;
        corner = next;
    }
    Ok(())
}

/// The version of fewest packets, and of those the one with the least distortion.
fn smallest_corner(versions: &[Version]) -> Corner {
    let mut smallest = match versions.first() {
        Some(version) => corner_of(*version),
        None => Corner::default(),
    };
    for version in versions {
        let corner = corner_of(*version);
        if corner.packets < smallest.packets
            || (corner.packets == smallest.packets && corner.distortion < smallest.distortion)
        {
            smallest = corner;
        }
    }
    smallest
}

/// The next corner behind one: of the versions of so many bytes at most the one that saves most for a packet, and of those the
/// largest.
fn next_corner(versions: &[Version], most_bytes: u64, from: Corner) -> Option<Corner> {
    let mut best = None;
    let mut most = HullStep::default();
    for version in versions {
        let corner = corner_of(*version);
        if u64::from(version.bytes) <= most_bytes
            && corner.packets > from.packets
            && corner.distortion < from.distortion
        {
            let own = step_between(0, from, corner);
            if own.saves_more(most) {
                most = own;
                best = Some(corner);
            }
        }
    }
    best
}

impl HullStep {
    /// Whether a step saves more for a packet than another, or as much with more packets.
    fn saves_more(self, other: HullStep) -> bool {
        let own = u128::from(self.saved).wrapping_mul(u128::from(other.packets));
        let others = u128::from(other.saved).wrapping_mul(u128::from(self.packets));
        own > others || (own == others && self.packets > other.packets)
    }
}

/// The step of a unit from one corner to another, without its ratio.
fn step_between(unit: usize, from: Corner, to: Corner) -> HullStep {
    HullStep {
        unit,
        packets: to.packets.saturating_sub(from.packets),
        saved: from.distortion.saturating_sub(to.distortion),
        ratio: 0,
    }
}

/// Adds the steps between the corners of a unit.
fn add_steps(
    steps: &mut Vec<HullStep>,
    corners: &[Corner],
    number: usize,
    unit: MixedUnit,
) -> Result<(), OutOfMemory> {
    for k in unit.first.saturating_add(1)..unit.until {
        if k < corners.len() {
            let from = corners[k.saturating_sub(1)];
            let step = step_between(number, from, corners[k]);
            steps.push(HullStep {
                ratio: ratio_of(step),
                ..step
            })?;
        }
    }
    Ok(())
}

/// What a step saves for a packet, in parts.
fn ratio_of(step: HullStep) -> u64 {
    step.saved.saturating_mul(RATIO_PARTS) / u64::from(step.packets.max(1))
}

/// Packets and distortion of a version.
fn corner_of(version: Version) -> Corner {
    Corner {
        packets: version.bytes.div_ceil(PAYLOAD_BYTES as u32),
        distortion: version.distortion,
    }
}
