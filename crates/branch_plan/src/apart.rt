ghost use Rattle.std.specs.Prelude.{◌≤◌, ◌<◌};
ghost use Rattle.version_table.specs.Table.{IsValidTable};

use crate::fitting::Owner;
use crate::found::Found;
use bound_certificate::Node;
use buffer_windows::{BufferWindow, Charged, charge_of, stop};
use dual_bounds::constants::DISTORTION_PARTS;
use dual_bounds::{Window, Windows, copied};
use list_types::OutOfMemory;
use std::alloc::Global;
use stream_constants::decoder::EB_UNIT_BYTES;
use stream_constants::packets::PAYLOAD_BYTES;
use version_table::{Table, Unit, Version};

/// How far apart the costs of a unit's two cheapest versions lie at the prices of a leaf, in parts of a distortion. At a leaf that
/// sees the buffers, a unit with a version that doesn't fit its buffer lies farthest.
pub(crate) fn costs_apart(table: &Table, unit: usize, leaf: &Node) -> u64
    requires valid { IsValidTable table.now }
{
    let mut rest = unit;
    for (number, program) in table.programs.as_slice().iter().enumerate() {
        let units = program.units.as_slice();
        if rest < units.len() {
            let owner = Owner {
                slot: table.slot,
                number,
                vbv: program.vbv,
            };
            return apart_at(&units[rest], leaf, owner);
        }
        rest -= units.len();
    }
    u64::MAX
}

/// In which order the units of a table are branched on at leaves that have the root's windows, those first whose two cheapest versions
/// lie closest. Units are numbered over all programs in order.
#[derive(Drop)]
pub(crate) struct Orders {
    /// The root's windows of time.
    windows: Windows,
    /// The order at leaves that have these.
    time: Vec<ApartUnit>,
    /// The order at leaves that see the buffers.
    seen: Vec<ApartUnit>,
}

impl Orders {
    /// No order: each leaf looks for its unit.
    pub(crate) fn none(alloc: Global) -> Orders {
        Orders {
            windows: Windows::new(),
            time: Vec::new(alloc),
            seen: Vec::new(alloc),
        }
    }

    /// The orders for the windows that were found for the root. Fails only for want of memory.
    pub(crate) fn of(alloc: Global, table: &Table, found: &Found) -> Result<Orders, OutOfMemory>
        requires valid { IsValidTable table.now }
    {
        Ok(Orders {
            windows: copied(found.time.as_slice()),
            time: closest_first(alloc, table, Either::Time(found.time.as_slice()))?,
            seen: closest_first(alloc, table, Either::Seen(found.buffers.as_slice()))?,
        })
    }

    /// The order at a leaf; none where its windows are its own.
    pub(crate) fn of_leaf(&self, leaf: &Node) -> &[ApartUnit] {
        match leaf {
            Node::BufferWindow { with: _ } => self.seen.as_slice(),
            Node::Window { with } => {
                if with.as_slice() == self.windows.as_slice() {
                    self.time.as_slice()
                } else {
                    &[]
                }
            }
            Node::Branch { unit: _ } => &[],
            Node::Dual { with: _ } => &[],
            Node::Run { scheduled: _ } => &[],
            Node::Open => &[],
        }
    }
}

/// Windows of one of the two kinds.
#[derive(Clone, Copy)]
enum Either<'a> {
    /// Windows of time.
    Time(&'a [Window]),
    /// Windows that see the buffers.
    Seen(&'a [BufferWindow]),
}

/// The units of a table, that whose two cheapest versions lie closest in these windows first. Fails only for want of memory.
fn closest_first(
    alloc: Global,
    table: &Table,
    windows: Either<'_>,
) -> Result<Vec<ApartUnit>, OutOfMemory>
    requires valid { IsValidTable table.now }
{
    let mut units = Vec::new(alloc);
    for (number, program) in table.programs.as_slice().iter().enumerate() {
        let owner = Owner {
            slot: table.slot,
            number,
            vbv: program.vbv,
        };
        add_units(&mut units, program.units.as_slice(), windows, owner)?;
    }
    units.sort_by_key(|unit| unit.apart)?;
    Ok(units)
}

/// Adds the units of a program.
fn add_units(
    into: &mut Vec<ApartUnit>,
    units: &[Unit],
    windows: Either<'_>,
    owner: Owner,
) -> Result<(), OutOfMemory>
    requires slot { 1 ≤ owner.slot }
    requires program { owner.number < 8 }
{
    for unit in units {
        let number = u32::try_from(into.len()).unwrap_or(u32::MAX);
        into.push(ApartUnit {
            apart: apart_in(unit, windows, owner),
            number,
        })?;
    }
    Ok(())
}

/// How far apart the costs of a unit's two cheapest versions lie in windows of one of the two kinds.
fn apart_in(unit: &Unit, windows: Either<'_>, owner: Owner) -> u64
    requires slot { 1 ≤ owner.slot }
    requires program { owner.number < 8 }
{
    match windows {
        Either::Time(windows) => apart_in_time(unit, price_of(windows, unit.due)),
        Either::Seen(windows) => apart_in_buffers(unit, windows, owner),
    }
}

/// A unit with its number over all programs in order.
#[derive(Clone, Copy)]
pub(crate) struct ApartUnit {
    /// How far apart the costs of its two cheapest versions lie.
    apart: u64,
    /// Its number.
    pub number: u32,
}

/// The same of a unit of a program.
fn apart_at(unit: &Unit, leaf: &Node, owner: Owner) -> u64
    requires slot { 1 ≤ owner.slot }
    requires program { owner.number < 8 }
{
    match leaf {
        Node::Window { with } => apart_in_time(unit, price_of(with.as_slice(), unit.due)),
        Node::Branch { unit: _ } => 0,
        Node::Dual { with: _ } => 0,
        Node::Run { scheduled: _ } => 0,
        Node::Open => 0,
        Node::BufferWindow { with } => apart_in_buffers(unit, with.as_slice(), owner),
    }
}

/// The two least numbers of those that were seen.
#[derive(Clone, Copy)]
struct Least {
    least: u64,
    second: u64,
}

impl Least {
    /// None was seen.
    fn new() -> Least {
        Least {
            least: u64::MAX,
            second: u64::MAX,
        }
    }

    /// One more was seen.
    fn with(self, cost: u64) -> Least {
        if cost < self.least {
            Least {
                least: cost,
                second: self.least,
            }
        } else {
            Least {
                least: self.least,
                second: self.second.min(cost),
            }
        }
    }

    /// How far they lie apart.
    fn apart(self) -> u64 {
        self.second.saturating_sub(self.least)
    }
}

/// How far apart the costs of a unit's two cheapest versions lie where a packet has this price, in 1/256 of a distortion.
fn apart_in_time(unit: &Unit, price: u64) -> u64 {
    let mut costs = Least::new();
    for version in unit.versions.as_slice() {
        costs = costs.with(cost_of(*version, price));
    }
    costs.apart()
}

/// What a packet that is due at a time costs in these windows.
fn price_of(windows: &[Window], due: u64) -> u64 {
    let mut price: u64 = 0;
    for window in windows {
        if window.from <= due && due <= window.due {
            price = price.saturating_add(window.lambda);
        }
    }
    price
}

/// What a version costs where a packet has this price, in 1/256 of a distortion.
fn cost_of(version: Version, price: u64) -> u64 {
    let packets = u64::from(version.bytes.div_ceil(PAYLOAD_BYTES as u32));
    let distortion = version.distortion.saturating_mul(DISTORTION_PARTS);
    distortion.saturating_add(packets.saturating_mul(price))
}

/// How far apart the costs of a unit's two cheapest versions lie in windows that see the buffers, in 1/47,104 of a distortion; where
/// one doesn't fit the unit's buffer, as far as can be.
fn apart_in_buffers(unit: &Unit, windows: &[BufferWindow], owner: Owner) -> u64
    requires slot { 1 ≤ owner.slot }
    requires program { owner.number < 8 }
{
    let (of_bytes, of_packets) = prices_of(unit.due, windows, owner);
    let mut costs = Least::new();
    for version in unit.versions.as_slice() {
        if u64::from(version.bytes) > EB_UNIT_BYTES * u64::from(owner.vbv) {
            return u64::MAX - 1;
        }
        costs = costs.with(byte_cost_of(*version, of_bytes, of_packets));
    }
    costs.apart()
}

/// What a byte of a unit costs in these windows, and a byte of its whole packets.
fn prices_of(due: u64, windows: &[BufferWindow], owner: Owner) -> (u64, u64)
    requires slot { 1 ≤ owner.slot }
    requires program { owner.number < 8 }
{
    let stops = stop(owner.slot, due);
    let mut of_bytes: u64 = 0;
    let mut of_packets: u64 = 0;
    for window in windows {
        match charge_of(owner.slot, window, owner.number, due, stops) {
            Charged::Nothing => {}
            Charged::Bytes => of_bytes = of_bytes.saturating_add(window.lambda),
            Charged::Packets => of_packets = of_packets.saturating_add(window.lambda),
        }
    }
    (of_bytes, of_packets)
}

/// What a version costs where its bytes and those of its whole packets have these prices, in 1/47,104 of a distortion.
fn byte_cost_of(version: Version, of_bytes: u64, of_packets: u64) -> u64 {
    let payload = PAYLOAD_BYTES as u64;
    let packets = payload * u64::from(version.bytes.div_ceil(PAYLOAD_BYTES as u32));
    let distortion = version
        .distortion
        .saturating_mul(DISTORTION_PARTS * payload);
    distortion
        .saturating_add(of_bytes.saturating_mul(u64::from(version.bytes)))
        .saturating_add(of_packets.saturating_mul(packets))
}
