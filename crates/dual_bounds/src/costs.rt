ghost use Rattle.std.specs.Prelude.{◌≡◌, ◌+◌, ◌*◌, ◌^◌, ◌<◌, ◌≤◌, length, map, All};
ghost use Rattle.std.specs.List.{AllZip};
ghost use Rattle.version_table.specs.Choice.{least};
ghost use Rattle.version_table.specs.Table.{IsValidTable, IsValidUnit, IsValidVersion, units_of};
ghost use Rattle.dual_bounds.specs.declared.constants.TheConstants.{LAMBDA_MOST, WINDOWS_MOST};
ghost use Rattle.dual_bounds.specs.Fixed.{FixesVersions, NamesVersion, allowed};
ghost use Rattle.dual_bounds.specs.Private.Costs.{AreCharging};
ghost use Rattle.dual_bounds.specs.Values.{charge, cost, least_cost, least_costs, price};

use crate::constants::DISTORTION_PARTS;
use crate::fixed::Fixed;
use crate::windows::Window;
use stream_constants::packets::PAYLOAD_BYTES;
use version_table::{Table, Unit, Version};

/// What the units of a table cost at least together, where packets are charged and these versions are fixed.
pub fn least_costs(table: &Table, fixed: &Fixed, windows: &[Window]) -> u128
    requires valid { IsValidTable table.now }
    requires fixed { FixesVersions table.now fixed.now }
    requires charging { AreCharging windows.now }
    ensures value { result ≡ least_costs windows.now (units_of table.now) fixed.now }
    ensures small { result < 2 ^ 85 }
{
    let mut rest = fixed.as_slice();
    let mut total = 0;
    for program in table.programs.as_slice() {
        let (entries, after) = rest.split_at(program.units.len());
        total += costs_of_units(program.units.as_slice(), entries, windows, table.slot);
        rest = after;
    }
    total
}

/// What these units cost at least together.
fn costs_of_units(units: &[Unit], fixed: &[Option<u8>], windows: &[Window], slot: u32) -> u128
    requires valid { All (IsValidUnit slot) units.now }
    requires names { AllZip NamesVersion units.now fixed.now }
    requires charging { AreCharging windows.now }
    requires small { least_costs windows.now units.now fixed.now < 2 ^ 85 }
    ensures { result ≡ least_costs windows.now units.now fixed.now }
{
    let mut total = 0;
    for (i, unit) in units.iter().enumerate() {
        total += u128::from(cost_of_unit(unit, fixed[i], windows, slot));
    }
    total
}

/// What a unit costs at least.
fn cost_of_unit(unit: &Unit, fixed: Option<u8>, windows: &[Window], slot: u32) -> u64
    requires valid { IsValidUnit slot unit.now }
    requires names { NamesVersion unit.now fixed }
    requires charging { AreCharging windows.now }
    ensures { result ≡ least_cost windows.now unit.now fixed }
{
    unit_cost(unit, fixed, price(windows, unit.due))
}

/// What a unit costs at least, over its versions that may be chosen, where a packet has this price, in 1/256 of a
/// distortion.
pub fn unit_cost(unit: &Unit, fixed: Option<u8>, charged: u64) -> u64
    requires some { 1 ≤ length unit.now.versions.items }
    requires valid { All IsValidVersion unit.now.versions.items }
    requires names { NamesVersion unit.now fixed }
    requires charged { charged ≤ WINDOWS_MOST * LAMBDA_MOST }
    ensures { result ≡ least (map (cost charged) (allowed unit.now fixed)) }
{
    match fixed {
        Some(k) => cost(&unit.versions[usize::from(k)], charged),
        None => least_of_versions(unit.versions.as_slice(), charged),
    }
}

/// What versions cost at least, of which there are some.
fn least_of_versions(versions: &[Version], charged: u64) -> u64
    requires some { 1 ≤ length versions.now }
    requires valid { All IsValidVersion versions.now }
    requires charged { charged ≤ 2 ^ 46 }
    ensures { result ≡ least (map (cost charged) versions.now) }
{
    let mut least = cost(&versions[0], charged);
    for version in &versions[1..] {
        least = least.min(cost(version, charged));
    }
    least
}

/// What a version costs.
fn cost(version: &Version, charged: u64) -> u64
    requires valid { IsValidVersion version.now }
    requires charged { charged ≤ 2 ^ 46 }
    ensures { result ≡ cost charged version.now }
{
    let packets = version.bytes.div_ceil(PAYLOAD_BYTES as u32);
    DISTORTION_PARTS * version.distortion + u64::from(packets) * charged
}

/// What a packet that is due at a time is charged.
#[inline]
pub fn price(windows: &[Window], time: u64) -> u64
    requires few { length windows.now ≤ WINDOWS_MOST }
    requires lambdas { All (λ window. window.lambda ≤ LAMBDA_MOST) windows.now }
    ensures value { result ≡ price windows.now time }
    ensures small { result ≤ length windows.now * LAMBDA_MOST }
{
    let mut total = 0;
    for window in windows {
        total += charge(*window, time);
    }
    total
}

/// What a window charges for a packet that is due at a time.
fn charge(window: Window, time: u64) -> u64
    ensures { result ≡ charge time window }
{
    if window.from <= time && time <= window.due {
        window.lambda
    } else {
        0
    }
}
