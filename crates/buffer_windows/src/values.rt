ghost use Rattle.std.specs.Prelude.{◌≡◌, ◌+◌, ◌*◌, ◌≤◌, ◌<◌, ◌^◌, ℕ, length, map, All, filter, nat_le, nat_lt, pos, neg_ℤ, ◌≤ℤ◌, ◌*ℤ◌, true};
ghost use Rattle.std.specs.List.{AllZip, list_any};
ghost use Rattle.version_table.specs.declared.table.Version.{Version as TableVersion};
ghost use Rattle.version_table.specs.Choice.{least};
ghost use Rattle.version_table.specs.declared.limits.TheConstants.{UNITS_MOST};
ghost use Rattle.version_table.specs.Table.{IsValidTable, IsValidUnit, IsValidVersion};
ghost use Rattle.dual_bounds.specs.declared.constants.TheConstants.{LAMBDA_MOST};
ghost use Rattle.dual_bounds.specs.Fixed.{FixesVersions, NamesVersion};
ghost use Rattle.buffer_windows.specs.Bounds.{IsBoundOrNone, bound_of_byte_value as bound_of_value, bound_of_buffer_windows as bound_of_windows, each_has_left};
ghost use Rattle.buffer_windows.specs.Charges.{owned_units};
ghost use Rattle.buffer_windows.specs.Private.Near.{IsNear};
ghost use Rattle.buffer_windows.specs.Private.Prices.{all_have_left, cost_at, lesser, owned};
ghost use Rattle.buffer_windows.specs.Room.{buffer_room as room};
ghost use Rattle.buffer_windows.specs.Windows.{ArePriced};
ghost use Rattle.buffer_windows.specs.Values.{least_owned_cost as least_cost, least_owned_costs as least_costs, value_of_buffer_windows as value_of_windows, versions_left, buffer_worth as worth};

use crate::constants::BYTE_PARTS;
use crate::near::Near;
use crate::prices::{Prices, near_prices};
use crate::rooms::room;
use crate::windows::BufferWindow;
use stream_constants::decoder::EB_UNIT_BYTES;
use stream_constants::packets::PAYLOAD_BYTES;
use version_table::{Table, Unit, Version};

/// The bound of some windows where these versions are fixed, as a distortion; none where a unit has no version left, so that no
/// choice that takes the fixed versions is scheduled.
pub fn bound_of_windows(
    table: &Table,
    fixed: &[Option<u8>],
    windows: &[BufferWindow],
) -> Option<u128>
    requires valid { IsValidTable table.now }
    requires fixed { FixesVersions table.now fixed.now }
    requires priced { ArePriced windows.now }
    ensures value { result ≡ bound_of_windows table.now fixed.now windows.now }
    ensures bound { IsBoundOrNone table.now fixed.now result }
{
    if each_has_left(table, fixed) {
        Some(bound_of_value(value_of_windows(table, fixed, windows)))
    } else {
        None
    }
}

/// The bound that a value gives, as a distortion: the value over its 47,104 parts, rounded up, and 0 where it is negative.
pub fn bound_of_value(value: i128) -> u128
    ensures { result ≡ bound_of_value value }
{
    if value < 0 {
        0
    } else {
        (value as u128).div_ceil(u128::from(BYTE_PARTS))
    }
}

/// The value of some windows where these versions are fixed, in 1/47,104 of a distortion. A unit that has no version left
/// costs nothing.
pub fn value_of_windows(table: &Table, fixed: &[Option<u8>], windows: &[BufferWindow]) -> i128
    requires valid { IsValidTable table.now }
    requires fixed { FixesVersions table.now fixed.now }
    requires priced { ArePriced windows.now }
    ensures { result ≡ value_of_windows table.now fixed.now windows.now }
{
    least_costs(table, fixed, windows) as i128 - worth(table, windows)
}

/// What the room of some windows is worth: the sum of each lambda times its window's room.
fn worth(table: &Table, windows: &[BufferWindow]) -> i128
    requires valid { IsValidTable table.now }
    requires priced { ArePriced windows.now }
    ensures value { result ≡ worth table.now windows.now }
    ensures low { neg_ℤ (pos (2 ^ 110)) ≤ℤ result }
    ensures high { result ≤ℤ pos (2 ^ 110) }
{
    let mut total = 0;
    for window in windows {
        total += worth_of(table, window);
    }
    total
}

/// What the room of a window is worth.
fn worth_of(table: &Table, window: &BufferWindow) -> i128
    requires valid { IsValidTable table.now }
    requires lambda { window.now.lambda ≤ LAMBDA_MOST }
    ensures value { result ≡ pos window.now.lambda *ℤ room table.now window.now }
    ensures low { neg_ℤ (pos (2 ^ 88)) ≤ℤ result }
    ensures high { result ≤ℤ pos (2 ^ 88) }
{
    let room = room(table, window);
    i128::from(window.lambda) * i128::from(room)
}

/// Whether each unit has a version that may be chosen.
pub fn each_has_left(table: &Table, fixed: &[Option<u8>]) -> bool
    requires valid { IsValidTable table.now }
    requires fixed { FixesVersions table.now fixed.now }
    ensures { result ≡ each_has_left table.now fixed.now }
{
    let mut rest = fixed;
    for program in table.programs.as_slice() {
        let (entries, after) = rest.split_at(program.units.len());
        if !all_have_left(program.units.as_slice(), entries, program.vbv) {
            return false;
        }
        rest = after;
    }
    true
}

/// Whether each of these units, of a program whose elementary buffer has so many units of 2,048 bytes, has a version that may be
/// chosen.
fn all_have_left(units: &[Unit], fixed: &[Option<u8>], vbv: u8) -> bool
    requires { AllZip NamesVersion units.now fixed.now }
    ensures { (program : ℕ) → result ≡ all_have_left (owned program vbv units.now) fixed.now }
{
    for (i, unit) in units.iter().enumerate() {
        if !has_left(unit, fixed[i], vbv) {
            return false;
        }
    }
    true
}

/// Whether a unit, of a program whose elementary buffer has so many units of 2,048 bytes, has a version that may be chosen.
fn has_left(unit: &Unit, fixed: Option<u8>, vbv: u8) -> bool
    ensures { (program : ℕ) → result ≡ nat_lt 0 (length (versions_left (record { program = program; vbv = vbv; unit = unit.now }) fixed)) }
{
    match fixed {
        Some(_) => true,
        None => one_fits(unit.versions.as_slice(), vbv),
    }
}

/// Whether an elementary buffer of so many units of 2,048 bytes holds one of these versions.
fn one_fits(versions: &[Version], vbv: u8) -> bool
    ensures { result ≡ list_any (λ version. nat_le version.bytes (EB_UNIT_BYTES * vbv)) versions.now }
{
    for version in versions {
        if fits(version, vbv) {
            return true;
        }
    }
    false
}

/// Whether an elementary buffer of so many units of 2,048 bytes holds the version.
fn fits(version: &Version, vbv: u8) -> bool
    ensures { result ≡ nat_le version.now.bytes (EB_UNIT_BYTES * vbv) }
{
    u64::from(version.bytes) <= EB_UNIT_BYTES * u64::from(vbv)
}

/// What the units of a table cost at least together.
fn least_costs(table: &Table, fixed: &[Option<u8>], windows: &[BufferWindow]) -> u128
    requires valid { IsValidTable table.now }
    requires fixed { FixesVersions table.now fixed.now }
    requires priced { ArePriced windows.now }
    ensures value { result ≡ least_costs table.now.slot windows.now (owned_units table.now) fixed.now }
    ensures small { result < 2 ^ 106 }
{
    let mut rest = fixed;
    let mut total = 0;
    for (number, program) in table.programs.as_slice().iter().enumerate() {
        let (entries, after) = rest.split_at(program.units.len());
        let owner = Owner {
            slot: table.slot,
            number,
            vbv: program.vbv,
        };
        total += costs_of_units(program.units.as_slice(), entries, windows, owner);
        rest = after;
    }
    total
}

/// What stands for each unit of a program.
#[derive(Clone, Copy)]
struct Owner {
    /// Ticks of a slot.
    slot: u32,
    /// The program's number in the table.
    number: usize,
    /// The size of its elementary buffer in units of 2,048 bytes.
    vbv: u8,
}

/// What these units of a program cost at least together.
fn costs_of_units(
    units: &[Unit],
    fixed: &[Option<u8>],
    windows: &[BufferWindow],
    owner: Owner,
) -> u128
    requires slot { 1 ≤ owner.slot }
    requires program { owner.number < 8 }
    requires valid { All (IsValidUnit owner.slot) units.now }
    requires names { AllZip NamesVersion units.now fixed.now }
    requires few { length units.now ≤ UNITS_MOST }
    requires priced { ArePriced windows.now }
    ensures value { result ≡ least_costs owner.slot windows.now (owned owner.number owner.vbv units.now) fixed.now }
    ensures small { result ≤ length units.now * 2 ^ 80 }
{
    let mut total = 0;
    let mut near = Near::nowhere(owner.slot, windows);
    for (i, unit) in units.iter().enumerate() {
        near.go_to(owner.slot, windows, unit.due);
        total += least_cost(unit, fixed[i], windows, &near, owner);
    }
    total
}

/// What a unit costs at least in some windows, where this version of it is fixed or none is, in 1/47,104 of a distortion. It is one of
/// the program of this number, whose elementary buffer has so many units of 2,048 bytes. A unit that has no version left costs nothing.
pub fn unit_cost(
    slot: u32,
    windows: &[BufferWindow],
    program: usize,
    vbv: u8,
    unit: &Unit,
    fixed: Option<u8>,
) -> u128
    requires slot { 1 ≤ slot }
    requires program { program < 8 }
    requires valid { IsValidUnit slot unit.now }
    requires names { NamesVersion unit.now fixed }
    requires priced { ArePriced windows.now }
    ensures value { result ≡ least_cost slot windows.now (record { program = program; vbv = vbv; unit = unit.now }) fixed }
    ensures small { result ≤ 2 ^ 80 }
{
    let near = Near::nowhere(slot, windows);
    let owner = Owner {
        slot,
        number: program,
        vbv,
    };
    least_cost(unit, fixed, windows, &near, owner)
}

/// What a unit of a program costs at least, where these of the windows are near.
fn least_cost(
    unit: &Unit,
    fixed: Option<u8>,
    windows: &[BufferWindow],
    near: &Near,
    owner: Owner,
) -> u128
    requires slot { 1 ≤ owner.slot }
    requires program { owner.number < 8 }
    requires valid { IsValidUnit owner.slot unit.now }
    requires names { NamesVersion unit.now fixed }
    requires priced { ArePriced windows.now }
    requires near { IsNear owner.slot windows.now near.now }
    ensures value { result ≡ least_cost owner.slot windows.now (record { program = owner.number; vbv = owner.vbv; unit = unit.now }) fixed }
    ensures small { result ≤ 2 ^ 80 }
{
    let prices = near_prices(owner.slot, windows, near, owner.number, unit.due);
    match fixed {
        Some(k) => cost(&unit.versions[usize::from(k)], prices),
        None => least_of_versions(unit.versions.as_slice(), owner.vbv, prices),
    }
}

/// What those of these versions cost at least that an elementary buffer holds; nothing where it holds none.
fn least_of_versions(versions: &[Version], vbv: u8, prices: Prices) -> u128
    requires valid { All IsValidVersion versions.now }
    requires bytes { prices.bytes ≤ 2 ^ 52 }
    requires packets { prices.packets ≤ 2 ^ 52 }
    ensures value { result ≡ least (map (cost_at prices) (filter (λ version. nat_le version.bytes (EB_UNIT_BYTES * vbv)) versions.now)) }
    ensures small { result ≤ 2 ^ 80 }
{
    let mut least = None;
    for version in versions {
        if fits(version, vbv) {
            least = Some(lesser(least, cost(version, prices)));
        }
    }
    least.unwrap_or(0)
}

/// The lesser of a number, where there is one, and another.
fn lesser(least: Option<u128>, other: u128) -> u128
    ensures { result ≡ lesser least other }
{
    match least {
        Some(least) => least.min(other),
        None => other,
    }
}

/// What a version costs.
fn cost(version: &Version, prices: Prices) -> u128
    requires valid { IsValidVersion version.now }
    requires bytes { prices.bytes ≤ 2 ^ 52 }
    requires packets { prices.packets ≤ 2 ^ 52 }
    ensures value { result ≡ cost_at prices version.now }
    ensures small { result ≤ 2 ^ 80 }
{
    let packets = PAYLOAD_BYTES as u128 * u128::from(version.bytes.div_ceil(PAYLOAD_BYTES as u32));
    u128::from(BYTE_PARTS) * u128::from(version.distortion)
        + u128::from(prices.bytes) * u128::from(version.bytes)
        + u128::from(prices.packets) * packets
}
