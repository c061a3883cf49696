ghost use Rattle.std.specs.Prelude.{◌≡◌, ◌++◌, ◌<◌, ◌≤◌, ◌^◌, length, map, All, IfOk, OnOk};
ghost use Rattle.version_table.specs.Choice.{least};
ghost use Rattle.version_table.specs.Table.{IsValidTable, IsValidUnit, IsValidVersion};
ghost use Rattle.dual_bounds.specs.Values.{packet_count};
ghost use Rattle.impossible_proof.specs.NoRoom.{fewest_packets};
ghost use Rattle.impossible_proof.specs.Private.Needs.{AreFew, AreNeeds, need_in, need_of, packets_in};

use list_types::OutOfMemory;
use std::alloc::Global;
use stream_constants::packets::PAYLOAD_BYTES;
use version_table::{Table, Unit, Version};

/// What a unit needs at least.
#[derive(Clone, Copy)]
pub(crate) struct UnitNeed {
    /// When it is due, in ticks.
    pub due: u64,
    /// The packets of its smallest version.
    pub packets: u32,
}

/// What the units of a table need, in the order of their due times. Fails only for want of memory.
pub(crate) fn needs_in_order(alloc: Global, table: &Table) -> Result<Vec<UnitNeed>, OutOfMemory>
    requires { IsValidTable table.now }
    ensures { IfOk result (λ needs. AreNeeds table.now needs.items) }
{
    let mut needs = Vec::new(alloc);
    for program in table.programs.as_slice() {
        add_needs(&mut needs, program.units.as_slice(), table.slot)?;
    }
    needs.sort_by_key(|need| need.due)?;
    Ok(needs)
}

/// Adds what these units need.
fn add_needs(needs: &mut Vec<UnitNeed>, units: &[Unit], slot: u32) -> Result<(), OutOfMemory>
    requires { All (IsValidUnit slot) units.now }
    ensures { OnOk result (needs.new.items ≡ needs.old.items ++ map need_of units.now) }
{
    for unit in units {
        needs.push(need_of(unit, slot))?;
    }
    Ok(())
}

/// What a unit needs.
fn need_of(unit: &Unit, slot: u32) -> UnitNeed
    requires { IsValidUnit slot unit.now }
    ensures { result ≡ need_of unit.now }
{
    let _slot = slot;
    UnitNeed {
        due: unit.due,
        packets: fewest_packets(unit.versions.as_slice()),
    }
}

/// The packets of the version that has fewest, of some versions.
fn fewest_packets(versions: &[Version]) -> u32
    requires some { 1 ≤ length versions.now }
    requires valid { All IsValidVersion versions.now }
    ensures { result ≡ least (map packet_count versions.now) }
{
    let mut fewest = packet_count(&versions[0]);
    for version in &versions[1..] {
        fewest = fewest.min(packet_count(version));
    }
    fewest
}

/// The packets of a version.
fn packet_count(version: &Version) -> u32
    requires { IsValidVersion version.now }
    ensures { result ≡ packet_count version.now }
{
    version.bytes.div_ceil(PAYLOAD_BYTES as u32)
}

/// What the units that are due in a window need together.
pub(crate) fn needed(needs: &[UnitNeed], from: u64, due: u64) -> u64
    requires { AreFew needs.now }
    ensures value { result ≡ need_in from due needs.now }
    ensures small { result < 2 ^ 38 }
{
    let mut total = 0;
    for need in needs {
        total += needed_within(*need, from, due);
    }
    total
}

/// What a unit needs where it is due in a window, else nothing.
fn needed_within(need: UnitNeed, from: u64, due: u64) -> u64
    ensures { result ≡ packets_in from due need }
{
    if from <= need.due && need.due <= due {
        u64::from(need.packets)
    } else {
        0
    }
}
