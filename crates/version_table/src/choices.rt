ghost use Rattle.std.specs.Prelude.{◌≡◌, ℕ, ◌+◌, ◌*◌, ◌^◌, ◌<◌, ◌≤◌, ◌↔◌, IsTrue, List, ◌++◌, length, sum, map, All, IfOk, OnOk};
ghost use Rattle.std.specs.List.{AllZip};
ghost use Rattle.version_table.specs.declared.table.Table.{Table};
ghost use Rattle.version_table.specs.Table.{IsValidTable};
ghost use Rattle.version_table.specs.Private.Choices.{AppendsEach, HasFewVersions};
ghost use Rattle.version_table.specs.Choice.{Fits, HasVersion, IsSmaller, IsSmallestChoice, IsSmallestVersion, chosen_distortions, distortion_of_choice, level_version, level_choice, least_distortion, least_distortions};

use crate::table::{Choice, Table, Unit, Version};
use list_types::{ListOf, OutOfMemory};
use std::alloc::Global;

/// The distortion of a choice: the sum of the distortions of its versions over all units.
pub fn distortion_of(table: &Table, choice: &Choice) -> u64
    requires valid { IsValidTable table.now }
    requires fits { Fits table.now choice.now }
    ensures { result ≡ distortion_of_choice table.now choice.now }
{
    let mut rest = choice.as_slice();
    let mut total = 0;
    for program in table.programs.as_slice() {
        let (chosen, after) = rest.split_at(program.units.len());
        total += distortion_of_units(program.units.as_slice(), chosen);
        rest = after;
    }
    total
}

/// The smallest choice: of each unit the version of fewest bytes, among these the one of least distortion, and
/// among these the first. Fails only for want of memory.
pub fn smallest(alloc: Global, table: &Table) -> Result<Choice, OutOfMemory>
    requires { IsValidTable table.now }
    ensures smallest { IfOk result (IsSmallestChoice table.now) }
    ensures fits { IfOk result (Fits table.now) }
{
    let mut choice = ListOf::new(alloc);
    for program in table.programs.as_slice() {
        add_smallest(&mut choice, program.units.as_slice())?;
    }
    Ok(choice)
}

/// The level choice: of each unit version `k`, or its last version where it has fewer. Fails only for want of memory.
pub fn level(alloc: Global, table: &Table, k: u8) -> Result<Choice, OutOfMemory>
    requires { IsValidTable table.now }
    ensures value { IfOk result (λ choice. choice ≡ level_choice table.now k) }
    ensures fits { IfOk result (Fits table.now) }
{
    let mut choice = ListOf::new(alloc);
    for program in table.programs.as_slice() {
        add_levels(&mut choice, program.units.as_slice(), k)?;
    }
    Ok(choice)
}

/// The sum of the least distortions of all units: a bound from below on the distortion of every choice.
pub fn least_total(table: &Table) -> u64
    requires { IsValidTable table.now }
    ensures value { result ≡ least_distortions table.now }
    ensures bound { (choice : List ℕ) → Fits table.now choice → result ≤ distortion_of_choice table.now choice }
{
    let mut total = 0;
    for program in table.programs.as_slice() {
        total += least_of_units(program.units.as_slice());
    }
    total
}

/// The sum of the distortions of the chosen versions of these units.
fn distortion_of_units(units: &[Unit], choice: &[u8]) -> u64
    requires fits { AllZip HasVersion units.now choice.now }
    requires small { sum (chosen_distortions units.now choice.now) < 2 ^ 64 }
    ensures { result ≡ sum (chosen_distortions units.now choice.now) }
{
    let mut total = 0;
    for (i, unit) in units.iter().enumerate() {
        total += unit.versions[choice[i] as usize].distortion;
    }
    total
}

/// Adds the number of the smallest version of each unit.
fn add_smallest(choice: &mut Choice, units: &[Unit]) -> Result<(), OutOfMemory>
    requires { All HasFewVersions units.now }
    ensures { OnOk result (AppendsEach IsSmallestVersion units.now choice.old choice.new) }
{
    for unit in units {
        choice.push(smallest_version(unit))?;
    }
    Ok(())
}

/// Adds the number of the level version of each unit.
fn add_levels(choice: &mut Choice, units: &[Unit], k: u8) -> Result<(), OutOfMemory>
    requires { All HasFewVersions units.now }
    ensures { OnOk result (choice.new ≡ choice.old ++ map (level_version k) units.now) }
{
    for unit in units {
        choice.push(k.min(unit.versions.len() as u8 - 1))?;
    }
    Ok(())
}

/// The sum of the least distortions of these units.
fn least_of_units(units: &[Unit]) -> u64
    requires each { All HasFewVersions units.now }
    requires small { sum (map least_distortion units.now) < 2 ^ 64 }
    ensures { result ≡ sum (map least_distortion units.now) }
{
    let mut total = 0;
    for unit in units {
        total += least_of_versions(unit);
    }
    total
}

/// The number of the smallest version of a unit.
fn smallest_version(unit: &Unit) -> u8
    requires { HasFewVersions unit.now }
    ensures { IsSmallestVersion unit.now result }
{
    let versions = unit.versions.as_slice();
    let mut best = 0;
    for k in 1..versions.len() {
        if is_smaller(&versions[k], &versions[best]) {
            best = k;
        }
    }
    best as u8
}

/// Whether a version has fewer bytes than another, or as many and less distortion.
fn is_smaller(version: &Version, other: &Version) -> bool
    ensures { IsTrue result ↔ IsSmaller version.now other.now }
{
    version.bytes < other.bytes
        || (version.bytes == other.bytes && version.distortion < other.distortion)
}

/// The least distortion of a unit's versions.
fn least_of_versions(unit: &Unit) -> u64
    requires { HasFewVersions unit.now }
    ensures { result ≡ least_distortion unit.now }
{
    let versions = unit.versions.as_slice();
    let mut least = versions[0].distortion;
    for version in &versions[1..] {
        least = least.min(version.distortion);
    }
    least
}
