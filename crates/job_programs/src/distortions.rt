//! The distortions of a program as a job weighs them, against the limits of tables.

ghost use Rattle.std.specs.Prelude.{◌≡◌, ◌≤◌, ◌<◌, ◌*◌, ◌⊎◌, ◌↔◌, IsTrue, true, false, All, length, map};
ghost use Rattle.job_report.specs.declared.limits.TheConstants.{DRIFT_MOST, WEIGHT_MOST};
ghost use Rattle.version_table.specs.Table.{greatest};
ghost use Rattle.program_reader.specs.declared.program.Program.{Program as AnyProgram};
ghost use Rattle.job_programs.specs.Distortions.{AreNear, KeepsDistortions, weighed_together};
ghost use Rattle.job_programs.specs.Private.Sized.{IsSizedBy};

use crate::limits::{PROGRAM_DISTORTIONS_LIMIT, UNITS_OF_ANY_DISTORTION};
use crate::next::Wanted;
use job_report::limits::DRIFT_DEFAULT;
use program_reader::{UnitSizes, UnitSource, unit_weight};
use version_maker::VersionSize;
use version_table::limits::DISTORTION_LIMIT;

/// True where the distortions of the units of a program keep the limits of tables at the weight and the drift that are wanted.
pub(crate) fn keeps_distortions(
    units: &[UnitSource],
    sizes: &[UnitSizes],
    wanted: &Wanted<'_>,
) -> bool
    requires weight { wanted.now.weight ≤ WEIGHT_MOST }
    requires drift { wanted.now.drift ≤ DRIFT_MOST }
    requires sizes { (program : AnyProgram) × IsSizedBy program wanted.now.coarser.now units.now sizes.now }
    ensures { (program : AnyProgram) → IsSizedBy program wanted.now.coarser.now units.now sizes.now
        → IsTrue result ↔ KeepsDistortions wanted.now.weight wanted.now.drift wanted.now.coarser.now program }
{
    if !can_reach_limits(wanted.drift, units.len()) {
        return true;
    }
    is_near(units, sizes, wanted.weight, wanted.drift)
}

/// True where the distortions of so many units may reach the limits, whatever the weight.
fn can_reach_limits(drift: u8, units: usize) -> bool
    ensures yes { result ≡ true → (0 < drift) ⊎ (UNITS_OF_ANY_DISTORTION < units) }
    ensures no { result ≡ false → (drift ≡ 0) × (units ≤ UNITS_OF_ANY_DISTORTION) }
{
    drift != DRIFT_DEFAULT || units > UNITS_OF_ANY_DISTORTION
}

/// True where the distortion of each version of each unit, times what the unit weighs, is below the limit of tables, and the greatest ones
/// of all units together are below that of a program.
fn is_near(units: &[UnitSource], sizes: &[UnitSizes], weight: u8, drift: u8) -> bool
    requires many { length sizes.now ≡ length units.now }
    requires weight { weight ≤ WEIGHT_MOST }
    requires drift { drift ≤ DRIFT_MOST }
    ensures { IsTrue result ↔ (AreNear weight drift units.now sizes.now × (weighed_together weight drift units.now sizes.now < PROGRAM_DISTORTIONS_LIMIT)) }
{
    if !are_near(units, sizes, weight, drift) {
        return false;
    }
    are_together_below(units, sizes, weight, drift)
}

/// True where the distortion of each version of each unit, times what the unit weighs, is below the limit of tables.
fn are_near(units: &[UnitSource], sizes: &[UnitSizes], weight: u8, drift: u8) -> bool
    requires many { length sizes.now ≡ length units.now }
    requires weight { weight ≤ WEIGHT_MOST }
    requires drift { drift ≤ DRIFT_MOST }
    ensures { IsTrue result ↔ AreNear weight drift units.now sizes.now }
{
    for k in 0..units.len() {
        let own = unit_weight(units, k, weight, drift);
        if !are_below(sizes[k].versions.as_slice(), own) {
            return false;
        }
    }
    true
}

/// True where each of these distortions, times a weight, is below the limit of tables.
fn are_below(sizes: &[VersionSize], weight: u32) -> bool
    ensures { IsTrue result ↔ All (λ size. size.distortion * weight < DISTORTION_LIMIT) sizes.now }
{
    sizes.iter().all(|size| is_below(size, weight))
}

/// True where a distortion, times a weight, is below the limit of tables.
fn is_below(size: &VersionSize, weight: u32) -> bool
    ensures { IsTrue result ↔ (size.now.distortion * weight < DISTORTION_LIMIT) }
{
    u128::from(size.distortion) * u128::from(weight) < u128::from(DISTORTION_LIMIT)
}

/// True where the greatest distortions of units, each times what the unit weighs, are together below the limit of a program.
fn are_together_below(units: &[UnitSource], sizes: &[UnitSizes], weight: u8, drift: u8) -> bool
    requires many { length sizes.now ≡ length units.now }
    requires weight { weight ≤ WEIGHT_MOST }
    requires drift { drift ≤ DRIFT_MOST }
    requires near { AreNear weight drift units.now sizes.now }
    ensures { IsTrue result ↔ (weighed_together weight drift units.now sizes.now < PROGRAM_DISTORTIONS_LIMIT) }
{
    let mut room = PROGRAM_DISTORTIONS_LIMIT;
    for k in 0..units.len() {
        let own = unit_weight(units, k, weight, drift);
        let most = greatest_weighed(sizes[k].versions.as_slice(), own);
        if most >= room {
            return false;
        }
        room -= most;
    }
    true
}

/// The greatest of some distortions, times a weight; 0 where there is none.
fn greatest_weighed(sizes: &[VersionSize], weight: u32) -> u64
    requires { All (λ size. size.distortion * weight < DISTORTION_LIMIT) sizes.now }
    ensures { result ≡ greatest (map (λ size. size.distortion * weight) sizes.now) }
{
    let mut most = 0;
    for size in sizes {
        most = most.max(size.distortion * u64::from(weight));
    }
    most
}
