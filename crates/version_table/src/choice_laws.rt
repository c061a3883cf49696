//! Laws of choices, as functions that do nothing.

ghost use Rattle.std.specs.Prelude.{◌≡◌, ℕ, ◌-◌, ◌<◌, ◌≤◌, List, All, length, sum_by};
ghost use Rattle.version_table.specs.declared.table.Table.{Table};
ghost use Rattle.version_table.specs.declared.table.Unit.{Unit as CodedUnit};
ghost use Rattle.version_table.specs.Table.{IsValidTable, IsValidUnit, greatest_distortion};
ghost use Rattle.version_table.specs.Choice.{Fits, IsSmallestChoice, distortion_of_choice, level_choice, least_distortions};

use crate::limits::{DISTORTIONS_LIMIT, UNITS_OF_ANY_DISTORTION, VERSIONS_MOST};

/// No choice that fits has less distortion than the sum of the least distortions of all units.
pub fn least_distortions_bound()
    ensures { (table : Table) (choice : List ℕ) → Fits table choice → least_distortions table ≤ distortion_of_choice table choice }
{}

/// A table has one smallest choice.
pub fn smallest_choice_is_one()
    ensures { (table : Table) (a b : List ℕ) → IsSmallestChoice table a → IsSmallestChoice table b → a ≡ b }
{}

/// The smallest choice fits.
pub fn smallest_choice_fits()
    ensures { (table : Table) (choice : List ℕ) → IsSmallestChoice table choice → Fits table choice }
{}

/// The level choices of a valid table fit.
pub fn level_choices_fit()
    ensures { (table : Table) (level : ℕ) → IsValidTable table → Fits table (level_choice table level) }
{}

/// All level choices from the greatest version number on are one, so the levels below `VERSIONS_MOST` give all.
pub fn level_choices_end()
    ensures { (table : Table) (level : ℕ) → IsValidTable table → VERSIONS_MOST - 1 ≤ level → level_choice table level ≡ level_choice table (VERSIONS_MOST - 1) }
{}

/// Of as many units as may have any distortion, the greatest distortions together are below the limit of tables.
pub fn few_units_cost_little()
    ensures { (slot : ℕ) (units : List CodedUnit) → All (IsValidUnit slot) units → length units ≤ UNITS_OF_ANY_DISTORTION
        → sum_by greatest_distortion units < DISTORTIONS_LIMIT }
{}
