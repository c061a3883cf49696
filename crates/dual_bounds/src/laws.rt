//! Laws of the bounds, as functions that do nothing.

ghost use Rattle.std.specs.Prelude.{ℕ, ◌≡◌, ◌+◌, ◌*◌, ◌<◌, ◌≤◌, ◌↔◌, List, [], ◌∷◌, ◌++◌, length, slice_get, slice_set, Option, ℤ, pos, ◌+ℤ◌, ◌≤ℤ◌};
ghost use Rattle.std.specs.List.{AllZip};
ghost use Rattle.version_table.specs.declared.table.Table.{Table};
ghost use Rattle.version_table.specs.declared.table.Unit.{Unit as CodedUnit};
ghost use Rattle.version_table.specs.Choice.{HasVersion, least_distortions};
ghost use Rattle.version_table.specs.Table.{IsValidTable, units_of};
ghost use Rattle.dual_bounds.specs.declared.constants.TheConstants.{DISTORTION_PARTS};
ghost use Rattle.dual_bounds.specs.declared.windows.Window.{Window};
ghost use Rattle.dual_bounds.specs.Bounds.{IsBound, bound_of_value};
ghost use Rattle.dual_bounds.specs.Fixed.{FixesNone, FixesVersions, KeepsFixed};
ghost use Rattle.dual_bounds.specs.Values.{value_of_windows};

/// Weak duality: whatever windows there are, no scheduled choice that takes the versions that are fixed has less
/// distortion than the bound of their value.
pub fn weak_duality()
    ensures { (table : Table) (fixed : List (Option ℕ)) (windows : List Window) → IsValidTable table
        → IsBound table fixed (bound_of_value (value_of_windows table fixed windows)) }
{}

/// The bound of a value is the least number of distortions that the value is at most.
pub fn bound_is_the_least()
    ensures { (value : ℤ) (distortion : ℕ) → (bound_of_value value ≤ distortion) ↔ (value ≤ℤ pos (DISTORTION_PARTS * distortion)) }
{}

/// A greater value has no lesser bound.
pub fn bounds_rise_with_values()
    ensures { (value greater : ℤ) → value ≤ℤ greater → bound_of_value value ≤ bound_of_value greater }
{}

/// Where more versions are fixed, the value of the same windows is no less.
pub fn fixing_more_lowers_no_value()
    ensures { (table : Table) (fixed more : List (Option ℕ)) (windows : List Window) → FixesVersions table more → AllZip KeepsFixed fixed more
        → value_of_windows table fixed windows ≤ℤ value_of_windows table more windows }
{}

/// A window may stand anywhere among the others.
pub fn windows_stand_in_any_order()
    ensures { (table : Table) (fixed : List (Option ℕ)) (before : List Window) (window : Window) (after : List Window)
        → value_of_windows table fixed (before ++ window ∷ after) ≡ value_of_windows table fixed (window ∷ (before ++ after)) }
{}

/// A window with the lambda 0 changes no value.
pub fn lambda_of_0_changes_nothing()
    ensures { (table : Table) (fixed : List (Option ℕ)) (from due : ℕ) (windows : List Window)
        → value_of_windows table fixed (record { from = from; due = due; lambda = 0 } ∷ windows) ≡ value_of_windows table fixed windows }
{}

/// Without windows, and with nothing fixed, the value is that of the least distortions of all units.
pub fn value_without_windows()
    ensures { (table : Table) (fixed : List (Option ℕ)) → FixesVersions table fixed → FixesNone fixed
        → value_of_windows table fixed [] ≡ pos (DISTORTION_PARTS * least_distortions table) }
{}

/// What is a bound wherever one more unit has a version fixed, whichever, is a bound.
pub fn branches_bound()
    ensures { (table : Table) (fixed : List (Option ℕ)) (u : ℕ) (unit : CodedUnit) (bound : ℕ) → slice_get (units_of table) u ≡ Some unit → u < length fixed
        → ((k : ℕ) → HasVersion unit k → IsBound table (slice_set fixed u (Some k)) bound) → IsBound table fixed bound }
{}

/// Along the lambda of one window, the others kept, each rise of the value is at most the one before: the value is concave.
pub fn rises_fall_along_each_lambda()
    ensures { (table : Table) (fixed : List (Option ℕ)) (from due lambda : ℕ) (others : List Window)
        → (value_of_windows table fixed (record { from = from; due = due; lambda = lambda } ∷ others) +ℤ value_of_windows table fixed (record { from = from; due = due; lambda = lambda + 2 } ∷ others))
        ≤ℤ (value_of_windows table fixed (record { from = from; due = due; lambda = lambda + 1 } ∷ others) +ℤ value_of_windows table fixed (record { from = from; due = due; lambda = lambda + 1 } ∷ others)) }
{}
