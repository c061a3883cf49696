ghost use Rattle.std.specs.Prelude.{◌≡◌, ◌≤◌, length, ◌≤ℤ◌};
ghost use Rattle.version_table.specs.Table.{IsValidTable};
ghost use Rattle.dual_bounds.specs.declared.constants.TheConstants.{WINDOWS_MOST};
ghost use Rattle.dual_bounds.specs.Fixed.{FixesVersions};
ghost use Rattle.dual_bounds.specs.Values.{value_of_windows};
ghost use Rattle.multiplier_search.specs.Private.Turns.{AreNext, IsGreaterOf};
ghost use Rattle.multiplier_search.specs.Turns.{BeatChanges};
ghost use Rattle.multiplier_search.specs.Windows.{AreSearched};

use crate::lambda::best_lambda;
use crate::lists::replaced;
use dual_bounds::{Fixed, Window, Windows, copied, window_value};
use version_table::Table;

/// The windows with the one lambda changed that gains most.
pub fn best_change(table: &Table, fixed: &Fixed, start: &[Window]) -> Windows
    requires valid { IsValidTable table.now }
    requires fixed { FixesVersions table.now fixed.now }
    requires few { length start.now ≤ WINDOWS_MOST }
    requires searched { AreSearched start.now }
    ensures next { AreNext start.now 0 result.items }
    ensures value { value_of_windows table.now fixed.now start.now ≤ℤ value_of_windows table.now fixed.now result.items }
    ensures changes { BeatChanges table.now fixed.now start.now result.items }
{
    let mut best = copied(start);
    for (place, window) in start.iter().enumerate() {
        let lambda = best_lambda(table, fixed, start, place, *window);
        let changed = replaced(start, place, Window { lambda, ..*window });
        best = of_greater_value(table, fixed, best, changed);
    }
    best
}

/// The windows of greater value.
pub fn of_greater_value(table: &Table, fixed: &Fixed, a: Windows, b: Windows) -> Windows
    requires valid { IsValidTable table.now }
    requires fixed { FixesVersions table.now fixed.now }
    requires first { AreSearched a.items }
    requires second { AreSearched b.items }
    ensures { IsGreaterOf table.now fixed.now a.items b.items result.items }
{
    if window_value(table, fixed, a.as_slice()) < window_value(table, fixed, b.as_slice()) {
        b
    } else {
        a
    }
}
