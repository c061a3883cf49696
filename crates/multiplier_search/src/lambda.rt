ghost use Rattle.std.specs.Prelude.{◌≡◌, ◌<◌, ◌≤◌, length, All};
ghost use Rattle.version_table.specs.Table.{IsValidTable};
ghost use Rattle.dual_bounds.specs.declared.constants.TheConstants.{LAMBDA_MOST, WINDOWS_MOST};
ghost use Rattle.dual_bounds.specs.declared.windows.Window.{Window};
ghost use Rattle.dual_bounds.specs.Fixed.{FixesVersions};
ghost use Rattle.multiplier_search.specs.Private.Lambda.{EndsRise, RisesTo, value_at, value_with};

use crate::lists::replaced;
use crate::meeting::Lines;
use dual_bounds::constants::LAMBDA_MOST;
use dual_bounds::{Fixed, Window, window_value};
use version_table::Table;

/// The least lambda with which a window has the greatest value at this place among the others: values rise up to it and no
/// more, since each rise is at most the one before. The window's own is tried first.
pub fn best_lambda(
    table: &Table,
    fixed: &Fixed,
    windows: &[Window],
    place: usize,
    window: Window,
) -> u64
    requires valid { IsValidTable table.now }
    requires fixed { FixesVersions table.now fixed.now }
    requires few { length windows.now ≤ WINDOWS_MOST }
    requires lambdas { All (λ other. other.lambda ≤ LAMBDA_MOST) windows.now }
    requires place { place < length windows.now }
    ensures most { result ≤ LAMBDA_MOST }
    ensures rises { RisesTo (value_with table.now fixed.now windows.now place window.from window.due) result }
    ensures ends { EndsRise (value_with table.now fixed.now windows.now place window.from window.due) result }
{
    let mut low = 0;
    let mut high = LAMBDA_MOST;
    let mut lines = Lines::near(window.lambda);
    while low < high {
        let middle = lines.next_try(low, high);
        let value = value_with(table, fixed, windows, place, window, middle);
        let next = value_with(table, fixed, windows, place, window, middle + 1);
        if value < next {
            low = middle + 1;
            lines = lines.behind_rise(value, next);
        } else {
            high = middle;
            lines = lines.before_fall(value, next);
        }
    }
    low
}

/// The value of some windows where the one at this place is another one with this lambda.
fn value_with(
    table: &Table,
    fixed: &Fixed,
    windows: &[Window],
    place: usize,
    window: Window,
    lambda: u64,
) -> i128
    requires valid { IsValidTable table.now }
    requires fixed { FixesVersions table.now fixed.now }
    requires few { length windows.now ≤ WINDOWS_MOST }
    requires lambdas { All (λ other. other.lambda ≤ LAMBDA_MOST) windows.now }
    requires place { place < length windows.now }
    requires lambda { lambda ≤ LAMBDA_MOST }
    ensures { result ≡ value_with table.now fixed.now windows.now place window.from window.due lambda }
{
    let changed = replaced(windows, place, Window { lambda, ..window });
    window_value(table, fixed, changed.as_slice())
}

/// The value of a window alone with this lambda.
pub fn value_at(table: &Table, fixed: &Fixed, from: u64, due: u64, lambda: u64) -> i128
    requires valid { IsValidTable table.now }
    requires fixed { FixesVersions table.now fixed.now }
    requires lambda { lambda ≤ LAMBDA_MOST }
    ensures { result ≡ value_at table.now fixed.now from due lambda }
{
    window_value(table, fixed, &[Window { from, due, lambda }])
}
