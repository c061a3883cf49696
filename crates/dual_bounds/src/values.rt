ghost use Rattle.std.specs.Prelude.{◌≡◌, ◌*◌, ◌^◌, ◌≤◌, length, map, All, pos, neg_ℤ, ◌*ℤ◌, ◌≤ℤ◌};
ghost use Rattle.version_table.specs.Table.{IsValidTable};
ghost use Rattle.dual_bounds.specs.Bounds.{IsBound, bound_of_value};
ghost use Rattle.dual_bounds.specs.Fixed.{FixesVersions};
ghost use Rattle.dual_bounds.specs.Room.{room};
ghost use Rattle.dual_bounds.specs.Values.{from_start, value_of_multipliers, value_of_windows, worth};

use crate::constants::{LAMBDA_MOST, WINDOWS_MOST};
use crate::costs::least_costs;
use crate::fixed::Fixed;
use crate::room::window_capacity;
use crate::windows::{Multiplier, Window, Windows};
use version_table::Table;

/// The value of some multipliers where these versions are fixed, in 1/256 of a distortion. No scheduled choice that takes
/// the fixed versions has less distortion than its bound.
pub fn dual_value(table: &Table, fixed: &Fixed, with: &[Multiplier]) -> i128
    requires valid { IsValidTable table.now }
    requires fixed { FixesVersions table.now fixed.now }
    requires few { length with.now ≤ WINDOWS_MOST }
    requires lambdas { All (λ multiplier. multiplier.lambda ≤ LAMBDA_MOST) with.now }
    ensures value { result ≡ value_of_multipliers table.now fixed.now with.now }
    ensures bound { IsBound table.now fixed.now (bound_of_value result) }
{
    let windows = windows_of(with);
    window_value(table, fixed, windows.as_slice())
}

/// The value of some windows where these versions are fixed, in 1/256 of a distortion. No scheduled choice that takes the
/// fixed versions has less distortion than its bound.
pub fn window_value(table: &Table, fixed: &Fixed, with: &[Window]) -> i128
    requires valid { IsValidTable table.now }
    requires fixed { FixesVersions table.now fixed.now }
    requires few { length with.now ≤ WINDOWS_MOST }
    requires lambdas { All (λ window. window.lambda ≤ LAMBDA_MOST) with.now }
    ensures value { result ≡ value_of_windows table.now fixed.now with.now }
    ensures bound { IsBound table.now fixed.now (bound_of_value result) }
{
    least_costs(table, fixed, with) as i128 - worth(table, with)
}

/// Multipliers as windows from time 0 on.
pub fn windows_of(multipliers: &[Multiplier]) -> Windows
    requires { length multipliers.now ≤ WINDOWS_MOST }
    ensures { result.items ≡ map from_start multipliers.now }
{
    let mut windows = Windows::new();
    for multiplier in multipliers {
        windows.push(Window {
            from: 0,
            due: multiplier.due,
            lambda: multiplier.lambda,
        });
    }
    windows
}

/// What the room of some windows is worth, in 1/256 of a distortion: the sum of each lambda times its window's room.
pub fn worth(table: &Table, windows: &[Window]) -> i128
    requires valid { IsValidTable table.now }
    requires few { length windows.now ≤ WINDOWS_MOST }
    requires lambdas { All (λ window. window.lambda ≤ LAMBDA_MOST) windows.now }
    ensures value { result ≡ worth table.now windows.now }
    ensures low { neg_ℤ (pos (2 ^ 110)) ≤ℤ result }
    ensures high { result ≤ℤ pos (2 ^ 110) }
{
    let mut total = 0;
    for window in windows {
        total += worth_of(table, *window);
    }
    total
}

/// What the room of a window is worth.
fn worth_of(table: &Table, window: Window) -> i128
    requires valid { IsValidTable table.now }
    requires lambda { window.lambda ≤ LAMBDA_MOST }
    ensures value { result ≡ pos window.lambda *ℤ room table.now window.from window.due }
    ensures low { neg_ℤ (pos (2 ^ 103)) ≤ℤ result }
    ensures high { result ≤ℤ pos (2 ^ 103) }
{
    let capacity = window_capacity(table, window.from, window.due);
    i128::from(window.lambda) * i128::from(capacity)
}
