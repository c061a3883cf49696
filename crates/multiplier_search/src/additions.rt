ghost use Rattle.std.specs.Prelude.{◌≡◌, ◌<◌, ◌≤◌, ◌⊎◌, ◌++◌, ◌∷◌, [], List, Option, ℕ, ℤ, length, All, IfOk, IfSome, true, false, ◌≢◌, ◌≤ℤ◌};
ghost use Rattle.version_table.specs.declared.table.Table.{Table as TableOfUnits};
ghost use Rattle.version_table.specs.Table.{IsValidTable, units_of};
ghost use Rattle.dual_bounds.specs.declared.constants.TheConstants.{LAMBDA_MOST, WINDOWS_MOST};
ghost use Rattle.dual_bounds.specs.declared.windows.Window.{Window};
ghost use Rattle.dual_bounds.specs.Fixed.{FixesVersions};
ghost use Rattle.dual_bounds.specs.Values.{value_of_windows};
ghost use Rattle.cost_sweep.specs.Sweep.{HasReached, IsSweep};
ghost use Rattle.multiplier_search.specs.Private.Additions.{EndAt, IsAdditionTo, IsBestAddition, IsValuedBeside};
ghost use Rattle.multiplier_search.specs.Private.Lambda.{value_beside};
ghost use Rattle.multiplier_search.specs.Private.Turns.{AreNext};
ghost use Rattle.multiplier_search.specs.Private.UnitSteps.{AreStepsOf};
ghost use Rattle.multiplier_search.specs.Single.{dues_of};
ghost use Rattle.multiplier_search.specs.Turns.{BeatAdditions};
ghost use Rattle.multiplier_search.specs.Windows.{AreSearched};

use crate::all_steps::sorted_steps;
use crate::at_due::{swept_lambda, swept_value};
use crate::changes::of_greater_value;
use crate::lists::{inserted, place_of};
use cost_sweep::CostSweep;
use dual_bounds::{Fixed, Window, Windows, copied, window_capacity};
use list_types::OutOfMemory;
use std::alloc::Global;
use version_table::Table;

/// A window from time 0 on that is added to some windows.
#[derive(Clone, Copy)]
struct Addition {
    /// Its end, in ticks.
    due: u64,
    /// Its price of a packet, in 1/256 of a distortion.
    lambda: u64,
    /// The value of all windows together, and what the others are worth.
    value: i128,
}

/// The windows with the one added from time 0 on to a unit's due time, at which none ends, that gains most. Fails only for
/// want of memory.
pub fn best_addition(
    alloc: Global,
    table: &Table,
    fixed: &Fixed,
    start: &[Window],
) -> Result<Windows, OutOfMemory>
    requires valid { IsValidTable table.now }
    requires fixed { FixesVersions table.now fixed.now }
    requires few { length start.now < WINDOWS_MOST }
    requires searched { AreSearched start.now }
    ensures next { IfOk result (λ found. AreNext start.now 1 found.items) }
    ensures value { IfOk result (λ found. value_of_windows table.now fixed.now start.now ≤ℤ value_of_windows table.now fixed.now found.items) }
    ensures additions { IfOk result (λ found. BeatAdditions table.now fixed.now (dues_of (units_of table.now)) start.now found.items) }
{
    let steps = sorted_steps(alloc, table, fixed, start)?;
    let mut sweep = CostSweep::new(alloc, &steps)?;
    let mut best = None;
    'dues: loop {
        match sweep.next_due() {
            Some(due) => best = or_added_at(table, &sweep, start, due, best),
            None => return Ok(with_best(table, fixed, start, best)),
        }
    }
}

/// The best addition so far, or the best one at the last due time of a sweep, where no window ends at it.
fn or_added_at(
    table: &Table,
    sweep: &CostSweep<'_>,
    start: &[Window],
    due: u64,
    so_far: Option<Addition>,
) -> Option<Addition>
    requires valid { IsValidTable table.now }
    requires sweep { IsSweep sweep.now }
    ensures { (fixed : List (Option ℕ)) (dues : List ℕ) → AreStepsOf table.now fixed start.now sweep.now.steps.now → HasReached due sweep.now
        → IsBestAddition table.now fixed start.now dues so_far → IsBestAddition table.now fixed start.now (dues ++ due ∷ []) result }
{
    if end_at(start, due) {
        return so_far;
    }
    Some(greater_of(so_far, added_at(table, sweep, due)))
}

/// Whether one of some windows ends at a time.
fn end_at(windows: &[Window], time: u64) -> bool
    ensures yes { result ≡ true → EndAt windows.now time }
    ensures no { result ≡ false → All (λ window. window.due ≢ time) windows.now }
{
    for window in windows {
        if window.due == time {
            return true;
        }
    }
    false
}

/// The best addition at the last due time of a sweep.
fn added_at(table: &Table, sweep: &CostSweep<'_>, due: u64) -> Addition
    requires valid { IsValidTable table.now }
    requires sweep { IsSweep sweep.now }
    ensures due { result.due ≡ due }
    ensures lambda { result.lambda ≤ LAMBDA_MOST }
    ensures value { (fixed : List (Option ℕ)) (windows : List Window) → AreStepsOf table.now fixed windows sweep.now.steps.now → HasReached due sweep.now
        → IsValuedBeside table.now fixed windows result }
    ensures best { (fixed : List (Option ℕ)) (windows : List Window) (lambda : ℕ) → AreStepsOf table.now fixed windows sweep.now.steps.now → HasReached due sweep.now
        → lambda ≤ LAMBDA_MOST → value_beside table.now fixed windows 0 due lambda ≤ℤ value_beside table.now fixed windows 0 due result.lambda }
{
    let capacity = window_capacity(table, 0, due);
    let lambda = swept_lambda(sweep, capacity);
    Addition {
        due,
        lambda,
        value: swept_value(sweep, capacity, lambda),
    }
}

/// The one of two additions of greater value.
fn greater_of(a: Option<Addition>, b: Addition) -> Addition
    ensures one { (a ≡ Some result) ⊎ (result ≡ b) }
    ensures first { IfSome a (λ first. first.value ≤ℤ result.value) }
    ensures second { b.value ≤ℤ result.value }
{
    match a {
        Some(first) => greater_of_both(first, b),
        None => b,
    }
}

/// The one of two additions of greater value.
fn greater_of_both(a: Addition, b: Addition) -> Addition
    ensures one { (result ≡ a) ⊎ (result ≡ b) }
    ensures first { a.value ≤ℤ result.value }
    ensures second { b.value ≤ℤ result.value }
{
    if a.value < b.value { b } else { a }
}

/// Some windows with the best addition, if there is one and it gains.
fn with_best(table: &Table, fixed: &Fixed, start: &[Window], best: Option<Addition>) -> Windows
    requires valid { IsValidTable table.now }
    requires fixed { FixesVersions table.now fixed.now }
    requires few { length start.now < WINDOWS_MOST }
    requires searched { AreSearched start.now }
    requires best { IfSome best (IsAdditionTo start.now) }
    ensures next { AreNext start.now 1 result.items }
    ensures value { value_of_windows table.now fixed.now start.now ≤ℤ value_of_windows table.now fixed.now result.items }
    ensures added { IfSome best (λ added. value_beside table.now fixed.now start.now 0 added.due added.lambda ≤ℤ value_of_windows table.now fixed.now result.items) }
{
    match best {
        Some(added) => with_added(table, fixed, start, added),
        None => copied(start),
    }
}

/// Some windows with an addition, if it gains.
fn with_added(table: &Table, fixed: &Fixed, start: &[Window], added: Addition) -> Windows
    requires valid { IsValidTable table.now }
    requires fixed { FixesVersions table.now fixed.now }
    requires few { length start.now < WINDOWS_MOST }
    requires searched { AreSearched start.now }
    requires added { IsAdditionTo start.now added }
    ensures next { AreNext start.now 1 result.items }
    ensures value { value_of_windows table.now fixed.now start.now ≤ℤ value_of_windows table.now fixed.now result.items }
    ensures added { value_beside table.now fixed.now start.now 0 added.due added.lambda ≤ℤ value_of_windows table.now fixed.now result.items }
{
    let window = Window {
        from: 0,
        due: added.due,
        lambda: added.lambda,
    };
    let place = place_of(start, window);
    let wider = inserted(start, place, window);
    of_greater_value(table, fixed, copied(start), wider)
}
