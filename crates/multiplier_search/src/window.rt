ghost use Rattle.std.specs.Prelude.{◌≡◌, ◌<◌, ◌≤◌, List, Option, ℕ, ◌+◌, [], ◌∷◌, length, IfOk, ◌≤ℤ◌};
ghost use Rattle.version_table.specs.declared.table.Table.{Table as TableOfUnits};
ghost use Rattle.version_table.specs.Table.{IsValidTable, units_of};
ghost use Rattle.dual_bounds.specs.declared.constants.TheConstants.{LAMBDA_MOST};
ghost use Rattle.dual_bounds.specs.Fixed.{FixesVersions};
ghost use Rattle.cost_sweep.specs.Sorted.{AreSorted};
ghost use Rattle.cost_sweep.specs.Sweep.{HasReached, IsSweep};
ghost use Rattle.multiplier_search.specs.Private.Lambda.{value_at};
ghost use Rattle.multiplier_search.specs.Private.Lengths.{HasItsValue, IsBehindBy, Outdoes};
ghost use Rattle.multiplier_search.specs.Private.UnitSteps.{AreAtWindow, AreStepsOf};
ghost use Rattle.multiplier_search.specs.Single.{dues_of, value_alone};
ghost use Rattle.multiplier_search.specs.Windows.{AreSearched, BeatEachTried, IsSound};

use crate::all_steps::sorted_steps;
use crate::at_due::{between_lambda, between_value};
use crate::constants::{LONG_WINDOW_TICKS, SHORT_WINDOW_TICKS};
use crate::lambda::value_at;
use crate::single::best_over;
use cost_sweep::{CostSweep, SortedSteps};
use dual_bounds::{Fixed, Multiplier, Window, Windows, window_capacity};
use list_types::OutOfMemory;
use std::alloc::Global;
use version_table::Table;

/// A window and its value alone.
#[derive(Clone, Copy)]
struct ValuedWindow {
    window: Window,
    value: i128,
}

/// At most one window, whose value is at least that of each that is tried alone: at a unit's due time with a lambda from 0
/// to 2^40, beginning at the start, at the due time, or half a second or two seconds before it. Fails only for want of memory.
pub fn best_window(alloc: Global, table: &Table, fixed: &Fixed) -> Result<Windows, OutOfMemory>
    requires valid { IsValidTable table.now }
    requires fixed { FixesVersions table.now fixed.now }
    ensures few { IfOk result (λ found. length found.items ≤ 1) }
    ensures searched { IfOk result (λ found. AreSearched found.items) }
    ensures best { IfOk result (λ found. BeatEachTried table.now fixed.now (dues_of (units_of table.now)) found.items) }
{
    let steps = sorted_steps(alloc, table, fixed, &[])?;
    let single = best_over(alloc, table, &steps)?;
    if single.len() == 0 {
        return Ok(Windows::new());
    }
    let start = from_start(table, fixed, single.as_slice()[0]);
    let late = best_of_length(alloc, table, &steps, 0, start)?;
    let short = best_of_length(alloc, table, &steps, SHORT_WINDOW_TICKS, late)?;
    let long = best_of_length(alloc, table, &steps, LONG_WINDOW_TICKS, short)?;
    Ok(only(long.window))
}

/// One window.
fn only(window: Window) -> Windows
    ensures { result.items ≡ window ∷ [] }
{
    let mut found = Windows::new();
    found.push(window);
    found
}

/// A multiplier as a window from time 0 on, with its value.
fn from_start(table: &Table, fixed: &Fixed, multiplier: Multiplier) -> ValuedWindow
    requires valid { IsValidTable table.now }
    requires fixed { FixesVersions table.now fixed.now }
    requires lambda { multiplier.lambda ≤ LAMBDA_MOST }
    ensures sound { IsSound result.window }
    ensures value { HasItsValue table.now fixed.now result }
    ensures alone { result.value ≡ value_alone table.now fixed.now multiplier }
{
    let window = Window {
        from: 0,
        due: multiplier.due,
        lambda: multiplier.lambda,
    };
    ValuedWindow {
        window,
        value: value_at(table, fixed, 0, multiplier.due, multiplier.lambda),
    }
}

/// The window of greatest value among one and all that begin so many ticks before a unit's due time, at which they end, and
/// behind time 0. Given are the steps of all units. Fails only for want of memory.
fn best_of_length(
    alloc: Global,
    table: &Table,
    steps: &SortedSteps,
    ticks: u64,
    start: ValuedWindow,
) -> Result<ValuedWindow, OutOfMemory>
    requires valid { IsValidTable table.now }
    requires sorted { AreSorted steps.now.steps.items steps.now.prices.items }
    requires sound { IsSound start.window }
    ensures sound { IfOk result (λ best. IsSound best.window) }
    ensures best { IfOk result (λ best. (fixed : List (Option ℕ)) → AreStepsOf table.now fixed [] steps.now.steps.items → HasItsValue table.now fixed start
        → Outdoes table.now fixed ticks (dues_of (units_of table.now)) start best) }
{
    let mut last = CostSweep::new(alloc, steps)?;
    let mut before = CostSweep::new(alloc, steps)?;
    let mut best = start;
    'dues: loop {
        match last.next_due() {
            Some(due) => best = or_at_due(table, &last, &mut before, ticks, due, best),
            None => return Ok(best),
        }
    }
}

/// The best so far, or the best window that ends at the last due time of a sweep and begins so many ticks before it, behind
/// time 0. The other sweep goes on to the tick before it.
fn or_at_due(
    table: &Table,
    last: &CostSweep<'_>,
    before: &mut CostSweep<'_>,
    ticks: u64,
    due: u64,
    so_far: ValuedWindow,
) -> ValuedWindow
    requires valid { IsValidTable table.now }
    requires last { IsSweep last.now }
    requires before { IsSweep before.old }
    requires behind { IsBehindBy ticks due before.old }
    requires sound { IsSound so_far.window }
    ensures before { IsSweep before.new }
    ensures steps { before.new.steps.now ≡ before.old.steps.now }
    ensures behind { IsBehindBy ticks due before.new }
    ensures sound { IsSound result.window }
    ensures best { (fixed : List (Option ℕ)) → AreStepsOf table.now fixed [] last.now.steps.now → AreStepsOf table.now fixed [] before.old.steps.now
        → HasReached due last.now → HasItsValue table.now fixed so_far → Outdoes table.now fixed ticks (due ∷ []) so_far result }
{
    if due <= ticks {
        return so_far;
    }
    let from = due - ticks;
    before.go_to(from - 1);
    let own = best_between(table, last, before, from, due);
    greater_of(so_far, own)
}

/// The one of two windows of greater value.
fn greater_of(a: ValuedWindow, b: ValuedWindow) -> ValuedWindow
    requires first { IsSound a.window }
    requires second { IsSound b.window }
    ensures sound { IsSound result.window }
    ensures first { a.value ≤ℤ result.value }
    ensures second { b.value ≤ℤ result.value }
    ensures value { (table : TableOfUnits) (fixed : List (Option ℕ)) → HasItsValue table fixed a → HasItsValue table fixed b → HasItsValue table fixed result }
{
    if a.value < b.value { b } else { a }
}

/// The best window between two sweeps, from one time to another.
fn best_between(
    table: &Table,
    last: &CostSweep<'_>,
    before: &CostSweep<'_>,
    from: u64,
    due: u64,
) -> ValuedWindow
    requires valid { IsValidTable table.now }
    requires last { IsSweep last.now }
    requires before { IsSweep before.now }
    requires order { from ≤ due }
    ensures sound { IsSound result.window }
    ensures value { (fixed : List (Option ℕ)) → AreAtWindow table.now fixed [] from due last.now before.now → HasItsValue table.now fixed result }
    ensures best { (fixed : List (Option ℕ)) (lambda : ℕ) → AreAtWindow table.now fixed [] from due last.now before.now → lambda ≤ LAMBDA_MOST
        → value_at table.now fixed from due lambda ≤ℤ result.value }
{
    let free = last.costs(0);
    let capacity = window_capacity(table, from, due);
    let lambda = between_lambda(last, before, free, capacity);
    ValuedWindow {
        window: Window { from, due, lambda },
        value: between_value(last, before, free, capacity, lambda),
    }
}
