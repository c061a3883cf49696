ghost use Rattle.std.specs.Prelude.{◌≡◌, ◌++◌, ◌≤◌, List, Option, ℕ, [], ◌∷◌, IfOk, IsTrue, ◌↔◌, MatchOption};
ghost use Rattle.version_table.specs.declared.table.Table.{Table as TableOfUnits};
ghost use Rattle.version_table.specs.Table.{IsValidTable};
ghost use Rattle.dual_bounds.specs.Fixed.{FixesVersions};
ghost use Rattle.cost_sweep.specs.Sorted.{AreSorted};
ghost use Rattle.cost_sweep.specs.Sweep.{HasReached, IsSweep};
ghost use Rattle.multiplier_search.specs.Private.Lambda.{GoesFirst};
ghost use Rattle.multiplier_search.specs.Private.UnitSteps.{AreStepsOf, IsBestValued, IsBetterValued};
ghost use Rattle.multiplier_search.specs.Single.{IsBestSingle};

use crate::all_steps::sorted_steps;
use crate::at_due::{swept_lambda, swept_value};
use cost_sweep::{CostSweep, SortedSteps};
use dual_bounds::{Fixed, Multiplier, Multipliers, window_capacity};
use list_types::OutOfMemory;
use std::alloc::Global;
use version_table::Table;

/// A multiplier and its value alone.
#[derive(Clone, Copy)]
struct Valued {
    multiplier: Multiplier,
    value: i128,
}

/// The first best multiplier alone: of all at a unit's due time with a lambda from 0 to 2^40 it has the greatest value,
/// then the least due time, then the least lambda. Empty where there is no unit. Fails only for want of memory.
pub fn best_single(alloc: Global, table: &Table, fixed: &Fixed) -> Result<Multipliers, OutOfMemory>
    requires valid { IsValidTable table.now }
    requires fixed { FixesVersions table.now fixed.now }
    ensures { IfOk result (λ found. IsBestSingle table.now fixed.now found.items) }
{
    let steps = sorted_steps(alloc, table, fixed, &[])?;
    best_over(alloc, table, &steps)
}

/// The same, over the steps of all units. Fails only for want of memory.
pub fn best_over(
    alloc: Global,
    table: &Table,
    steps: &SortedSteps,
) -> Result<Multipliers, OutOfMemory>
    requires valid { IsValidTable table.now }
    requires sorted { AreSorted steps.now.steps.items steps.now.prices.items }
    ensures { IfOk result (λ found. (fixed : List (Option ℕ)) → AreStepsOf table.now fixed [] steps.now.steps.items → IsBestSingle table.now fixed found.items) }
{
    let mut sweep = CostSweep::new(alloc, steps)?;
    let mut best = None;
    'dues: loop {
        match sweep.next_due() {
            Some(due) => best = Some(first_of(best, best_at(table, &sweep, due))),
            None => return Ok(found_of(best)),
        }
    }
}

/// The multiplier that was found, if any.
fn found_of(best: Option<Valued>) -> Multipliers
    ensures { MatchOption best (result.items ≡ []) (λ valued. result.items ≡ valued.multiplier ∷ []) }
{
    match best {
        Some(valued) => only(valued.multiplier),
        None => Multipliers::new(),
    }
}

/// One multiplier.
fn only(multiplier: Multiplier) -> Multipliers
    ensures { result.items ≡ multiplier ∷ [] }
{
    let mut found = Multipliers::new();
    found.push(multiplier);
    found
}

/// The first best of two that are the first best each of its due times.
fn first_of(a: Option<Valued>, b: Valued) -> Valued
    ensures { (table : TableOfUnits) (fixed : List (Option ℕ)) (dues more : List ℕ) → IsBestValued table fixed dues a
        → IsBestValued table fixed more (Some b) → IsBestValued table fixed (dues ++ more) (Some result) }
{
    match a {
        Some(first) => better_of(first, b),
        None => b,
    }
}

/// The one of two multipliers that is no worse.
fn better_of(a: Valued, b: Valued) -> Valued
    ensures { IsBetterValued a b result }
{
    if a.value < b.value || (a.value == b.value && goes_before(b.multiplier, a.multiplier)) {
        b
    } else {
        a
    }
}

/// Whether a multiplier is due earlier than another, or at the same time with a lesser lambda.
fn goes_before(a: Multiplier, b: Multiplier) -> bool
    ensures { IsTrue result ↔ GoesFirst a b }
{
    a.due < b.due || (a.due == b.due && a.lambda < b.lambda)
}

/// The first best multiplier at the last due time of a sweep, and its value.
fn best_at(table: &Table, sweep: &CostSweep<'_>, due: u64) -> Valued
    requires valid { IsValidTable table.now }
    requires sweep { IsSweep sweep.now }
    ensures { (fixed : List (Option ℕ)) → AreStepsOf table.now fixed [] sweep.now.steps.now → HasReached due sweep.now
        → IsBestValued table.now fixed (due ∷ []) (Some result) }
{
    let capacity = window_capacity(table, 0, due);
    let lambda = swept_lambda(sweep, capacity);
    Valued {
        multiplier: Multiplier { due, lambda },
        value: swept_value(sweep, capacity, lambda),
    }
}
