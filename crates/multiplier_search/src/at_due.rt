ghost use Rattle.std.specs.Prelude.{◌≡◌, ◌<◌, ◌≤◌, ℕ, List, Option, pos, neg_ℤ, ◌^◌, ◌+ℤ◌, ◌*ℤ◌, ◌≤ℤ◌};
ghost use Rattle.version_table.specs.declared.table.Table.{Table as TableOfUnits};
ghost use Rattle.dual_bounds.specs.declared.constants.TheConstants.{LAMBDA_MOST};
ghost use Rattle.dual_bounds.specs.declared.windows.Window.{Window};
ghost use Rattle.dual_bounds.specs.Room.{room};
ghost use Rattle.dual_bounds.specs.Values.{worth};
ghost use Rattle.cost_sweep.specs.Sweep.{HasReached, IsSweep};
ghost use Rattle.multiplier_search.specs.Private.Lambda.{EndsRise, RisesTo, value_beside};
ghost use Rattle.multiplier_search.specs.Private.UnitSteps.{AreAtWindow, AreFree, AreStepsOf};

use crate::meeting::Lines;
use cost_sweep::{CostSweep, Costs};
use dual_bounds::constants::LAMBDA_MOST;

/// The least lambda with the greatest value at the last due time of a sweep, beside the windows that it stands on: values rise up to it and no more, since each
/// rise is at most the one before.
pub fn swept_lambda(sweep: &CostSweep<'_>, capacity: i64) -> u64
    requires { IsSweep sweep.now }
    ensures most { result ≤ LAMBDA_MOST }
    ensures rises { (table : TableOfUnits) (fixed : List (Option ℕ)) (windows : List Window) (due : ℕ) → AreStepsOf table fixed windows sweep.now.steps.now
        → HasReached due sweep.now → capacity ≡ room table 0 due → RisesTo (value_beside table fixed windows 0 due) result }
    ensures ends { (table : TableOfUnits) (fixed : List (Option ℕ)) (windows : List Window) (due : ℕ) → AreStepsOf table fixed windows sweep.now.steps.now
        → HasReached due sweep.now → capacity ≡ room table 0 due → EndsRise (value_beside table fixed windows 0 due) result }
{
    let mut low = 0;
    let mut high = LAMBDA_MOST;
    let mut lines = Lines::near(near_peak(sweep, capacity));
    while low < high {
        let middle = lines.next_try(low, high);
        let value = swept_value(sweep, capacity, middle);
        let next = swept_value(sweep, capacity, middle + 1);
        if value < next {
            low = middle + 1;
            lines = lines.behind_rise(value, next);
        } else {
            high = middle;
            lines = lines.before_fall(value, next);
        }
    }
    low
}

/// Near the lambda with the greatest value at the last due time of a sweep: before the first price at which no more packets are due than there is room for.
fn near_peak(sweep: &CostSweep<'_>, capacity: i64) -> u64
    requires { IsSweep sweep.now }
{
    let over = i128::from(sweep.packets()) - i128::from(capacity);
    if over <= 0 {
        return 0;
    }
    match sweep.price_over(over as u128 - 1) {
        Some(price) => price.saturating_sub(1),
        None => LAMBDA_MOST,
    }
}

/// The value of a lambda at the last due time of a sweep, where the room up to it is this, and what the windows that the sweep
/// stands on are worth.
pub fn swept_value(sweep: &CostSweep<'_>, capacity: i64, lambda: u64) -> i128
    requires sweep { IsSweep sweep.now }
    requires lambda { lambda ≤ LAMBDA_MOST }
    ensures { (table : TableOfUnits) (fixed : List (Option ℕ)) (windows : List Window) (due : ℕ) → AreStepsOf table fixed windows sweep.now.steps.now
        → HasReached due sweep.now → capacity ≡ room table 0 due → result ≡ value_beside table fixed windows 0 due lambda +ℤ worth table windows }
{
    let costs = sweep.costs(lambda);
    costs.paid as i128 - costs.spared as i128 - worth_of(capacity, lambda)
}

/// The least lambda with which the window between two sweeps has the greatest value: the last due time of one is its end, and
/// that of the other the tick before its beginning. Given are what the units cost where no packet has a price, and its room.
pub fn between_lambda(
    last: &CostSweep<'_>,
    before: &CostSweep<'_>,
    free: Costs,
    capacity: i64,
) -> u64
    requires last { IsSweep last.now }
    requires before { IsSweep before.now }
    requires paid { free.paid < 2 ^ 110 }
    requires spared { free.spared < 2 ^ 110 }
    ensures most { result ≤ LAMBDA_MOST }
    ensures rises { (table : TableOfUnits) (fixed : List (Option ℕ)) (windows : List Window) (from due : ℕ) → AreAtWindow table fixed windows from due last.now before.now
        → AreFree table fixed windows due free → capacity ≡ room table from due → RisesTo (value_beside table fixed windows from due) result }
    ensures ends { (table : TableOfUnits) (fixed : List (Option ℕ)) (windows : List Window) (from due : ℕ) → AreAtWindow table fixed windows from due last.now before.now
        → AreFree table fixed windows due free → capacity ≡ room table from due → EndsRise (value_beside table fixed windows from due) result }
{
    let mut low = 0;
    let mut high = LAMBDA_MOST;
    let mut lines = Lines::near(0);
    while low < high {
        let middle = lines.next_try(low, high);
        let value = between_value(last, before, free, capacity, middle);
        let next = between_value(last, before, free, capacity, middle + 1);
        if value < next {
            low = middle + 1;
            lines = lines.behind_rise(value, next);
        } else {
            high = middle;
            lines = lines.before_fall(value, next);
        }
    }
    low
}

/// The value of a lambda of the window between two sweeps: what the units cost under it is what they cost under one from time
/// 0 on to its end, less what they cost under one to the tick before it, and what they cost where no packet has a price. With it is
/// what the windows that the sweeps stand on are worth.
pub fn between_value(
    last: &CostSweep<'_>,
    before: &CostSweep<'_>,
    free: Costs,
    capacity: i64,
    lambda: u64,
) -> i128
    requires last { IsSweep last.now }
    requires before { IsSweep before.now }
    requires paid { free.paid < 2 ^ 110 }
    requires spared { free.spared < 2 ^ 110 }
    requires lambda { lambda ≤ LAMBDA_MOST }
    ensures { (table : TableOfUnits) (fixed : List (Option ℕ)) (windows : List Window) (from due : ℕ) → AreAtWindow table fixed windows from due last.now before.now
        → AreFree table fixed windows due free → capacity ≡ room table from due
        → result ≡ value_beside table fixed windows from due lambda +ℤ worth table windows }
{
    let costs = last.costs(lambda);
    let early = before.costs(lambda);
    let added = costs.paid + free.paid + early.spared;
    let taken = costs.spared + free.spared + early.paid;
    added as i128 - taken as i128 - worth_of(capacity, lambda)
}

/// What a capacity is worth.
fn worth_of(capacity: i64, lambda: u64) -> i128
    requires { lambda ≤ LAMBDA_MOST }
    ensures value { result ≡ pos lambda *ℤ capacity }
    ensures low { neg_ℤ (pos (2 ^ 103)) ≤ℤ result }
    ensures high { result ≤ℤ pos (2 ^ 103) }
{
    i128::from(lambda) * i128::from(capacity)
}
