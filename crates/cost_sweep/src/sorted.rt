ghost use Rattle.std.specs.Prelude.{◌≡◌, ◌<◌, ◌≤◌, ◌^◌, All, IfOk, MatchOption, length, slice_index};
ghost use Rattle.std.specs.List.{Contains};
ghost use Rattle.std.specs.List.Sorted.{IsNonDecreasing, IsPermutation, IsStrictlyIncreasing};
ghost use Rattle.cost_sweep.specs.Places.{IsPlaceBehind};
ghost use Rattle.cost_sweep.specs.Private.Before.{IsPlaceBefore};
ghost use Rattle.cost_sweep.specs.Sorted.{AreSorted};
ghost use Rattle.cost_sweep.specs.Steps.{AreSmall};

use crate::step::CostStep;
use list_types::OutOfMemory;
use std::alloc::Global;

/// Steps in the order of their due times, and their order by rising price. Several sweeps may go over the same.
#[derive(Drop)]
pub struct SortedSteps {
    /// All steps, in the order of their due times.
    pub(crate) steps: Vec<CostStep>,
    /// The prices from which on steps count, each once, in rising order.
    pub(crate) prices: Vec<u64>,
}

impl SortedSteps {
    /// Some steps in order. Fails only for want of memory.
    pub fn new(alloc: Global, steps: Vec<CostStep>) -> Result<SortedSteps, OutOfMemory>
        requires { AreSmall steps.items }
        ensures sorted { IfOk result (λ sorted. AreSorted sorted.steps.items sorted.prices.items) }
        ensures steps { IfOk result (λ sorted. IsPermutation steps.items sorted.steps.items) }
    {
        let mut steps = steps;
        steps.sort_by_key(|step| step.due)?;
        let prices = prices_of(alloc, steps.as_slice())?;
        Ok(SortedSteps { steps, prices })
    }
}

/// The prices from which on steps count, each once, in rising order. Fails only for want of memory.
fn prices_of(alloc: Global, steps: &[CostStep]) -> Result<Vec<u64>, OutOfMemory>
    ensures rise { IfOk result (λ prices. IsStrictlyIncreasing prices.items) }
    ensures all { IfOk result (λ prices. All (λ step. Contains prices.items step.from) steps.now) }
    ensures count { IfOk result (λ prices. length prices.items ≤ length steps.now) }
{
    let mut prices = Vec::new(alloc);
    for step in steps {
        prices.push(step.from)?;
    }
    prices.sort_unstable();
    prices.dedup();
    Ok(prices)
}

/// How many prices are less than one.
pub fn place_before(prices: &[u64], price: u64) -> usize
    requires { IsNonDecreasing prices.now }
    ensures { IsPlaceBefore prices.now price result }
{
    prices.partition_point(|other| *other < price)
}

/// How many prices are at most one.
pub fn place_behind(prices: &[u64], price: u64) -> usize
    requires { IsNonDecreasing prices.now }
    ensures { IsPlaceBehind prices.now price result }
{
    prices.partition_point(|other| *other <= price)
}

/// The price at a place, if there is one.
pub fn price_at(prices: &[u64], place: usize) -> Option<u64>
    ensures { MatchOption result (length prices.now ≤ place) (λ price. (place < length prices.now) × (price ≡ slice_index prices.now place)) }
{
    if place < prices.len() {
        Some(prices[place])
    } else {
        None
    }
}

/// Levels of a tree with more places than these.
pub fn height_for(places: usize) -> u32
    requires { places < 2 ^ 39 }
    ensures few { result ≤ 40 }
    ensures room { places < 2 ^ result }
{
    let mut height = 0;
    let mut room = 1;
    while room <= places {
        room *= 2;
        height += 1;
    }
    height
}
