ghost use Rattle.std.specs.Prelude.{◌≡◌, ℕ, ◌+◌, ◌<◌, ◌≤◌, ◌^◌, length, sum_by, cond, nat_le, take, IfOk, IsTrue, ◌↔◌, MatchOption, slice_index_or};
ghost use Rattle.cost_sweep.specs.declared.step.CostStep.{CostStep as Step};
ghost use Rattle.cost_sweep.specs.Sorted.{AreSorted};
ghost use Rattle.cost_sweep.specs.Steps.{AreSmall, paid_by, spared_by};
ghost use Rattle.cost_sweep.specs.Sweep.{HasReached, IsFirstOver, IsSweep, WentOn, counted, fewer_at};

use crate::sorted::{SortedSteps, height_for, place_before, place_behind, price_at};
use crate::step::CostStep;
use list_types::OutOfMemory;
use std::alloc::Global;
use sum_tree::SumTree;

/// The least costs of some units, at one due time after the other.
#[derive(Drop)]
pub struct CostSweep<'a> {
    /// All steps, in the order of their due times.
    steps: &'a [CostStep],
    /// The prices from which on steps count, in rising order.
    prices: &'a [u64],
    /// How many of the steps are due.
    place: usize,
    /// What the due steps add, at the places of their prices.
    rises: SumTree,
    /// The packets fewer of the due steps, at the places of their prices.
    fewer: SumTree,
    /// The packets that the due steps pay at each price.
    packets: u64,
    /// What the steps that aren't due cost.
    rest: u128,
}

/// What steps come to.
#[derive(Clone, Copy, Debug, Default, PartialEq)]
pub struct Costs {
    /// What they add, in 1/256 of a distortion.
    pub paid: u128,
    /// What they take, in 1/256 of a distortion.
    pub spared: u128,
}

impl<'a> CostSweep<'a> {
    /// Before the first due time of some steps. Fails only for want of memory.
    pub fn new(alloc: Global, sorted: &'a SortedSteps) -> Result<CostSweep<'a>, OutOfMemory>
        requires { AreSorted sorted.now.steps.items sorted.now.prices.items }
        ensures sweep { IfOk result IsSweep }
        ensures start { IfOk result (λ sweep. sweep.place ≡ 0) }
        ensures steps { IfOk result (λ sweep. sweep.steps.now ≡ sorted.now.steps.items) }
    {
        let steps = sorted.steps.as_slice();
        let prices = sorted.prices.as_slice();
        let height = height_for(prices.len());
        let rises = SumTree::new(alloc, height)?;
        let fewer = SumTree::new(alloc, height)?;
        Ok(CostSweep {
            steps,
            prices,
            place: 0,
            rises,
            fewer,
            packets: 0,
            rest: rise_at_0(steps),
        })
    }

    /// Goes on to the next due time, and answers it; none where all steps are due.
    pub fn next_due(&mut self) -> Option<u64>
        requires { IsSweep self.old }
        ensures sweep { IsSweep self.new }
        ensures steps { self.new.steps.now ≡ self.old.steps.now }
        ensures next { MatchOption result (length self.old.steps.now ≤ self.old.place) (λ due. WentOn self.old.place due self.new) }
        ensures none { MatchOption result (self.new.place ≡ self.old.place) (λ due. self.old.place < length self.old.steps.now) }
    {
        if self.place >= self.steps.len() {
            return None;
        }
        let due = due_at(self.steps, self.place);
        self.go_to(due);
        Some(due)
    }

    /// Goes on to a time: behind all steps that are due by it. None of those behind which the sweep stands is due later.
    pub fn go_to(&mut self, due: u64)
        requires sweep { IsSweep self.old }
        requires order { (k : ℕ) (d : Step) → k < self.old.place → (slice_index_or self.old.steps.now k d).due ≤ due }
        ensures sweep { IsSweep self.new }
        ensures steps { self.new.steps.now ≡ self.old.steps.now }
        ensures reached { HasReached due self.new }
    {
        while self.has_due(due) {
            self.take();
        }
    }

    /// What all steps come to where packets that are due by the last due time have this price, and the others none.
    pub fn costs(&self, price: u64) -> Costs
        requires sweep { IsSweep self.now }
        requires price { price ≤ 2 ^ 46 }
        ensures paid { (due : ℕ) → HasReached due self.now → result.paid ≡ sum_by (paid_by due price) self.now.steps.now }
        ensures spared { (due : ℕ) → HasReached due self.now → result.spared ≡ sum_by (spared_by due price) self.now.steps.now }
        ensures paid_small { result.paid < 2 ^ 110 }
        ensures spared_small { result.spared < 2 ^ 110 }
    {
        let place = place_behind(self.prices, price);
        let rises = self.rises.sum_of_first(place);
        let fewer = self.fewer.sum_of_first(place);
        Costs {
            paid: rises + self.rest + u128::from(self.packets) * u128::from(price),
            spared: fewer * u128::from(price),
        }
    }

    /// The packets that the due steps pay at each price.
    pub fn packets(&self) -> u64
        requires { IsSweep self.now }
        ensures { result ≡ sum_by (λ step. step.packets) (take self.now.place self.now.steps.now) }
    {
        self.packets
    }

    /// The least price at which the due steps have more packets fewer than these; none where they have at no price.
    pub fn price_over(&self, fewer: u128) -> Option<u64>
        requires { IsSweep self.now }
        ensures { MatchOption result ((price : ℕ) → fewer_at self.now price ≤ fewer) (IsFirstOver self.now fewer) }
    {
        let place = self.fewer.count_within(fewer);
        price_at(self.prices, place)
    }

    /// Whether the next step is due by a time.
    fn has_due(&self, due: u64) -> bool
        ensures { IsTrue result ↔ ((self.now.place < length self.now.steps.now) × ((d : Step) → (slice_index_or self.now.steps.now self.now.place d).due ≤ due)) }
    {
        self.place < self.steps.len() && due_at(self.steps, self.place) <= due
    }

    /// Takes the next step.
    fn take(&mut self)
        requires sweep { IsSweep self.old }
        requires more { self.old.place < length self.old.steps.now }
        ensures sweep { IsSweep self.new }
        ensures place { self.new.place ≡ self.old.place + 1 }
        ensures steps { self.new.steps.now ≡ self.old.steps.now }
    {
        let step = step_at(self.steps, self.place);
        let place = place_before(self.prices, step.from);
        self.rises.add(place, u128::from(step.rise));
        self.fewer.add(place, u128::from(step.fewer));
        self.packets += u64::from(step.packets);
        self.rest -= u128::from(own_at_0(step));
        self.place += 1;
    }
}

/// A step.
fn step_at(steps: &[CostStep], place: usize) -> CostStep
    requires { place < length steps.now }
    ensures { (d : Step) → result ≡ slice_index_or steps.now place d }
{
    steps[place]
}

/// When a step is due.
fn due_at(steps: &[CostStep], place: usize) -> u64
    requires { place < length steps.now }
    ensures { (d : Step) → result ≡ (slice_index_or steps.now place d).due }
{
    steps[place].due
}

/// What steps add at price 0.
fn rise_at_0(steps: &[CostStep]) -> u128
    requires { AreSmall steps.now }
    ensures { result ≡ sum_by (counted (λ step. step.rise) 0) steps.now }
{
    let mut total = 0;
    for step in steps {
        total += u128::from(own_at_0(*step));
    }
    total
}

/// What a step adds at price 0.
fn own_at_0(step: CostStep) -> u64
    ensures { result ≡ counted (λ step. step.rise) 0 step }
{
    if step.from == 0 { step.rise } else { 0 }
}
