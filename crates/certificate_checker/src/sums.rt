ghost use Rattle.std.specs.Prelude.{◌≡◌, ◌≢◌, ℕ, ◌-◌, ◌*◌, ◌%◌, ◌<◌, ◌≤◌, ◌^◌, length, IfOk, vec_capacity};
ghost use Rattle.certificate_checker.specs.Private.PlaceSums.{AreSums, number_at, odd_at, odd_before};
ghost use Rattle.sum_tree.specs.Nodes.{sum_from};

use crate::filling::refill;
use list_types::OutOfMemory;
use std::alloc::Global;

/// Numbers at places, each of which may change, and the sum of those from one place to another in a logarithm of their count.
#[derive(Drop)]
pub(crate) struct PlaceSums {
    /// How many places there are.
    count: usize,
    /// The places are the nodes from the count on. Each node before them but the first is the sum of the nodes 2n and 2n + 1.
    nodes: Vec<u128>,
}

impl PlaceSums {
    /// Room for so many places. Fails only for want of memory.
    pub(crate) fn new(alloc: Global, most: usize) -> Result<PlaceSums, OutOfMemory>
        ensures { IfOk result (λ sums. 2 * most ≤ vec_capacity sums.nodes) }
    {
        let Some(nodes) = most.checked_mul(2) else {
            return Err(OutOfMemory);
        };
        Ok(PlaceSums {
            count: 0,
            nodes: Vec::with_capacity(alloc, nodes)?,
        })
    }

    /// Zeros at so many places.
    pub(crate) fn clear(&mut self, count: usize)
        requires { 2 * count ≤ vec_capacity self.old.nodes }
        ensures sums { AreSums self.new }
        ensures count { self.new.count ≡ count }
        ensures zeros { (place : ℕ) → number_at self.new place ≡ 0 }
        ensures room { vec_capacity self.new.nodes ≡ vec_capacity self.old.nodes }
    {
        refill(&mut self.nodes, 2 * count, 0);
        self.count = count;
    }

    /// Puts a number at a place.
    pub(crate) fn put(&mut self, place: usize, number: u64)
        requires sums { AreSums self.old }
        requires place { place < self.old.count }
        ensures sums { AreSums self.new }
        ensures count { self.new.count ≡ self.old.count }
        ensures own { number_at self.new place ≡ number }
        ensures others { (k : ℕ) → k ≢ place → number_at self.new k ≡ number_at self.old k }
        ensures room { vec_capacity self.new.nodes ≡ vec_capacity self.old.nodes }
    {
        let mut node = self.count + place;
        self.nodes[node] = u128::from(number);
        while node > 1 {
            node /= 2;
            self.nodes[node] = self.nodes[2 * node] + self.nodes[2 * node + 1];
        }
    }

    /// The sum of the numbers from one place up to another.
    pub(crate) fn between(&self, from: usize, end: usize) -> u128
        requires sums { AreSums self.now }
        requires from { from ≤ end }
        requires end { end ≤ self.now.count }
        ensures { result ≡ sum_from (number_at self.now) from (end - from) }
    {
        let nodes = self.nodes.as_slice();
        let mut low = self.count + from;
        let mut high = self.count + end;
        let mut total = 0;
        while low < high {
            total += odd_at(nodes, low) + odd_before(nodes, high);
            low = (low + 1) / 2;
            high /= 2;
        }
        total
    }
}

/// A node that is the right one of two, else 0.
fn odd_at(nodes: &[u128], low: usize) -> u128
    requires { low < length nodes.now }
    ensures { result ≡ odd_at nodes.now low }
{
    if low % 2 == 1 { nodes[low] } else { 0 }
}

/// The node before one that is the right one of two, else 0.
fn odd_before(nodes: &[u128], high: usize) -> u128
    requires { high ≤ length nodes.now }
    ensures { result ≡ odd_before nodes.now high }
{
    if high % 2 == 1 { nodes[high - 1] } else { 0 }
}
