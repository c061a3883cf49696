ghost use Rattle.std.specs.Prelude.{◌≡◌, ℕ, ◌+◌, ◌*◌, ◌/◌, ◌%◌, ◌<◌, ◌≤◌, ◌^◌, nat_eq, cond, length, slice_index, IfOk};
ghost use Rattle.sum_tree.specs.Nodes.{IsSumTree, grown, sum_from};
ghost use Rattle.sum_tree.specs.Private.Way.{left_of};

use list_types::OutOfMemory;
use std::alloc::Global;

/// Numbers at places, of which each may grow. Contracts see the numbers.
#[derive(Drop)]
pub struct SumTree {
    /// Levels above the places, of which there are 2 to the power of the height.
    height: u32,
    /// The sum of the numbers below each node on the left. The root is node 1, and below node n are the nodes 2n and 2n + 1, of which those behind the last one
    /// are the places.
    nodes: Vec<u128>,
}

impl SumTree {
    /// Zeros at 2 to the power of `height` places. Fails only for want of memory.
    #[tactic(auto, using(crate::proofs::Powers::two_most))]
    pub fn new(alloc: Global, height: u32) -> Result<SumTree, OutOfMemory>
        requires { height ≤ 40 }
        ensures tree { IfOk result (λ tree. IsSumTree tree.height (λ place. 0) tree.nodes.items) }
        ensures height { IfOk result (λ tree. tree.height ≡ height) }
    {
        let nodes = vec![in alloc; 0; power_of_two(height)]?;
        Ok(SumTree { height, nodes })
    }

    /// The sum of the numbers at the first `count` places, fewer than all.
    pub fn sum_of_first(&self, count: usize) -> u128
        requires height { self.now.height ≤ 40 }
        requires tree { (number : ℕ → ℕ) × IsSumTree self.now.height number self.now.nodes.items × (sum_from number 0 (2 ^ self.now.height) < 2 ^ 128) }
        requires count { count < 2 ^ self.now.height }
        ensures { (number : ℕ → ℕ) → IsSumTree self.now.height number self.now.nodes.items → result ≡ sum_from number 0 count }
    {
        let nodes = self.nodes.as_slice();
        let mut node = nodes.len() + count;
        let mut total = 0;
        for _level in 0..self.height {
            total += left_of(nodes, node);
            node /= 2;
        }
        total
    }

    /// How many first numbers have a sum of at most this: the most of them, or all but the last.
    #[tactic(auto, using(crate::proofs::Powers::two_most))]
    pub fn count_within(&self, most: u128) -> usize
        requires height { self.now.height ≤ 40 }
        requires tree { (number : ℕ → ℕ) × IsSumTree self.now.height number self.now.nodes.items }
        ensures count { result < 2 ^ self.now.height }
        ensures within { (number : ℕ → ℕ) → IsSumTree self.now.height number self.now.nodes.items → sum_from number 0 result ≤ most }
        ensures more { (number : ℕ → ℕ) → IsSumTree self.now.height number self.now.nodes.items → result + 1 < 2 ^ self.now.height
            → most < sum_from number 0 (result + 1) }
    {
        let nodes = self.nodes.as_slice();
        let mut node = 1;
        let mut left = most;
        for _level in 0..self.height {
            let below = nodes[node];
            node *= 2;
            if below <= left {
                left -= below;
                node += 1;
            }
        }
        node - nodes.len()
    }

    /// Adds to the number at a place.
    #[tactic(auto, using(crate::proofs::Powers::two_most))]
    pub fn add(&mut self, place: usize, amount: u128)
        requires height { self.old.height ≤ 40 }
        requires place { place < 2 ^ self.old.height }
        requires tree { (number : ℕ → ℕ) × IsSumTree self.old.height number self.old.nodes.items × (sum_from number 0 (2 ^ self.old.height) + amount < 2 ^ 128) }
        ensures height { self.new.height ≡ self.old.height }
        ensures tree { (number : ℕ → ℕ) → IsSumTree self.old.height number self.old.nodes.items
            → IsSumTree self.new.height (grown number place amount) self.new.nodes.items }
    {
        let nodes: &mut [u128] = self.nodes.as_mut_slice();
        let mut node = nodes.len() + place;
        for _level in 0..self.height {
            add_above(nodes, node, amount);
            node /= 2;
        }
    }
}

/// 2 to a power.
fn power_of_two(power: u32) -> usize
    requires { power ≤ 40 }
    ensures { result ≡ 2 ^ power }
{
    let mut product = 1;
    for _level in 0..power {
        product *= 2;
    }
    product
}

/// The sum below the node to the left, where a node is the right one of two.
fn left_of(nodes: &[u128], node: usize) -> u128
    requires { node / 2 < length nodes.now }
    ensures { result ≡ left_of nodes.now node }
{
    if node % 2 == 1 { nodes[node / 2] } else { 0 }
}

/// Adds to the node above another one, which is the left one of two.
fn add_above(nodes: &mut [u128], node: usize, amount: u128)
    requires node { node / 2 < length nodes.old }
    requires room { slice_index nodes.old (node / 2) + amount < 2 ^ 128 }
    ensures size { length nodes.new ≡ length nodes.old }
    ensures each { (j : ℕ) → slice_index nodes.new j ≡ slice_index nodes.old j + cond (nat_eq (2 * j) node) amount 0 }
{
    if node % 2 == 0 {
        nodes[node / 2] += amount;
    }
}
