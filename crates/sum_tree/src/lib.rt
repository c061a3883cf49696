//! Numbers at places, of which each may grow, and the sum of the first ones in a logarithm of their count.
#![tactic(auto)]

mod tree;

pub use tree::SumTree;
