use list_types::OutOfMemory;
use std::alloc::Global;

/// Above every number that a tree is asked for.
const FAR: i64 = i64::MAX / 4;

/// A place whose packets share their room with those of the places round it.
#[derive(Clone, Copy, Debug, Default, PartialEq)]
pub struct SlackPlace {
    /// How many packets the places up to it may have.
    pub above: i64,
    /// How many of these no place from it on may have.
    pub below: i64,
    /// The packets that it has.
    pub packets: i64,
}

/// How many packets more each place may have: the places from one to another have at most what may be had up to the last one,
/// less what none from the first one on may have. To ask and to take packets takes a logarithm of the count of places. Sums wrap, so
/// that no number needs a limit.
#[derive(Drop)]
pub struct SlackTree {
    /// Levels above the places.
    height: u32,
    /// The first place is this node; the root is node 1, and below each node are its double and the next.
    first: usize,
    /// What is known of each node.
    nodes: Vec<SlackNode>,
}

/// What is known of the places below a node, where those outside of it have no packets.
#[derive(Clone, Copy)]
struct SlackNode {
    /// Their packets.
    packets: i64,
    /// The least of what may be had up to one of them less the packets up to it.
    above: i64,
    /// The least of the packets before one of them less what it and those behind it may not have.
    below: i64,
}

/// A node behind the end: its numbers are above all that are asked for.
const FAR_NODE: SlackNode = SlackNode {
    packets: 0,
    above: FAR,
    below: FAR,
};

impl SlackTree {
    /// A tree of these places. Fails only for want of memory.
    pub fn new(alloc: Global, places: &[SlackPlace]) -> Result<SlackTree, OutOfMemory> {
        let mut height = 0;
        let mut first: usize = 1;
        for _level in 0..62 {
            if first < places.len() {
                first = first.saturating_mul(2);
                height = level_above(height);
            }
        }
        let nodes = vec![in alloc; FAR_NODE; first.saturating_mul(2)]?;
        let mut tree = SlackTree {
            height,
            first,
            nodes,
        };
        tree.fill(places);
        Ok(tree)
    }

    /// The same tree. Fails only for want of memory.
    pub fn copied(&self, alloc: Global) -> Result<SlackTree, OutOfMemory> {
        Ok(SlackTree {
            height: self.height,
            first: self.first,
            nodes: self.nodes.as_slice().to_vec(alloc)?,
        })
    }

    /// Puts the places into the tree.
    fn fill(&mut self, places: &[SlackPlace]) {
        let nodes = self.nodes.as_mut_slice();
        for (place, limits) in places.iter().enumerate() {
            put(nodes, self.first.saturating_add(place), leaf_of(*limits));
        }
        for node in (1..self.first).rev() {
            let left = node.saturating_mul(2);
            put(nodes, node, joined(at(nodes, left), at(nodes, left | 1)));
        }
    }

    /// How many packets more a place may have; negative where there is no room for what is taken.
    pub fn of(&self, place: usize) -> i64 {
        let around = self.around(place);
        around.above.wrapping_add(around.below)
    }

    /// Takes packets for a place.
    pub fn take(&mut self, place: usize, packets: i64) {
        if place >= self.first {
            return;
        }
        let nodes = self.nodes.as_mut_slice();
        let mut node = self.first.saturating_add(place);
        let mut known = with_packets(at(nodes, node), packets);
        put(nodes, node, known);
        for _level in 0..self.height {
            let beside = at(nodes, node ^ 1);
            known = if node % 2 == 0 {
                joined(known, beside)
            } else {
                joined(beside, known)
            };
            node /= 2;
            put(nodes, node, known);
        }
    }

    /// The first place of the longest row of places round one that share what it may have.
    pub fn first_beside(&self, place: usize) -> usize {
        let nodes = self.nodes.as_slice();
        let mut left = self.around(place).below;
        let mut node: usize = 1;
        for _level in 0..self.height {
            node = node.saturating_mul(2);
            let nearer = at(nodes, node);
            if nearer.below > left {
                left = left.wrapping_sub(nearer.packets);
                node |= 1;
            }
        }
        node.saturating_sub(self.first)
    }

    /// The last place of this row.
    pub fn last_beside(&self, place: usize) -> usize {
        let nodes = self.nodes.as_slice();
        let mut left = self.around(place).above;
        let mut node: usize = 1;
        for _level in 0..self.height {
            node = node.saturating_mul(2);
            let behind = left.wrapping_add(at(nodes, node).packets);
            if at(nodes, node | 1).above <= behind {
                left = behind;
                node |= 1;
            }
        }
        node.saturating_sub(self.first)
    }

    /// Of a place: the packets before it, the least of what is left up to it or up to a place behind it, and the least of what is
    /// sent before it or before a place in front of it beyond what may not be had.
    fn around(&self, place: usize) -> SlackNode {
        let nodes = self.nodes.as_slice();
        let mut node = self.first.saturating_add(place);
        let own = at(nodes, node);
        let mut above = own.above;
        let mut below = own.below;
        let mut behind = own.packets;
        let mut before: i64 = 0;
        for _level in 0..self.height {
            let beside = at(nodes, node ^ 1);
            if node % 2 == 0 {
                above = above.min(beside.above.wrapping_sub(behind));
                behind = behind.wrapping_add(beside.packets);
            } else {
                before = before.wrapping_add(beside.packets);
                below = below.min(beside.below.wrapping_sub(before));
            }
            node /= 2;
        }
        SlackNode {
            packets: before,
            above: above.wrapping_sub(before),
            below: below.wrapping_add(before),
        }
    }
}

/// What is known of a place.
fn leaf_of(place: SlackPlace) -> SlackNode {
    SlackNode {
        packets: place.packets,
        above: place.above.wrapping_sub(place.packets),
        below: 0i64.wrapping_sub(place.below),
    }
}

/// What is known of a place with more packets.
fn with_packets(known: SlackNode, packets: i64) -> SlackNode {
    SlackNode {
        packets: known.packets.wrapping_add(packets),
        above: known.above.wrapping_sub(packets),
        ..known
    }
}

/// What is known of a node from the two below it.
fn joined(left: SlackNode, right: SlackNode) -> SlackNode {
    SlackNode {
        packets: left.packets.wrapping_add(right.packets),
        above: left.above.min(right.above.wrapping_sub(left.packets)),
        below: left.below.min(right.below.wrapping_add(left.packets)),
    }
}

/// What is known of a node.
fn at(nodes: &[SlackNode], node: usize) -> SlackNode {
    if node < nodes.len() {
        nodes[node]
    } else {
        FAR_NODE
    }
}

/// Sets what is known of a node.
fn put(nodes: &mut [SlackNode], node: usize, known: SlackNode) {
    if node < nodes.len() {
        nodes[node] = known;
    }
}

/// One level more.
fn level_above(height: u32) -> u32 {
    height.saturating_add(1)
}
