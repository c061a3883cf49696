ghost use Rattle.std.specs.Prelude.{◌≡◌, ◌+◌, ◌<◌, ◌≤◌, ℕ, List, [], length, IfOk, IfSome, OnOk};
ghost use Rattle.std.specs.BinaryHeap.{heap_items};
ghost use Rattle.version_table.specs.declared.limits.TheConstants.{NODES_MOST};
ghost use Rattle.version_table.specs.Table.{IsValidTable};
ghost use Rattle.branch_plan.specs.Private.Branching.{Ends, EndsOrGrows, IsGrowth, IsTaken, IsWith};
ghost use Rattle.dual_bounds.specs.declared.constants.TheConstants.{WINDOWS_MOST};
ghost use Rattle.branch_plan.specs.Private.Found.{AreShared, IsSound};
ghost use Rattle.branch_plan.specs.Private.Growth.{IsOrdered};
ghost use Rattle.branch_plan.specs.Private.Known.{IsKnown};

use crate::apart::Orders;
use crate::arena::{Arena, Link, path_to};
use crate::bytes::{has_room, node_bytes};
use crate::changes::unit_at;
use crate::children::{Place, with_branch};
use crate::found::{Found, greater_bound};
use crate::known::Known;
use crate::leaves::{Asked, leaf_on, unit_to_branch};
use crate::open::{OpenLeaves, add_leaf, no_leaves, take_least};
use crate::root::root_bound;
use crate::values::Values;
use dual_bounds::{copied, nothing_fixed};
use list_types::OutOfMemory;
use multiplier_search::LinearRelaxation;
use slot_rule::SlotRun;
use std::alloc::Global;
use std::cmp::Reverse;
use version_table::Table;

/// A tree while it grows.
#[derive(Drop)]
pub(crate) struct Growth {
    /// Its nodes.
    pub arena: Arena,
    /// The leaves that may be branched.
    pub leaves: OpenLeaves,
    /// The best choice that is known.
    pub known: Known,
    /// The bound that no open leaf's falls below.
    pub root: u64,
    /// The bound of the root by its windows of time.
    pub time: u64,
    /// The windows that were found for the root.
    pub found: Found,
    /// The bytes of its nodes in a certificate.
    pub bytes: usize,
}

/// A tree that isn't branched any more.
#[derive(Drop)]
pub(crate) struct Ended {
    /// Its nodes.
    pub arena: Arena,
    /// The bound of its root.
    pub bound: u64,
    /// The best choice that is known.
    pub known: Known,
    /// The windows that were found for its root.
    pub found: Found,
}

/// What a step came to.
#[derive(Drop)]
pub(crate) enum Step {
    /// A leaf was branched.
    Grown(Growth),
    /// The bound has come up to the distortion, or a branch more would take the tree past its nodes or its bytes.
    Ended(Ended),
}

/// The tree that is branched at its leaf of least bound, one unit at a time, until its bound has come up to the best distortion
/// that is known or the next branch would take it past so many nodes, or past a certificate's bytes. Fails only for want of memory.
pub(crate) fn branched(
    alloc: Global,
    table: &Table,
    relaxation: Option<&LinearRelaxation>,
    run: &mut SlotRun<'_>,
    known: Known,
    found: Found,
    nodes: u32,
) -> Result<Ended, OutOfMemory>
    requires valid { IsValidTable table.now }
    requires run { run.old.table ≡ table.now }
    requires known { IsKnown table.now known }
    requires found { IsSound table.now nodes found }
    requires some_nodes { 1 ≤ nodes }
    requires nodes { nodes ≤ NODES_MOST }
    requires relaxation { IfSome relaxation (λ own. AreShared table.now nodes WINDOWS_MOST) }
    ensures run { run.new.table ≡ table.now }
    ensures ends { IfOk result (Ends table.now nodes) }
    ensures found { IfOk result (λ ended. ended.found ≡ found) }
    ensures kept { IfOk result (λ ended. ended.known.distortion ≤ known.distortion) }
{
    let mut growth = rooted(alloc, table, run, known, found, nodes)?;
    let orders = orders_for(alloc, table, &growth.found, nodes)?;
    for _branches in 0..nodes {
        match branch_least(alloc, table, relaxation, &orders, run, growth, nodes)? {
            Step::Grown(grown) => growth = grown,
            Step::Ended(ended) => return Ok(ended),
        }
    }
    unreachable!()
}

/// In which order the units of a table are branched on; none where a tree has no branch.
fn orders_for(
    alloc: Global,
    table: &Table,
    found: &Found,
    nodes: u32,
) -> Result<Orders, OutOfMemory>
    requires { IsValidTable table.now }
{
    if nodes > 1 {
        Orders::of(alloc, table, found)
    } else {
        Ok(Orders::none(alloc))
    }
}

/// The tree of one node.
fn rooted(
    alloc: Global,
    table: &Table,
    run: &mut SlotRun<'_>,
    known: Known,
    found: Found,
    nodes: u32,
) -> Result<Growth, OutOfMemory>
    requires valid { IsValidTable table.now }
    requires run { run.old.table ≡ table.now }
    requires known { IsKnown table.now known }
    requires found { IsSound table.now nodes found }
    requires some_nodes { 1 ≤ nodes }
    ensures run { run.new.table ≡ table.now }
    ensures grown { IfOk result (IsGrowth table.now nodes) }
    ensures found { IfOk result (λ growth. growth.found ≡ found) }
    ensures kept { IfOk result (λ growth. growth.known.distortion ≤ known.distortion) }
    ensures one { IfOk result (λ growth. length growth.arena.nodes.items ≡ 1) }
{
    let fixed = nothing_fixed(alloc, table)?;
    let time = root_bound(table, &fixed, &found.time, &known);
    let root = greater_bound(table, &fixed, &found, &known, time);
    let asked = Asked {
        floor: root,
        nodes,
        quick: false,
    };
    let windows = copied(found.time.as_slice());
    let leaf = leaf_on(
        alloc,
        table,
        run,
        known,
        &fixed,
        windows,
        &found.buffers,
        asked,
        Values::unknown(),
    )?;
    let mut leaves = no_leaves(alloc);
    add_if_open(&mut leaves, leaf.bound, 0)?;
    let bytes = node_bytes(&leaf.node);
    let mut arena = Arena {
        nodes: Vec::new(alloc),
        links: Vec::new(alloc),
        values: Vec::new(alloc),
    };
    arena.nodes.push(leaf.node)?;
    arena.values.push(leaf.values)?;
    arena.links.push(Link {
        parent: 0,
        unit: 0,
        version: 0,
        next: 0,
    })?;
    Ok(Growth {
        arena,
        leaves,
        known: leaf.known,
        root,
        time,
        found,
        bytes,
    })
}

/// Adds a leaf where it may be branched.
pub(crate) fn add_if_open(
    leaves: &mut OpenLeaves,
    bound: Option<u64>,
    number: u32,
) -> Result<(), OutOfMemory>
    requires order { IsOrdered (heap_items leaves.old) }
    ensures order { OnOk result (IsOrdered (heap_items leaves.new)) }
    ensures more { OnOk result (IsWith bound number (heap_items leaves.old) (heap_items leaves.new)) }
{
    match bound {
        Some(bound) => {
            add_leaf(leaves, bound, number)?;
            Ok(())
        }
        None => Ok(()),
    }
}

/// Branches the leaf of least bound, where its bound is below the distortion, and nodes and bytes are enough.
fn branch_least(
    alloc: Global,
    table: &Table,
    relaxation: Option<&LinearRelaxation>,
    orders: &Orders,
    run: &mut SlotRun<'_>,
    growth: Growth,
    nodes: u32,
) -> Result<Step, OutOfMemory>
    requires valid { IsValidTable table.now }
    requires run { run.old.table ≡ table.now }
    requires nodes { nodes ≤ NODES_MOST }
    requires grown { IsGrowth table.now nodes growth }
    requires relaxation { IfSome relaxation (λ own. AreShared table.now nodes WINDOWS_MOST) }
    ensures run { run.new.table ≡ table.now }
    ensures step { IfOk result (EndsOrGrows table.now nodes growth) }
{
    let mut growth = growth;
    match take_least(&mut growth.leaves) {
        Some(Reverse((bound, number))) => {
            if bound < growth.known.distortion {
                branch_at(
                    alloc, table, relaxation, orders, run, growth, bound, number, nodes,
                )
            } else {
                Ok(Step::Ended(as_best(growth)))
            }
        }
        None => Ok(Step::Ended(as_best(growth))),
    }
}

/// The tree whose bound has come up to the distortion.
fn as_best(growth: Growth) -> Ended
    ensures { result ≡ record { arena = growth.arena; bound = growth.known.distortion; known = growth.known; found = growth.found } }
{
    let Growth {
        arena,
        leaves: _,
        known,
        root: _,
        time: _,
        found,
        bytes: _,
    } = growth;
    Ended {
        arena,
        bound: known.distortion,
        known,
        found,
    }
}

/// The tree whose nodes or bytes are spent, of which this is the least bound.
fn as_spent(growth: Growth, bound: u64) -> Ended
    ensures { result ≡ record { arena = growth.arena; bound = bound; known = growth.known; found = growth.found } }
{
    let Growth {
        arena,
        leaves: _,
        known,
        root: _,
        time: _,
        found,
        bytes: _,
    } = growth;
    Ended {
        arena,
        bound,
        known,
        found,
    }
}

/// Branches this leaf, whose bound is the least and below the distortion, where nodes and bytes are enough.
fn branch_at(
    alloc: Global,
    table: &Table,
    relaxation: Option<&LinearRelaxation>,
    orders: &Orders,
    run: &mut SlotRun<'_>,
    growth: Growth,
    bound: u64,
    number: u32,
    nodes: u32,
) -> Result<Step, OutOfMemory>
    requires valid { IsValidTable table.now }
    requires run { run.old.table ≡ table.now }
    requires nodes { nodes ≤ NODES_MOST }
    requires taken { IsTaken table.now nodes growth bound number }
    requires relaxation { IfSome relaxation (λ own. AreShared table.now nodes WINDOWS_MOST) }
    ensures run { run.new.table ≡ table.now }
    ensures step { IfOk result (EndsOrGrows table.now nodes growth) }
{
    let fixed = path_to(alloc, table, growth.arena.links.as_slice(), number)?;
    let leaf = &growth.arena.nodes[number as usize];
    let Some(unit) = unit_to_branch(table, &fixed, leaf, orders) else {
        unreachable!()
    };
    let versions = unit_at(table, unit as usize).versions.len();
    if growth.arena.nodes.len() + versions > nodes as usize {
        return Ok(Step::Ended(as_spent(growth, bound)));
    }
    if !has_room(table, &growth, fixed.len(), versions) {
        return Ok(Step::Ended(as_spent(growth, bound)));
    }
    let place = Place {
        number,
        unit,
        fixed,
    };
    Ok(Step::Grown(with_branch(alloc, table, relaxation, run, growth, place, nodes)?))
}
