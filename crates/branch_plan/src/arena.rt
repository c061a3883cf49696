ghost use Rattle.std.specs.Prelude.{◌≡◌, ◌≢◌, ◌<◌, ℕ, List, length, map, slice_index_or, slice_set, Option, Some, None, IfOk};
ghost use Rattle.version_table.specs.Table.{units_of};
ghost use Rattle.bound_certificate.specs.declared.cert.Node.TheVariants.{Open};
ghost use Rattle.branch_plan.specs.Private.Growth.{ArePaths, AreLinked, IsOrder, StandOnce, node_of};

use crate::values::Values;
use bound_certificate::Node;
use dual_bounds::{Fixed, nothing_fixed};
use list_types::{ListOf, OutOfMemory};
use std::alloc::Global;
use std::mem;
use version_table::Table;

/// Where a node hangs in its tree.
#[derive(Clone, Copy)]
pub(crate) struct Link {
    /// The node that it is a child of. The root, which is node 0, is none's.
    pub parent: u32,
    /// The unit that its parent branches on.
    pub unit: u32,
    /// The version of that unit that is fixed in it.
    pub version: u8,
    /// The node behind it in preorder. Behind the last one there is none.
    pub next: u32,
}

/// The nodes of a tree in the order in which they are made, the root first.
#[derive(Drop)]
pub(crate) struct Arena {
    /// The nodes.
    pub nodes: Vec<Node>,
    /// Where each hangs.
    pub links: Vec<Link>,
    /// What the windows of each leaf come to.
    pub values: Vec<Values>,
}

/// The versions that are fixed on the path to a node: one pass up to the root.
pub(crate) fn path_to(
    alloc: Global,
    table: &Table,
    links: &[Link],
    number: u32,
) -> Result<Fixed, OutOfMemory>
    requires links { AreLinked table.now links.now }
    requires number { number < length links.now }
    ensures { IfOk result (λ fixed. (path : ℕ → List (Option ℕ)) → ArePaths table.now links.now path → fixed ≡ path number) }
{
    let mut fixed = nothing_fixed(alloc, table)?.into_vec();
    let mut at = number as usize;
    while at != 0 {
        let link = links[at];
        fix_where_free(&mut fixed, link.unit as usize, link.version);
        at = link.parent as usize;
    }
    Ok(ListOf::from_vec(fixed))
}

/// Fixes a version of a unit of which none is fixed.
fn fix_where_free(fixed: &mut Vec<Option<u8>>, unit: usize, k: u8)
    requires { unit < length fixed.old.items }
    ensures free { slice_index_or fixed.old.items unit None ≡ None → fixed.new.items ≡ slice_set fixed.old.items unit (Some k) }
    ensures fixed { slice_index_or fixed.old.items unit None ≢ None → fixed.new.items ≡ fixed.old.items }
    ensures length { length fixed.new.items ≡ length fixed.old.items }
{
    match fixed[unit] {
        None => fixed[unit] = Some(k),
        Some(_fixed) => {}
    }
}

/// The nodes in preorder, moved. Fails only for want of memory.
pub(crate) fn in_order(alloc: Global, arena: Arena) -> Result<ListOf<Node>, OutOfMemory>
    requires links { length arena.links.items ≡ length arena.nodes.items }
    requires order { (ids : List ℕ) × IsOrder arena.nodes.items arena.links.items ids × StandOnce (length arena.nodes.items) ids }
    ensures { IfOk result (λ nodes. (ids : List ℕ) → IsOrder arena.nodes.items arena.links.items ids → StandOnce (length arena.nodes.items) ids
        → nodes ≡ map (node_of arena.nodes.items) ids) }
{
    let Arena {
        nodes: mut left,
        links,
        values,
    } = arena;
    drop(values);
    let count = left.len();
    let mut nodes = ListOf::from_vec(Vec::with_capacity(alloc, count)?);
    let mut at = 0;
    for _taken in 0..count {
        let node = take_node(&mut left, at);
        nodes.push(node)?;
        at = links[at].next as usize;
    }
    Ok(nodes)
}

/// Takes the node of a number, and leaves one without windows in its place.
fn take_node(nodes: &mut Vec<Node>, number: usize) -> Node
    requires { number < length nodes.old.items }
    ensures node { result ≡ node_of nodes.old.items number }
    ensures left { nodes.new.items ≡ slice_set nodes.old.items number Open }
{
    mem::replace(&mut nodes[number], Node::Open)
}
