ghost use Rattle.std.specs.Prelude.{◌≡◌, ◌+◌, ◌<◌, ◌≤◌, ◌^◌, ℕ, true, false, [], length, None, IfOk, IfSome, OnOk, ◌≤ℤ◌};
ghost use Rattle.std.specs.BinaryHeap.{heap_items};
ghost use Rattle.version_table.specs.declared.limits.TheConstants.{NODES_MOST, VERSIONS_MOST};
ghost use Rattle.version_table.specs.Table.{IsValidTable};
ghost use Rattle.dual_bounds.specs.Fixed.{FixesVersions};
ghost use Rattle.dual_bounds.specs.Values.{value_of_windows};
ghost use Rattle.multiplier_search.specs.Windows.{AreSearched};
ghost use Rattle.certificate_checker.specs.Shown.{fix, versions_of};
ghost use Rattle.multiplier_search.specs.Buffered.{AreSearchedBuffered};
ghost use Rattle.dual_bounds.specs.declared.constants.TheConstants.{WINDOWS_MOST};
ghost use Rattle.branch_plan.specs.Private.Branching.{AreChildren, AreLinkedBehind, IsBranched, IsPlace, IsWithChild};
ghost use Rattle.branch_plan.specs.Private.Found.{AreShared, IsReached, IsReachedAbove, time_of};
ghost use Rattle.branch_plan.specs.Private.Growth.{IsOrdered};
ghost use Rattle.branch_plan.specs.Private.Known.{IsKnown};
ghost use Rattle.branch_plan.specs.Private.Leaves.{IsFreeUnit};
ghost use Rattle.branch_plan.specs.Private.Valued.{AreKept, AreValuedBelow, IsValuedBy};
ghost use Rattle.branch_plan.specs.declared.values.TheConstants.{UNKNOWN};

use crate::arena::Link;
use crate::branching::{Growth, add_if_open};
use crate::bytes::{node_bytes, nodes_bytes};
use crate::changes::unit_at;
use crate::fitting::kept_bound;
use crate::found::Found;
use crate::known::Known;
use crate::leaves::{Asked, Leaf, leaf_on, sees};
use crate::limits::{BRANCH_BYTES, RELAXED_MOST};
use crate::open::OpenLeaves;
use crate::root::relaxed_windows;
use crate::values::{KeptValue, Values, values_with};
use bound_certificate::Node;
use buffer_windows::BufferWindows;
use dual_bounds::{Fixed, Windows, copied};
use list_types::{ListOf, OutOfMemory};
use multiplier_search::LinearRelaxation;
use slot_rule::SlotRun;
use std::alloc::Global;
use version_table::Table;

/// Where a tree is branched.
#[derive(Drop)]
pub(crate) struct Place {
    /// The number of the leaf.
    pub number: u32,
    /// The unit.
    pub unit: u32,
    /// The versions that are fixed at the leaf.
    pub fixed: Fixed,
}

/// The children of a branch, in order.
#[derive(Drop)]
pub(crate) struct Children {
    /// Their nodes.
    pub nodes: Vec<Node>,
    /// What the windows of each come to.
    pub values: Vec<Values>,
    /// The leaves that may be branched, theirs among them.
    pub leaves: OpenLeaves,
    /// The best choice that is known.
    pub known: Known,
}

/// The tree with a leaf branched on a unit, into a child for each of its versions. Fails only for want of memory.
pub(crate) fn with_branch(
    alloc: Global,
    table: &Table,
    relaxation: Option<&LinearRelaxation>,
    run: &mut SlotRun<'_>,
    growth: Growth,
    place: Place,
    nodes: u32,
) -> Result<Growth, OutOfMemory>
    requires valid { IsValidTable table.now }
    requires run { run.old.table ≡ table.now }
    requires nodes { nodes ≤ NODES_MOST }
    requires place { IsPlace table.now nodes growth place }
    requires relaxation { IfSome relaxation (λ own. AreShared table.now nodes WINDOWS_MOST) }
    ensures run { run.new.table ≡ table.now }
    ensures branched { IfOk result (IsBranched table.now nodes growth) }
{
    let Growth {
        mut arena,
        leaves,
        known,
        root,
        time,
        found,
        bytes,
    } = growth;
    let number = place.number;
    let unit = place.unit;
    let first = arena.nodes.len() as u32;
    let windows = time_of(&arena.nodes[number as usize], &found);
    let asked = Asked {
        floor: kept_bound(table, unit as usize, root, time),
        nodes,
        quick: sees(&arena.nodes[number as usize]),
    };
    let values = arena.values[number as usize];
    let start = Children {
        nodes: Vec::new(alloc),
        values: Vec::new(alloc),
        leaves,
        known,
    };
    let Children {
        nodes: mut made,
        values: mut made_values,
        leaves,
        known,
    } = children_of(
        alloc,
        table,
        relaxation,
        run,
        start,
        &windows,
        &found.buffers,
        place,
        first,
        asked,
        values,
    )?;
    link_children(&mut arena.links, number, unit, made.len() as u32)?;
    let kept = bytes - node_bytes(&arena.nodes[number as usize]);
    let bytes = kept + BRANCH_BYTES + nodes_bytes(made.as_slice());
    arena.nodes[number as usize] = Node::Branch { unit };
    arena.nodes.append(&mut made)?;
    arena.values.append(&mut made_values)?;
    Ok(Growth {
        arena,
        leaves,
        known,
        root: asked.floor,
        time,
        found,
        bytes,
    })
}

/// Links so many children behind their branch.
fn link_children(
    links: &mut Vec<Link>,
    number: u32,
    unit: u32,
    count: u32,
) -> Result<(), OutOfMemory>
    requires number { number < length links.old.items }
    requires few { length links.old.items + count < 2 ^ 32 }
    requires some { 0 < count }
    requires count { count ≤ VERSIONS_MOST }
    ensures { OnOk result (AreLinkedBehind number unit count links.old.items links.new.items) }
{
    let first = links.len() as u32;
    let behind = links[number as usize].next;
    links[number as usize].next = first;
    for k in 0..count {
        links.push(Link {
            parent: number,
            unit,
            version: k as u8,
            next: next_behind(first, k, count, behind),
        })?;
    }
    Ok(())
}

/// The node behind child `k` of so many in preorder: the next child, and behind the last one what stands behind the branch.
fn next_behind(first: u32, k: u32, count: u32, behind: u32) -> u32
    requires few { first + count < 2 ^ 32 }
    requires within { k < count }
    ensures rise { k + 1 < count → result ≡ first + k + 1 }
    ensures last { k + 1 ≡ count → result ≡ behind }
{
    if k + 1 == count {
        behind
    } else {
        first + k + 1
    }
}

/// The children of a branch. Each has a relaxation of its own where it is one of the first nodes, else the branch's windows.
fn children_of(
    alloc: Global,
    table: &Table,
    relaxation: Option<&LinearRelaxation>,
    run: &mut SlotRun<'_>,
    start: Children,
    windows: &Windows,
    buffers: &BufferWindows,
    place: Place,
    first: u32,
    asked: Asked,
    values: Values,
) -> Result<Children, OutOfMemory>
    requires valid { IsValidTable table.now }
    requires run { run.old.table ≡ table.now }
    requires known { IsKnown table.now start.known }
    requires order { IsOrdered (heap_items start.leaves) }
    requires none { start.nodes.items ≡ [] }
    requires no_values { start.values.items ≡ [] }
    requires fixed { FixesVersions table.now place.fixed }
    requires free { IsFreeUnit table.now place.fixed place.unit }
    requires windows { AreSearched windows.now.items }
    requires few_windows { AreShared table.now asked.nodes (length windows.now.items) }
    requires relaxation { IfSome relaxation (λ own. AreShared table.now asked.nodes WINDOWS_MOST) }
    requires buffers { AreSearchedBuffered table.now buffers.now }
    requires floor { IsReachedAbove table.now place.fixed place.unit windows.now.items buffers.now asked.floor }
    requires values { AreKept table.now place.fixed windows.now.items buffers.now values }
    requires first { first ≤ NODES_MOST }
    ensures run { run.new.table ≡ table.now }
    ensures known { IfOk result (λ children. IsKnown table.now children.known) }
    ensures kept { IfOk result (λ children. children.known.distortion ≤ start.known.distortion) }
    ensures order { IfOk result (λ children. IsOrdered (heap_items children.leaves)) }
    ensures children { IfOk result (λ children. AreChildren table.now asked.nodes asked.floor place.fixed place.unit first (versions_of table.now place.unit)
        children.nodes.items (heap_items start.leaves) (heap_items children.leaves) children.known.distortion) }
    ensures values { IfOk result (λ children. AreValuedBelow table.now buffers.now place.fixed place.unit (versions_of table.now place.unit) children.nodes.items children.values.items) }
{
    let Place {
        number: _,
        unit,
        mut fixed,
    } = place;
    let relaxed = is_relaxed(relaxation, fixed.len(), first);
    let own_asked = Asked {
        quick: asked.quick && !relaxed,
        ..asked
    };
    let mut children = start;
    for k in 0..unit_at(table, unit as usize).versions.len() {
        fixed = with_version(fixed, unit as usize, k as u8);
        let own = windows_for(alloc, table, relaxation, &fixed, windows, relaxed)?;
        let more = values_with(table, unit as usize, k as u8, windows, buffers, values);
        let own_values = values_for(more, relaxed);
        children = with_child(
            alloc,
            table,
            run,
            children,
            &fixed,
            own,
            buffers,
            own_asked,
            own_values,
            first + k as u32,
        )?;
    }
    Ok(children)
}

/// Whether nodes from this number on have relaxations of their own: the first ones of a search, as many as are cheap, whatever nodes it
/// may have.
fn is_relaxed(relaxation: Option<&LinearRelaxation>, units: usize, first: u32) -> bool {
    relaxation.is_some() && (units as u64).saturating_mul(u64::from(first)) <= RELAXED_MOST
}

/// What is fixed, with a version of one unit fixed too.
fn with_version(fixed: Fixed, unit: usize, k: u8) -> Fixed
    requires { unit < length fixed }
    ensures { result ≡ fix unit k fixed }
{
    let mut entries = fixed.into_vec();
    entries[unit] = Some(k);
    ListOf::from_vec(entries)
}

/// The windows of a child: those of a relaxation of its own from these on, or these.
fn windows_for(
    alloc: Global,
    table: &Table,
    relaxation: Option<&LinearRelaxation>,
    fixed: &Fixed,
    windows: &Windows,
    relaxed: bool,
) -> Result<Windows, OutOfMemory>
    requires valid { IsValidTable table.now }
    requires fixed { FixesVersions table.now fixed.now }
    requires windows { AreSearched windows.now.items }
    ensures searched { IfOk result (λ own. AreSearched own.items) }
    ensures value { IfOk result (λ own. value_of_windows table.now fixed.now windows.now.items ≤ℤ value_of_windows table.now fixed.now own.items) }
    ensures same { relaxed ≡ false → IfOk result (λ own. own.items ≡ windows.now.items) }
    ensures few { (nodes : ℕ) → AreShared table.now nodes (length windows.now.items) → IfSome relaxation.entry (λ own. AreShared table.now nodes WINDOWS_MOST)
        → IfOk result (λ own. AreShared table.now nodes (length own.items)) }
{
    if !relaxed {
        return Ok(copied(windows.as_slice()));
    }
    match relaxation {
        Some(relaxation) => relaxed_windows(alloc, table, relaxation, fixed, windows),
        None => Ok(copied(windows.as_slice())),
    }
}

/// What is known of the values of a child's windows: where those of time are its own, not what they come to.
fn values_for(values: Values, relaxed: bool) -> Values
    ensures seen { result.seen ≡ values.seen }
    ensures time { relaxed ≡ false → result.time ≡ values.time }
    ensures own { relaxed ≡ true → result.time.parts ≡ UNKNOWN }
{
    if relaxed {
        Values {
            time: KeptValue::unknown(),
            ..values
        }
    } else {
        values
    }
}

/// The children with one more, of this number.
fn with_child(
    alloc: Global,
    table: &Table,
    run: &mut SlotRun<'_>,
    children: Children,
    fixed: &Fixed,
    windows: Windows,
    buffers: &BufferWindows,
    asked: Asked,
    values: Values,
    number: u32,
) -> Result<Children, OutOfMemory>
    requires valid { IsValidTable table.now }
    requires run { run.old.table ≡ table.now }
    requires known { IsKnown table.now children.known }
    requires order { IsOrdered (heap_items children.leaves) }
    requires fixed { FixesVersions table.now fixed.now }
    requires windows { AreSearched windows.items }
    requires few_windows { AreShared table.now asked.nodes (length windows.items) }
    requires buffers { AreSearchedBuffered table.now buffers.now }
    requires floor { IsReached table.now fixed.now windows.items buffers.now asked.floor }
    requires values { AreKept table.now fixed.now windows.items buffers.now values }
    ensures run { run.new.table ≡ table.now }
    ensures order { IfOk result (λ more. IsOrdered (heap_items more.leaves)) }
    ensures child { IfOk result (IsWithChild table.now buffers.now asked.nodes asked.floor fixed.now number children) }
{
    let Children {
        mut nodes,
        values: mut made_values,
        mut leaves,
        known,
    } = children;
    let Leaf {
        node,
        bound,
        values,
        known,
    } = leaf_on(
        alloc, table, run, known, fixed, windows, buffers, asked, values,
    )?;
    add_if_open(&mut leaves, bound, number)?;
    nodes.push(node)?;
    made_values.push(values)?;
    Ok(Children {
        nodes,
        values: made_values,
        leaves,
        known,
    })
}

/// The windows of time of a node that has some, and else those of the root.
fn time_of(node: &Node, found: &Found) -> Windows
    ensures { result.items ≡ time_of node.now found.now.time.items }
{
    match node {
        Node::Window { with } => copied(with.as_slice()),
        Node::Branch { unit: _ } => copied(found.time.as_slice()),
        Node::Dual { with: _ } => copied(found.time.as_slice()),
        Node::Run { scheduled: _ } => copied(found.time.as_slice()),
        Node::Open => copied(found.time.as_slice()),
        Node::BufferWindow { with: _ } => copied(found.time.as_slice()),
    }
}
