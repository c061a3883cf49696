ghost use Rattle.std.specs.Prelude.{◌≡◌, ◌<◌, ◌≤◌, ℕ, true, false, List, length, slice_index_or, Some, None, IfOk, IfSome, MatchOption};
ghost use Rattle.version_table.specs.Choice.{Fits, distortion_of_choice};
ghost use Rattle.version_table.specs.Table.{IsValidTable, units_of};
ghost use Rattle.slot_rule.specs.Schedule.{IsScheduled};
ghost use Rattle.dual_bounds.specs.Bounds.{bound_of_value};
ghost use Rattle.dual_bounds.specs.Fixed.{FixesVersions};
ghost use Rattle.dual_bounds.specs.Values.{value_of_windows};
ghost use Rattle.multiplier_search.specs.Windows.{AreSearched};
ghost use Rattle.buffer_windows.specs.declared.windows.BufferWindow.{BufferWindow as SeeingWindow};
ghost use Rattle.bound_certificate.specs.declared.cert.Node.TheVariants.{BufferWindow};
ghost use Rattle.multiplier_search.specs.Buffered.{AreSearchedBuffered};
ghost use Rattle.buffer_windows.specs.Bounds.{bound_of_buffer_windows};
ghost use Rattle.certificate_checker.specs.Faults.{IsSettled, LeavesOne};
ghost use Rattle.certificate_checker.specs.Shown.{choice_left};
ghost use Rattle.branch_plan.specs.Private.Known.{IsKnown};
ghost use Rattle.branch_plan.specs.Private.Changes.{unit_at};
ghost use Rattle.branch_plan.specs.Private.Found.{AreShared, IsNoLower, IsReached};
ghost use Rattle.branch_plan.specs.Private.Leaves.{IsFreeUnit, IsLeafOn};
ghost use Rattle.branch_plan.specs.Private.Valued.{AreKept, IsSeenKept, IsTimeKept, IsValuedBy};
ghost use Rattle.branch_plan.specs.declared.values.TheConstants.{UNKNOWN};

use crate::apart::{ApartUnit, Orders, costs_apart};
use crate::changes::unit_at;
use crate::known::{Known, better};
use crate::values::{KeptValue, Valued, Values, seen_valued, time_valued};
use bound_certificate::{Node, priced_windows};
use buffer_windows::BufferWindows;
use dual_bounds::{Fixed, Windows};
use list_types::{ListOf, OutOfMemory};
use slot_rule::SlotRun;
use std::alloc::Global;
use version_table::{Choice, Table, distortion_of};

/// A leaf of the tree, and the best choice that is known behind it.
#[derive(Drop)]
pub(crate) struct Leaf {
    /// The node.
    pub node: Node,
    /// Its bound, where it may be branched: below the best distortion that is known.
    pub bound: Option<u64>,
    /// What its windows come to.
    pub values: Values,
    /// The best choice.
    pub known: Known,
}

/// What is asked of a leaf.
#[derive(Clone, Copy)]
pub(crate) struct Asked {
    /// The bound that it has at least.
    pub floor: u64,
    /// How many nodes its tree may have.
    pub nodes: u32,
    /// Whether windows that see the buffers are enough where they reach that bound, so that no others are valued.
    pub quick: bool,
}

/// The leaf where these versions are fixed: the choice that is left, tried, where it is one; else the windows of the kind that
/// bounds closer. Fails only for want of memory.
pub(crate) fn leaf_on(
    alloc: Global,
    table: &Table,
    run: &mut SlotRun<'_>,
    known: Known,
    fixed: &Fixed,
    windows: Windows,
    buffers: &BufferWindows,
    asked: Asked,
    values: Values,
) -> Result<Leaf, OutOfMemory>
    requires valid { IsValidTable table.now }
    requires run { run.old.table ≡ table.now }
    requires known { IsKnown table.now known }
    requires fixed { FixesVersions table.now fixed.now }
    requires windows { AreSearched windows.items }
    requires few_windows { AreShared table.now asked.nodes (length windows.items) }
    requires buffers { AreSearchedBuffered table.now buffers.now }
    requires floor { IsReached table.now fixed.now windows.items buffers.now asked.floor }
    requires values { AreKept table.now fixed.now windows.items buffers.now values }
    ensures run { run.new.table ≡ table.now }
    ensures leaf { IfOk result (IsLeafOn table.now asked.nodes fixed.now known.distortion) }
    ensures floor { IfOk result (λ leaf. IsNoLower asked.floor leaf.bound) }
    ensures valued { IfOk result (λ leaf. IsValuedBy table.now buffers.now fixed.now leaf.node leaf.values) }
{
    match free_unit(table, fixed) {
        Some(_unit) => priced_leaf(alloc, table, known, fixed, windows, buffers, asked, values),
        None => run_leaf(alloc, table, run, known, fixed, asked.nodes),
    }
}

/// The first unit of two or more versions of which none is fixed; none where one choice is left.
pub(crate) fn free_unit(table: &Table, fixed: &Fixed) -> Option<u32>
    requires valid { IsValidTable table.now }
    requires fixed { FixesVersions table.now fixed.now }
    ensures { MatchOption result (LeavesOne table.now fixed.now) (IsFreeUnit table.now fixed.now) }
{
    for unit in 0..fixed.len() {
        if is_free(table, fixed, unit) {
            return Some(unit as u32);
        }
    }
    None
}

/// A unit of two or more versions of which none is fixed: the first whose two cheapest versions lie closest at the prices of a
/// leaf, so that its children's bounds rise most on the whole; none where one choice is left.
fn closest_unit(table: &Table, fixed: &Fixed, leaf: &Node) -> Option<u32>
    requires valid { IsValidTable table.now }
    requires fixed { FixesVersions table.now fixed.now }
    ensures { MatchOption result (LeavesOne table.now fixed.now) (IsFreeUnit table.now fixed.now) }
{
    let mut closest = free_unit(table, fixed);
    if closest.is_none() {
        return None;
    }
    let mut least = u64::MAX;
    for unit in 0..fixed.len() {
        if is_free(table, fixed, unit) {
            let apart = costs_apart(table, unit, leaf);
            if apart < least {
                least = apart;
                closest = Some(unit as u32);
            }
        }
    }
    closest
}

/// The same, where the units stand in order for the windows that were found for the root: these most leaves have.
pub(crate) fn unit_to_branch(
    table: &Table,
    fixed: &Fixed,
    leaf: &Node,
    orders: &Orders,
) -> Option<u32>
    requires valid { IsValidTable table.now }
    requires fixed { FixesVersions table.now fixed.now }
    ensures { MatchOption result (LeavesOne table.now fixed.now) (IsFreeUnit table.now fixed.now) }
{
    match first_free(table, fixed, orders.of_leaf(leaf)) {
        Some(unit) => Some(unit),
        None => closest_unit(table, fixed, leaf),
    }
}

/// The first of these units of which none of two or more versions is fixed.
fn first_free(table: &Table, fixed: &Fixed, order: &[ApartUnit]) -> Option<u32>
    requires valid { IsValidTable table.now }
    requires fixed { FixesVersions table.now fixed.now }
    ensures { IfSome result (IsFreeUnit table.now fixed.now) }
{
    for unit in order {
        let number = unit.number as usize;
        if number < fixed.len() && is_free(table, fixed, number) {
            return Some(unit.number);
        }
    }
    None
}

/// Whether a node has windows that see the buffers.
pub(crate) fn sees(node: &Node) -> bool {
    match node {
        Node::BufferWindow { with: _ } => true,
        Node::Window { with: _ } => false,
        Node::Branch { unit: _ } => false,
        Node::Dual { with: _ } => false,
        Node::Run { scheduled: _ } => false,
        Node::Open => false,
    }
}

/// Whether a unit has two or more versions, of which none is fixed.
fn is_free(table: &Table, fixed: &Fixed, unit: usize) -> bool
    requires unit { unit < length (units_of table.now) }
    requires fixed { unit < length fixed.now }
    ensures free { result ≡ true → IsFreeUnit table.now fixed.now unit }
    ensures settled { result ≡ false → IsSettled (unit_at table.now unit) (slice_index_or fixed.now unit None) }
{
    match fixed.as_slice()[unit] {
        Some(_k) => false,
        None => unit_at(table, unit).versions.len() >= 2,
    }
}

/// The leaf with the windows of the kind that bounds closer.
fn priced_leaf(
    alloc: Global,
    table: &Table,
    known: Known,
    fixed: &Fixed,
    windows: Windows,
    buffers: &BufferWindows,
    asked: Asked,
    values: Values,
) -> Result<Leaf, OutOfMemory>
    requires valid { IsValidTable table.now }
    requires known { IsKnown table.now known }
    requires fixed { FixesVersions table.now fixed.now }
    requires windows { AreSearched windows.items }
    requires few_windows { AreShared table.now asked.nodes (length windows.items) }
    requires buffers { AreSearchedBuffered table.now buffers.now }
    requires floor { IsReached table.now fixed.now windows.items buffers.now asked.floor }
    requires values { AreKept table.now fixed.now windows.items buffers.now values }
    requires free { (unit : ℕ) × IsFreeUnit table.now fixed.now unit }
    ensures leaf { IfOk result (IsLeafOn table.now asked.nodes fixed.now known.distortion) }
    ensures floor { IfOk result (λ leaf. IsNoLower asked.floor leaf.bound) }
    ensures valued { IfOk result (λ leaf. IsValuedBy table.now buffers.now fixed.now leaf.node leaf.values) }
{
    match seen_valued(table, fixed, buffers, values.seen) {
        Some(seen) => closer_leaf(
            alloc,
            table,
            known,
            fixed,
            windows,
            buffers,
            asked,
            values.time,
            seen,
        ),
        None => time_leaf(
            alloc,
            table,
            known,
            fixed,
            &windows,
            asked.nodes,
            values.time,
            KeptValue::unknown(),
        ),
    }
}

/// The same, where the windows that see the buffers come to this, and those of time to what is kept.
fn closer_leaf(
    alloc: Global,
    table: &Table,
    known: Known,
    fixed: &Fixed,
    windows: Windows,
    buffers: &BufferWindows,
    asked: Asked,
    time: KeptValue,
    seen: Valued,
) -> Result<Leaf, OutOfMemory>
    requires valid { IsValidTable table.now }
    requires known { IsKnown table.now known }
    requires fixed { FixesVersions table.now fixed.now }
    requires windows { AreSearched windows.items }
    requires few_windows { AreShared table.now asked.nodes (length windows.items) }
    requires buffers { AreSearchedBuffered table.now buffers.now }
    requires floor { IsReached table.now fixed.now windows.items buffers.now asked.floor }
    requires time { IsTimeKept table.now fixed.now windows.items time }
    requires free { (unit : ℕ) × IsFreeUnit table.now fixed.now unit }
    requires bound { bound_of_buffer_windows table.now fixed.now buffers.now ≡ Some seen.bound }
    requires seen { IsSeenKept table.now fixed.now buffers.now seen.kept }
    ensures leaf { IfOk result (IsLeafOn table.now asked.nodes fixed.now known.distortion) }
    ensures floor { IfOk result (λ leaf. IsNoLower asked.floor leaf.bound) }
    ensures valued { IfOk result (λ leaf. IsValuedBy table.now buffers.now fixed.now leaf.node leaf.values) }
{
    if is_enough(asked, seen.bound) {
        let leaf = seen_leaf(alloc, known, buffers, seen)?;
        return Ok(leaf);
    }
    let own = time_valued(table, fixed, &windows, time);
    if own.bound < seen.bound {
        let leaf = seen_leaf(alloc, known, buffers, seen)?;
        Ok(leaf)
    } else {
        time_leaf(
            alloc,
            table,
            known,
            fixed,
            &windows,
            asked.nodes,
            own.kept,
            seen.kept,
        )
    }
}

/// Whether a bound of windows that see the buffers is enough, so that no others are valued.
fn is_enough(asked: Asked, bound: u128) -> bool
    ensures { result ≡ true → asked.floor ≤ bound }
{
    asked.quick && u128::from(asked.floor) <= bound
}

/// The leaf with windows that see the buffers, which come to this. Fails only for want of memory.
fn seen_leaf(
    alloc: Global,
    known: Known,
    buffers: &BufferWindows,
    seen: Valued,
) -> Result<Leaf, OutOfMemory>
    ensures node { IfOk result (λ leaf. leaf.node ≡ BufferWindow buffers.now) }
    ensures known { IfOk result (λ leaf. leaf.known ≡ known) }
    ensures bound { IfOk result (λ leaf. MatchOption leaf.bound (known.distortion ≤ seen.bound) (λ below. (below ≡ seen.bound) × (seen.bound < known.distortion))) }
    ensures time { IfOk result (λ leaf. leaf.values.time.parts ≡ UNKNOWN) }
    ensures seen { IfOk result (λ leaf. leaf.values.seen ≡ seen.kept) }
{
    let with = BufferWindows::copied(alloc, buffers.as_slice())?;
    let below = bound_below(seen.bound, known.distortion);
    Ok(Leaf {
        node: Node::BufferWindow { with },
        bound: below,
        values: Values {
            time: KeptValue::unknown(),
            seen: seen.kept,
        },
        known,
    })
}

/// The leaf with windows of time, which come to what is kept, as those that see the buffers do. Fails only for want of memory.
fn time_leaf(
    alloc: Global,
    table: &Table,
    known: Known,
    fixed: &Fixed,
    windows: &Windows,
    nodes: u32,
    time: KeptValue,
    seen: KeptValue,
) -> Result<Leaf, OutOfMemory>
    requires valid { IsValidTable table.now }
    requires known { IsKnown table.now known }
    requires fixed { FixesVersions table.now fixed.now }
    requires windows { AreSearched windows.now.items }
    requires few_windows { AreShared table.now nodes (length windows.now.items) }
    requires free { (unit : ℕ) × IsFreeUnit table.now fixed.now unit }
    requires time { IsTimeKept table.now fixed.now windows.now.items time }
    ensures leaf { IfOk result (IsLeafOn table.now nodes fixed.now known.distortion) }
    ensures floor { IfOk result (λ leaf. IsNoLower (bound_of_value (value_of_windows table.now fixed.now windows.now.items)) leaf.bound) }
    ensures valued { (seeing : List SeeingWindow) → IsSeenKept table.now fixed.now seeing seen
        → IfOk result (λ leaf. IsValuedBy table.now seeing fixed.now leaf.node leaf.values) }
{
    let with = priced_windows(alloc, windows.as_slice())?;
    let own = time_valued(table, fixed, windows, time);
    let bound = bound_below(own.bound, known.distortion);
    Ok(Leaf {
        node: Node::Window { with },
        bound,
        values: Values {
            time: own.kept,
            seen,
        },
        known,
    })
}

/// A bound below a distortion; none where it isn't.
fn bound_below(bound: u128, distortion: u64) -> Option<u64>
    ensures { MatchOption result (distortion ≤ bound) (λ below. (below ≡ bound) × (bound < distortion)) }
{
    if bound < u128::from(distortion) {
        Some(bound as u64)
    } else {
        None
    }
}

/// The leaf of the one choice that is left, tried.
fn run_leaf(
    alloc: Global,
    table: &Table,
    run: &mut SlotRun<'_>,
    known: Known,
    fixed: &Fixed,
    nodes: u32,
) -> Result<Leaf, OutOfMemory>
    requires valid { IsValidTable table.now }
    requires run { run.old.table ≡ table.now }
    requires known { IsKnown table.now known }
    requires fixed { FixesVersions table.now fixed.now }
    requires one { LeavesOne table.now fixed.now }
    ensures run { run.new.table ≡ table.now }
    ensures leaf { IfOk result (IsLeafOn table.now nodes fixed.now known.distortion) }
    ensures bound { IfOk result (λ leaf. leaf.bound ≡ None) }
    ensures valued { (seeing : List SeeingWindow) → IfOk result (λ leaf. IsValuedBy table.now seeing fixed.now leaf.node leaf.values) }
{
    let choice = choice_left(alloc, fixed)?;
    match run.run(&choice) {
        None => Ok(Leaf {
            node: Node::Run { scheduled: true },
            bound: None,
            values: Values::unknown(),
            known: better(table, known, choice),
        }),
        Some(_miss) => Ok(Leaf {
            node: Node::Run { scheduled: false },
            bound: None,
            values: Values::unknown(),
            known,
        }),
    }
}

/// The one choice that is left.
fn choice_left(alloc: Global, fixed: &Fixed) -> Result<Choice, OutOfMemory>
    ensures { IfOk result (λ choice. choice ≡ choice_left fixed.now) }
{
    let mut choice = ListOf::new(alloc);
    for entry in fixed.as_slice() {
        choice.push(entry.unwrap_or(0))?;
    }
    Ok(choice)
}
