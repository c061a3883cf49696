ghost use Rattle.std.specs.Prelude.{◌≡◌, ◌≤◌, nat_le, [], ◌∷◌, ◌++◌, true, false, length, IfOk, OnOk};
ghost use Rattle.std.specs.List.{filter};
ghost use Rattle.version_table.specs.declared.limits.TheConstants.{NODES_MOST};
ghost use Rattle.version_table.specs.Table.{IsValidTable, units_of};
ghost use Rattle.buffer_windows.specs.declared.constants.TheConstants.{BUFFER_WINDOWS_MOST};
ghost use Rattle.branch_plan.specs.Private.Found.{AreShared};
ghost use Rattle.branch_plan.specs.Private.Whole.{behind};
ghost use Rattle.branch_plan.specs.Tree.{AreEnough, nodes_of_whole_tree, version_counts};

use crate::changes::unit_at;
use crate::limits::WINDOWS_IN_ALL;
use list_types::OutOfMemory;
use std::alloc::Global;
use version_table::Table;

/// Whether each leaf of a search of so many nodes may have so many windows of a kind: where the nodes have room for the whole tree of a
/// table of so many units, only if these have room for as many windows too. Fails only for want of memory.
pub(crate) fn each_may_have(
    alloc: Global,
    table: &Table,
    units: usize,
    nodes: u32,
    windows: usize,
) -> Result<bool, OutOfMemory>
    requires valid { IsValidTable table.now }
    requires units { units ≡ length (units_of table.now) }
    requires nodes { nodes ≤ NODES_MOST }
    requires windows { windows ≤ BUFFER_WINDOWS_MOST }
    ensures { IfOk result (λ may. may ≡ true → AreShared table.now nodes windows) }
{
    if nodes as usize * windows <= WINDOWS_IN_ALL {
        return Ok(true);
    }
    let whole = may_be_whole(alloc, table, units, nodes)?;
    Ok(!whole)
}

/// Whether so many nodes have room for the whole tree of a table of so many units, which branches on those of most versions first.
/// Fails only for want of memory.
fn may_be_whole(alloc: Global, table: &Table, units: usize, nodes: u32) -> Result<bool, OutOfMemory>
    requires valid { IsValidTable table.now }
    requires units { units ≡ length (units_of table.now) }
    ensures { IfOk result (λ whole. whole ≡ false → AreEnough table.now nodes → ⊥) }
{
    let mut counts = version_counts(alloc, table, units)?;
    counts.sort()?;
    Ok(whole_nodes(counts.as_slice()) <= u64::from(nodes))
}

/// How many versions each unit has that has two or more.
fn version_counts(alloc: Global, table: &Table, units: usize) -> Result<Vec<usize>, OutOfMemory>
    requires { units ≡ length (units_of table.now) }
    ensures { IfOk result (λ counts. counts.items ≡ version_counts table.now) }
{
    let mut counts = Vec::new(alloc);
    for place in 0..units {
        add_if_many(&mut counts, unit_at(table, place).versions.len())?;
    }
    Ok(counts)
}

/// Adds a number of versions that is two or more.
fn add_if_many(counts: &mut Vec<usize>, count: usize) -> Result<(), OutOfMemory>
    ensures { OnOk result (counts.new.items ≡ counts.old.items ++ filter (nat_le 2) (count ∷ [])) }
{
    if count >= 2 {
        counts.push(count)?;
    }
    Ok(())
}

/// The nodes of a whole tree that branches on units of so many versions, the last ones first; as many as a `u64` holds, where there are
/// more.
fn whole_nodes(counts: &[usize]) -> u64
    ensures { result ≤ nodes_of_whole_tree (behind counts.now []) }
{
    let mut nodes: u64 = 1;
    for count in counts {
        nodes = nodes.saturating_mul(*count as u64).saturating_add(1);
    }
    nodes
}
