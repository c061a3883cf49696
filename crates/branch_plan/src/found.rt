ghost use Rattle.std.specs.Prelude.{◌≡◌, ◌≤◌, true, length, IfOk};
ghost use Rattle.version_table.specs.declared.limits.TheConstants.{NODES_MOST};
ghost use Rattle.version_table.specs.Table.{IsValidTable, units_of};
ghost use Rattle.dual_bounds.specs.declared.constants.TheConstants.{WINDOWS_MOST};
ghost use Rattle.dual_bounds.specs.Fixed.{FixesVersions};
ghost use Rattle.dual_bounds.specs.Values.{value_of_windows};
ghost use Rattle.dual_bounds.specs.Bounds.{bound_of_value};
ghost use Rattle.multiplier_search.specs.Buffered.{AreSearchedBuffered};
ghost use Rattle.multiplier_search.specs.Windows.{AreSearched, BeatEachTried};
ghost use Rattle.certificate_checker.specs.Shown.{unfixed};
ghost use Rattle.branch_plan.specs.Bound.{unit_dues};
ghost use Rattle.branch_plan.specs.Private.Found.{AreShared, IsSound, ReachesBoth};
ghost use Rattle.branch_plan.specs.Private.Known.{IsKnown};
ghost use Rattle.branch_plan.specs.Private.Root.{BeatEachPair};

use crate::known::Known;
use crate::root::root_windows;
use crate::whole::each_may_have;
use buffer_windows::{BufferWindows, bound_of_windows};
use dual_bounds::{Fixed, Windows};
use list_types::OutOfMemory;
use multiplier_search::{LinearRelaxation, buffered_windows};
use std::alloc::Global;
use version_table::Table;

/// The windows that a search found for the root of its tree, where no version is fixed.
#[derive(Drop)]
pub struct Found {
    /// Windows of time.
    pub time: Windows,
    /// Windows that see the buffers.
    pub buffers: BufferWindows,
}

/// The windows for a tree's root, of both kinds; those of time from a relaxation where each leaf may have all windows of one, and none
/// that see the buffers where a leaf may not have as many. Fails only for want of memory.
pub(crate) fn found_windows(
    alloc: Global,
    table: &Table,
    relaxation: Option<&LinearRelaxation>,
    fixed: &Fixed,
    nodes: u32,
    relaxes: bool,
) -> Result<Found, OutOfMemory>
    requires valid { IsValidTable table.now }
    requires fixed { FixesVersions table.now fixed.now }
    requires nodes { nodes ≤ NODES_MOST }
    requires relaxes { relaxes ≡ true → AreShared table.now nodes WINDOWS_MOST }
    ensures sound { IfOk result (IsSound table.now nodes) }
    ensures tried { IfOk result (λ found. BeatEachTried table.now fixed.now (unit_dues table.now) found.time.items) }
    ensures pairs { IfOk result (λ found. BeatEachPair table.now fixed.now found.time.items) }
{
    let time = root_windows(alloc, table, relaxation, fixed, relaxes)?;
    let seeing = buffered_windows(alloc, table, fixed)?;
    let buffers = shared_windows(alloc, table, seeing, fixed.len(), nodes)?;
    Ok(Found { time, buffers })
}

/// These windows that see the buffers; none where a leaf of a search of so many nodes may not have as many.
fn shared_windows(
    alloc: Global,
    table: &Table,
    windows: BufferWindows,
    units: usize,
    nodes: u32,
) -> Result<BufferWindows, OutOfMemory>
    requires valid { IsValidTable table.now }
    requires searched { AreSearchedBuffered table.now windows }
    requires units { units ≡ length (units_of table.now) }
    requires nodes { nodes ≤ NODES_MOST }
    ensures searched { IfOk result (AreSearchedBuffered table.now) }
    ensures shared { IfOk result (λ found. AreShared table.now nodes (length found)) }
{
    let count = windows.as_slice().len();
    if each_may_have(alloc, table, units, nodes, count)? {
        Ok(windows)
    } else {
        Ok(BufferWindows::new(alloc))
    }
}

/// The bound of a root by its own windows, of the kind that bounds closer, which no scheduled choice falls below.
pub(crate) fn greater_bound(
    table: &Table,
    fixed: &Fixed,
    found: &Found,
    known: &Known,
    time: u64,
) -> u64
    requires valid { IsValidTable table.now }
    requires fixed { fixed.now ≡ unfixed table.now }
    requires buffers { AreSearchedBuffered table.now found.now.buffers }
    requires windows { AreSearched found.now.time.items }
    requires known { IsKnown table.now known.now }
    requires time { time ≡ bound_of_value (value_of_windows table.now (unfixed table.now) found.now.time.items) }
    ensures { ReachesBoth table.now found.now time result }
{
    match bound_of_windows(table, fixed.as_slice(), found.buffers.as_slice()) {
        Some(bound) => {
            if bound > u128::from(time) {
                bound as u64
            } else {
                time
            }
        }
        None => time,
    }
}
