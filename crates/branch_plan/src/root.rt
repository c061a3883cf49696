ghost use Rattle.std.specs.Prelude.{◌≡◌, ◌<◌, ◌≤◌, ◌^◌, ℕ, true, false, length, IfOk, IfSome, ◌≤ℤ◌};
ghost use Rattle.version_table.specs.Table.{IsValidTable};
ghost use Rattle.dual_bounds.specs.declared.constants.TheConstants.{WINDOWS_MOST};
ghost use Rattle.dual_bounds.specs.Bounds.{bound_of_value};
ghost use Rattle.dual_bounds.specs.Fixed.{FixesVersions};
ghost use Rattle.dual_bounds.specs.Values.{value_of_windows};
ghost use Rattle.multiplier_search.specs.Windows.{AreSearched, BeatEachTried};
ghost use Rattle.certificate_checker.specs.Shown.{unfixed};
ghost use Rattle.branch_plan.specs.Bound.{unit_dues};
ghost use Rattle.branch_plan.specs.Private.Known.{IsKnown};
ghost use Rattle.branch_plan.specs.Private.Root.{BeatEachPair};

use crate::known::Known;
use crate::limits::RELAXED_MOST;
use dual_bounds::constants::WINDOWS_MOST;
use dual_bounds::{Fixed, Windows, bound_of, window_value, windows_of};
use list_types::OutOfMemory;
use multiplier_search::{LinearRelaxation, best_single, best_window, improve};
use std::alloc::Global;
use version_table::Table;

/// The relaxation of a table of so many units, where the nodes below the root are asked for their own too: each leaf may have all
/// windows of one, and the first nodes are cheap. Fails only for want of memory.
pub(crate) fn relaxation_for(
    alloc: Global,
    table: &Table,
    units: usize,
    relaxes: bool,
) -> Result<Option<LinearRelaxation>, OutOfMemory>
    requires valid { IsValidTable table.now }
    ensures { IfOk result (λ made. IfSome made (λ relaxation. relaxes ≡ true)) }
{
    if !relaxes || units as u64 > RELAXED_MOST {
        return Ok(None);
    }
    Ok(Some(LinearRelaxation::new(alloc, table)?))
}

/// The windows of a tree's root, where each leaf may have all windows of a relaxation, or two. Their value is at least that of each
/// window that is tried alone, and of the first best multiplier with any other one. Fails only for want of memory.
pub(crate) fn root_windows(
    alloc: Global,
    table: &Table,
    relaxation: Option<&LinearRelaxation>,
    fixed: &Fixed,
    relaxes: bool,
) -> Result<Windows, OutOfMemory>
    requires valid { IsValidTable table.now }
    requires fixed { FixesVersions table.now fixed.now }
    ensures searched { IfOk result (λ found. AreSearched found.items) }
    ensures most { IfOk result (λ found. length found.items ≤ WINDOWS_MOST) }
    ensures few { relaxes ≡ false → IfOk result (λ found. length found.items ≤ 2) }
    ensures tried { IfOk result (λ found. BeatEachTried table.now fixed.now (unit_dues table.now) found.items) }
    ensures pairs { IfOk result (λ found. BeatEachPair table.now fixed.now found.items) }
{
    let alone = best_window(alloc, table, fixed)?;
    let pair = best_pair(alloc, table, fixed)?;
    let start = of_greater_value(table, fixed, alone, pair);
    if !relaxes {
        return Ok(start);
    }
    match relaxation {
        Some(relaxation) => relaxed_windows(alloc, table, relaxation, fixed, &start),
        None => relaxed_once(alloc, table, fixed, &start),
    }
}

/// The windows of a relaxation where these versions are fixed, whose value is at least that of these. Fails only for want of memory.
pub(crate) fn relaxed_windows(
    alloc: Global,
    table: &Table,
    relaxation: &LinearRelaxation,
    fixed: &Fixed,
    start: &Windows,
) -> Result<Windows, OutOfMemory>
    requires valid { IsValidTable table.now }
    requires fixed { FixesVersions table.now fixed.now }
    requires searched { AreSearched start.now.items }
    ensures searched { IfOk result (λ found. AreSearched found.items) }
    ensures most { IfOk result (λ found. length found.items ≤ WINDOWS_MOST) }
    ensures start { IfOk result (λ found. value_of_windows table.now fixed.now start.now.items ≤ℤ value_of_windows table.now fixed.now found.items) }
{
    let found = relaxation.windows(alloc, table, fixed, start)?;
    prove!(found.len() <= WINDOWS_MOST);
    Ok(found)
}

/// The same of a relaxation that nothing else is asked of.
fn relaxed_once(
    alloc: Global,
    table: &Table,
    fixed: &Fixed,
    start: &Windows,
) -> Result<Windows, OutOfMemory>
    requires valid { IsValidTable table.now }
    requires fixed { FixesVersions table.now fixed.now }
    requires searched { AreSearched start.now.items }
    ensures searched { IfOk result (λ found. AreSearched found.items) }
    ensures most { IfOk result (λ found. length found.items ≤ WINDOWS_MOST) }
    ensures start { IfOk result (λ found. value_of_windows table.now fixed.now start.now.items ≤ℤ value_of_windows table.now fixed.now found.items) }
{
    let relaxation = LinearRelaxation::new(alloc, table)?;
    relaxed_windows(alloc, table, &relaxation, fixed, start)
}

/// The first best multiplier after one turn of the search, as windows.
fn best_pair(alloc: Global, table: &Table, fixed: &Fixed) -> Result<Windows, OutOfMemory>
    requires valid { IsValidTable table.now }
    requires fixed { FixesVersions table.now fixed.now }
    ensures searched { IfOk result (λ found. AreSearched found.items) }
    ensures few { IfOk result (λ found. length found.items ≤ 2) }
    ensures pairs { IfOk result (λ found. BeatEachPair table.now fixed.now found.items) }
{
    let first = best_single(alloc, table, fixed)?;
    let pair = improve(alloc, table, fixed, &first, 1)?;
    Ok(windows_of(pair.as_slice()))
}

/// The windows of greater value, the first ones where they have the same.
fn of_greater_value(table: &Table, fixed: &Fixed, a: Windows, b: Windows) -> Windows
    requires valid { IsValidTable table.now }
    requires fixed { FixesVersions table.now fixed.now }
    requires first { AreSearched a.items }
    requires second { AreSearched b.items }
    ensures searched { AreSearched result.items }
    ensures few { length a.items ≤ 2 → length b.items ≤ 2 → length result.items ≤ 2 }
    ensures first { value_of_windows table.now fixed.now a.items ≤ℤ value_of_windows table.now fixed.now result.items }
    ensures second { value_of_windows table.now fixed.now b.items ≤ℤ value_of_windows table.now fixed.now result.items }
{
    let value = window_value(table, fixed, a.as_slice());
    let other = window_value(table, fixed, b.as_slice());
    if value < other { b } else { a }
}

/// The bound of some windows with nothing fixed, which no scheduled choice falls below.
pub(crate) fn root_bound(table: &Table, fixed: &Fixed, windows: &Windows, known: &Known) -> u64
    requires valid { IsValidTable table.now }
    requires fixed { fixed.now ≡ unfixed table.now }
    requires windows { AreSearched windows.now.items }
    requires known { IsKnown table.now known.now }
    ensures bound { result ≡ bound_of_value (value_of_windows table.now (unfixed table.now) windows.now.items) }
    ensures few { length windows.now.items ≤ WINDOWS_MOST }
{
    bound_of(window_value(table, fixed, windows.as_slice())) as u64
}
