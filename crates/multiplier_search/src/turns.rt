ghost use Rattle.std.specs.Prelude.{◌+◌, ◌<◌, ◌≤◌, length, map, IfOk, ◌≤ℤ◌};
ghost use Rattle.version_table.specs.Table.{IsValidTable, units_of};
ghost use Rattle.dual_bounds.specs.declared.constants.TheConstants.{WINDOWS_MOST};
ghost use Rattle.dual_bounds.specs.Fixed.{FixesVersions};
ghost use Rattle.dual_bounds.specs.Values.{from_start, value_of_multipliers, value_of_windows};
ghost use Rattle.multiplier_search.specs.Private.Turns.{AreFromStart, AreNext};
ghost use Rattle.multiplier_search.specs.Single.{AreInOrder, dues_of};
ghost use Rattle.multiplier_search.specs.Turns.{BeatAdditions, BeatChanges};
ghost use Rattle.multiplier_search.specs.Windows.{AreSearched};

use crate::additions::best_addition;
use crate::changes::{best_change, of_greater_value};
use crate::lists::multipliers_of;
use dual_bounds::constants::WINDOWS_MOST;
use dual_bounds::{Fixed, Multipliers, Window, Windows, copied, window_value, windows_of};
use list_types::OutOfMemory;
use std::alloc::Global;
use version_table::Table;

/// Multipliers of no less value than those at the start, after at most so many turns. One turn reaches at least the value
/// of any one lambda changed, and, where there are fewer than 64 multipliers, of any one added at a unit's due time; it adds
/// at most one. Fails only for want of memory.
pub fn improve(
    alloc: Global,
    table: &Table,
    fixed: &Fixed,
    from: &Multipliers,
    turns: u32,
) -> Result<Multipliers, OutOfMemory>
    requires valid { IsValidTable table.now }
    requires fixed { FixesVersions table.now fixed.now }
    requires order { AreInOrder from.now.items }
    ensures few { IfOk result (λ found. length found.items ≤ length from.now.items + turns) }
    ensures order { IfOk result (λ found. AreInOrder found.items) }
    ensures start { IfOk result (λ found. value_of_multipliers table.now fixed.now from.now.items ≤ℤ value_of_multipliers table.now fixed.now found.items) }
    ensures changes { 1 ≤ turns → IfOk result (λ found. BeatChanges table.now fixed.now (map from_start from.now.items) (map from_start found.items)) }
    ensures additions { 1 ≤ turns → length from.now.items < WINDOWS_MOST → IfOk result (λ found.
        BeatAdditions table.now fixed.now (dues_of (units_of table.now)) (map from_start from.now.items) (map from_start found.items)) }
{
    let mut with = windows_of(from.as_slice());
    let mut left = turns;
    while left > 0 {
        let next = turn(alloc, table, fixed, with.as_slice())?;
        left = turns_left(table, fixed, with.as_slice(), next.as_slice(), left);
        with = next;
    }
    Ok(multipliers_of(with.as_slice()))
}

/// Windows of no less value than those at the start, after at most so many turns. One turn reaches at least the value of any
/// one lambda changed. Fails only for want of memory.
pub fn improve_windows(
    alloc: Global,
    table: &Table,
    fixed: &Fixed,
    from: &Windows,
    turns: u32,
) -> Result<Windows, OutOfMemory>
    requires valid { IsValidTable table.now }
    requires fixed { FixesVersions table.now fixed.now }
    requires searched { AreSearched from.now.items }
    ensures few { IfOk result (λ found. length found.items ≤ length from.now.items) }
    ensures searched { IfOk result (λ found. AreSearched found.items) }
    ensures start { IfOk result (λ found. value_of_windows table.now fixed.now from.now.items ≤ℤ value_of_windows table.now fixed.now found.items) }
    ensures changes { 1 ≤ turns → IfOk result (λ found. BeatChanges table.now fixed.now from.now.items found.items) }
{
    let mut with = copied(from.as_slice());
    let mut left = turns;
    while left > 0 {
        let next = best_change(table, fixed, with.as_slice());
        left = turns_left(table, fixed, with.as_slice(), next.as_slice(), left);
        with = next;
    }
    Ok(with)
}

/// The turns that are left behind one: none where it gained nothing, since those behind it would gain nothing either.
fn turns_left(table: &Table, fixed: &Fixed, with: &[Window], next: &[Window], left: u32) -> u32
    requires valid { IsValidTable table.now }
    requires fixed { FixesVersions table.now fixed.now }
    requires few { length with.now ≤ WINDOWS_MOST }
    requires next_few { length next.now ≤ WINDOWS_MOST }
    requires with { AreSearched with.now }
    requires next { AreSearched next.now }
    requires left { 1 ≤ left }
    ensures { result < left }
{
    if window_value(table, fixed, with) < window_value(table, fixed, next) {
        left - 1
    } else {
        0
    }
}

/// What one turn makes of some multipliers, as windows: the best of one lambda changed, or of one multiplier added. Fails only
/// for want of memory.
fn turn(
    alloc: Global,
    table: &Table,
    fixed: &Fixed,
    with: &[Window],
) -> Result<Windows, OutOfMemory>
    requires valid { IsValidTable table.now }
    requires fixed { FixesVersions table.now fixed.now }
    requires few { length with.now ≤ WINDOWS_MOST }
    requires searched { AreSearched with.now }
    ensures next { IfOk result (λ found. AreNext with.now 1 found.items) }
    ensures value { IfOk result (λ found. value_of_windows table.now fixed.now with.now ≤ℤ value_of_windows table.now fixed.now found.items) }
    ensures changes { IfOk result (λ found. BeatChanges table.now fixed.now with.now found.items) }
    ensures additions { IfOk result (λ found. length with.now < WINDOWS_MOST
        → BeatAdditions table.now fixed.now (dues_of (units_of table.now)) with.now found.items) }
{
    let changed = best_change(table, fixed, with);
    if with.len() == WINDOWS_MOST {
        return Ok(changed);
    }
    let added = best_addition(alloc, table, fixed, with)?;
    Ok(of_greater_value(table, fixed, changed, added))
}
