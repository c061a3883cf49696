ghost use Rattle.std.specs.Prelude.{◌≡◌, ℕ, ◌^◌, ◌<◌, ◌≤◌, List, Some, length};
ghost use Rattle.std.specs.List.Sorted.{IsNonDecreasingBy};
ghost use Rattle.version_table.specs.Choice.{Fits, distortion_of_choice};
ghost use Rattle.version_table.specs.Table.{IsValidTable, units_of};
ghost use Rattle.dual_bounds.specs.Fixed.{FixesVersions};
ghost use Rattle.dual_bounds.specs.Values.{least_costs, value_of_windows};
ghost use Rattle.certificate_checker.specs.Faults.{AreRight, NoneEmpty};
ghost use Rattle.certificate_checker.specs.Shown.{bound_of_windows};
ghost use Rattle.certificate_checker.specs.Private.FixedCosts.{charged_at};
ghost use Rattle.certificate_checker.specs.Private.Order.{IsDueOrder};
ghost use Rattle.certificate_checker.specs.Private.PlaceSums.{AreSums};
ghost use Rattle.sum_tree.specs.Nodes.{sum_from};
ghost use Rattle.certificate_checker.specs.Private.Tallies.{IsTally, free_cost};

use crate::order::{DueUnit, unit_at};
use crate::prices::{Passing, falls_of, rises_of};
use crate::tally::Tally;
use dual_bounds::constants::{DISTORTION_PARTS, WINDOWS_MOST};
use dual_bounds::{Window, bound_of, unit_cost, worth};
use version_table::Table;

/// The bound of some windows, where these versions are fixed.
pub(crate) fn bound_of_windows(
    table: &Table,
    tally: &Tally,
    fixed: &[Option<u8>],
    windows: &[Window],
) -> u128
    requires valid { IsValidTable table.now }
    requires tally { (innermost : List ℕ) × IsTally table.now fixed.now innermost tally.now }
    requires fixed { FixesVersions table.now fixed.now }
    requires few { length windows.now ≤ WINDOWS_MOST }
    requires right { AreRight windows.now }
    ensures { Some result ≡ bound_of_windows table.now fixed.now windows.now }
{
    bound_of(value_of_windows(table, tally, fixed, windows))
}

/// The value of some windows, where these versions are fixed, in 1/256 of a distortion.
fn value_of_windows(table: &Table, tally: &Tally, fixed: &[Option<u8>], windows: &[Window]) -> i128
    requires valid { IsValidTable table.now }
    requires tally { (innermost : List ℕ) × IsTally table.now fixed.now innermost tally.now }
    requires fixed { FixesVersions table.now fixed.now }
    requires few { length windows.now ≤ WINDOWS_MOST }
    requires right { AreRight windows.now }
    ensures { result ≡ value_of_windows table.now fixed.now windows.now }
{
    least_costs(table, tally, fixed, windows) as i128 - worth(table, windows)
}

/// What the units cost at least together where packets are charged: those of which nothing is fixed one after the other,
/// and of the others the sum of their distortions and what their packets in each window are charged.
fn least_costs(table: &Table, tally: &Tally, fixed: &[Option<u8>], windows: &[Window]) -> u128
    requires valid { IsValidTable table.now }
    requires tally { (innermost : List ℕ) × IsTally table.now fixed.now innermost tally.now }
    requires fixed { FixesVersions table.now fixed.now }
    requires few { length windows.now ≤ WINDOWS_MOST }
    requires right { AreRight windows.now }
    ensures value { result ≡ least_costs windows.now (units_of table.now) fixed.now }
    ensures small { result < 2 ^ 85 }
{
    let distortion = tally.distortions.between(0, tally.order.len());
    least_of_free(table, tally, fixed, windows)
        + u128::from(DISTORTION_PARTS) * distortion
        + charges(tally, windows)
}

/// What the units cost at least of which nothing is fixed: without windows their sum is kept.
fn least_of_free(table: &Table, tally: &Tally, fixed: &[Option<u8>], windows: &[Window]) -> u128
    requires valid { IsValidTable table.now }
    requires tally { (innermost : List ℕ) × IsTally table.now fixed.now innermost tally.now }
    requires fixed { FixesVersions table.now fixed.now }
    requires few { length windows.now ≤ WINDOWS_MOST }
    requires right { AreRight windows.now }
    ensures { result ≡ sum_from (free_cost table.now tally.now.order.items fixed.now windows.now) 0 (length tally.now.order.items) }
{
    if windows.is_empty() {
        tally.free_least
    } else {
        free_costs(table, tally, fixed, windows)
    }
}

/// What the units cost at least of which nothing is fixed: one after the other by due time, with the price of a packet that
/// is due then.
fn free_costs(table: &Table, tally: &Tally, fixed: &[Option<u8>], windows: &[Window]) -> u128
    requires valid { IsValidTable table.now }
    requires tally { (innermost : List ℕ) × IsTally table.now fixed.now innermost tally.now }
    requires fixed { FixesVersions table.now fixed.now }
    requires few { length windows.now ≤ WINDOWS_MOST }
    requires right { AreRight windows.now }
    ensures { result ≡ sum_from (free_cost table.now tally.now.order.items fixed.now windows.now) 0 (length tally.now.order.items) }
{
    let order = tally.order.as_slice();
    let mut rises = Passing::new(rises_of(windows));
    let mut falls = Passing::new(falls_of(windows));
    let mut total = 0;
    let mut place = tally.links.next[0];
    while place <= order.len() {
        let at = order[place - 1];
        let risen = rises.before(at.due + 1);
        let fallen = falls.before(at.due);
        let cost = unit_cost(unit_at(table, at), fixed[at.unit], risen - fallen);
        total += u128::from(cost);
        place = tally.links.next[place];
    }
    total
}

/// What the packets of the versions that are fixed are charged: for each window its lambda, as often as packets are due in it.
fn charges(tally: &Tally, windows: &[Window]) -> u128
    requires rising { IsNonDecreasingBy (λ at. at.due) tally.now.order.items }
    requires packets { AreSums tally.now.packets × (tally.now.packets.count ≡ length tally.now.order.items) }
    requires some { NoneEmpty windows.now }
    requires small { sum_from (charged_at tally.now windows.now) 0 (length tally.now.order.items) < 2 ^ 85 }
    ensures { result ≡ sum_from (charged_at tally.now windows.now) 0 (length tally.now.order.items) }
{
    let mut total = 0;
    for window in windows {
        total += u128::from(window.lambda) * tally.packets_due(window.from, window.due);
    }
    total
}

/// The distortion of a choice.
pub(crate) fn distortion_of_all(table: &Table, order: &[DueUnit], choice: &[u8]) -> u64
    requires valid { IsValidTable table.now }
    requires order { IsDueOrder table.now order.now }
    requires fits { Fits table.now choice.now }
    ensures { result ≡ distortion_of_choice table.now choice.now }
{
    let mut total = 0;
    for at in order {
        total += unit_at(table, *at).versions[usize::from(choice[at.unit])].distortion;
    }
    total
}
