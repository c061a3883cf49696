ghost use Rattle.std.specs.Prelude.{◌≡◌, ◌≤◌, ◌↔◌, IsTrue, length, MatchOption};
ghost use Rattle.version_table.specs.declared.table.Table.{Table};
ghost use Rattle.version_table.specs.declared.table.Unit.{Unit as CodedUnit};
ghost use Rattle.version_table.specs.Choice.{Fits};
ghost use Rattle.version_table.specs.Table.{IsValidTable};
ghost use Rattle.slot_rule.specs.Schedule.{IsScheduled};
ghost use Rattle.dual_bounds.specs.Fixed.{FixesVersions};
ghost use Rattle.bound_certificate.specs.declared.cert.Node.TheVariants.{Branch};
ghost use Rattle.certificate_checker.specs.Faults.{AreRight, WindowGoesBefore, IsFirstOfBranch, IsFirstOfRun, IsFirstOfWindows, IsFlagOf, IsRight, IsSettled, KeepLimit, LeavesOne, NoneEmpty, Rise};
ghost use Rattle.certificate_checker.specs.Shown.{bound_of_run, choice_left};
ghost use Rattle.certificate_checker.specs.Private.Order.{IsDueOrder};
ghost use Rattle.certificate_checker.specs.Private.Paths.{IsPath};

use crate::costs::distortion_of_all;
use crate::order::DueUnit;
use crate::path::{Path, versions_of};
use crate::why::Why;
use dual_bounds::Window;
use dual_bounds::constants::LAMBDA_MOST;
use slot_rule::first_miss_of;
use version_table::Table;

/// What is wrong first with a branch on a unit.
pub(crate) fn fault_of_branch(unit: u32, path: &Path) -> Option<Why>
    ensures { (table : Table) → IsPath table path.now → MatchOption result (IsRight table path.now.fixed.items (Branch unit)) (IsFirstOfBranch table path.now.fixed.items unit) }
{
    if unit as usize >= path.fixed.len() {
        return Some(Why::UnitRange);
    }
    match path.version(unit) {
        Some(_k) => Some(Why::UnitFixed),
        None => None,
    }
}

/// What is wrong with windows first.
pub(crate) fn fault_of_windows(windows: &[Window]) -> Option<Why>
    ensures { MatchOption result (AreRight windows.now) (IsFirstOfWindows windows.now) }
{
    if !rise(windows) {
        return Some(Why::DueOrder);
    }
    if !none_empty(windows) {
        return Some(Why::WindowEmpty);
    }
    if !keep_limit(windows) {
        return Some(Why::LambdaLimit);
    }
    None
}

/// Whether each window goes before the next.
fn rise(windows: &[Window]) -> bool
    ensures { IsTrue result ↔ Rise windows.now }
{
    for i in 1..windows.len() {
        if !goes_before(windows[i - 1], windows[i]) {
            return false;
        }
    }
    true
}

/// Whether a window is due before another, or at the same time and begins before it.
fn goes_before(a: Window, b: Window) -> bool
    ensures { IsTrue result ↔ WindowGoesBefore a b }
{
    a.due < b.due || (a.due == b.due && a.from < b.from)
}

/// Whether no window begins behind its due time.
fn none_empty(windows: &[Window]) -> bool
    ensures { IsTrue result ↔ NoneEmpty windows.now }
{
    windows.iter().all(|window| window.from <= window.due)
}

/// Whether no lambda passes its limit.
fn keep_limit(windows: &[Window]) -> bool
    ensures { IsTrue result ↔ KeepLimit windows.now }
{
    windows.iter().all(|window| window.lambda <= LAMBDA_MOST)
}

/// What is wrong first with the one choice that a path leaves and whether it is scheduled.
pub(crate) fn fault_of_run(table: &Table, scheduled: bool, path: &Path) -> Option<Why>
    requires valid { IsValidTable table.now }
    requires path { IsPath table.now path.now }
    ensures { MatchOption result (LeavesOne table.now path.now.fixed.items × IsFlagOf table.now (choice_left path.now.fixed.items) scheduled) (IsFirstOfRun table.now path.now.fixed.items scheduled) }
{
    if !leaves_one(table, path.fixed.as_slice()) {
        return Some(Why::RunOpen);
    }
    if is_scheduled(table, path.choice.as_slice()) != scheduled {
        return Some(Why::RunWrong);
    }
    None
}

/// Whether each unit is fixed or has one version.
fn leaves_one(table: &Table, fixed: &[Option<u8>]) -> bool
    requires { FixesVersions table.now fixed.now }
    ensures { IsTrue result ↔ LeavesOne table.now fixed.now }
{
    for unit in 0..fixed.len() {
        if !is_settled(versions_of(table, unit), fixed[unit]) {
            return false;
        }
    }
    true
}

/// Whether a unit of so many versions is fixed or has one version.
fn is_settled(versions: usize, entry: Option<u8>) -> bool
    ensures { (unit : CodedUnit) → length unit.versions.items ≡ versions → IsTrue result ↔ IsSettled unit entry }
{
    match entry {
        Some(_k) => true,
        None => versions <= 1,
    }
}

/// Whether a choice is scheduled.
pub(crate) fn is_scheduled(table: &Table, choice: &[u8]) -> bool
    requires valid { IsValidTable table.now }
    requires fits { Fits table.now choice.now }
    ensures { IsTrue result ↔ IsScheduled table.now choice.now }
{
    first_miss_of(table, choice).is_none()
}

/// The bound of the one choice that is left.
pub(crate) fn bound_of_run(
    table: &Table,
    order: &[DueUnit],
    scheduled: bool,
    choice: &[u8],
) -> Option<u128>
    requires valid { IsValidTable table.now }
    requires order { IsDueOrder table.now order.now }
    requires fits { Fits table.now choice.now }
    ensures { result ≡ bound_of_run table.now choice.now scheduled }
{
    match scheduled {
        true => Some(u128::from(distortion_of_all(table, order, choice))),
        false => None,
    }
}
