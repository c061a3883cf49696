ghost use Rattle.std.specs.Prelude.{◌≡◌, ◌≢◌, ◌+◌, ◌-◌, ◌*◌, ◌/◌, ◌<◌, ◌≤◌, ℕ, cond, true, false, length};
ghost use Rattle.version_table.specs.Table.{IsValidTable, units_of};
ghost use Rattle.version_table.specs.declared.limits.TheConstants.{VERSIONS_MOST};
ghost use Rattle.branch_plan.specs.Changes.{change_count};
ghost use Rattle.branch_plan.specs.declared.limits.TheConstants.{CHANGES_MOST};
ghost use Rattle.branch_plan.specs.Private.Debt.{CanPay, IsDebtOf, runs_for_all};

use crate::changes::unit_at;
use crate::owing::Owing;
use version_table::{Table, Unit};

/// What single changes owe for so many runs. Where these are enough for a whole round behind each change, that none is left
/// that helps; else that each whole round has lowered the distortion below a start by one, as long as one is left that helps.
#[derive(Clone, Copy)]
pub(crate) struct Debt {
    /// All runs.
    pub evaluations: u32,
    /// How many single changes the table has.
    pub changes: u64,
    /// The distortion that is to be lowered.
    pub start: u64,
}

/// What single changes owe over a start.
pub(crate) fn debt_of(table: &Table, units: usize, evaluations: u32, start: u64) -> Debt
    requires valid { IsValidTable table.now }
    requires units { units ≡ length (units_of table.now) }
    ensures debt { IsDebtOf table.now result }
    ensures evaluations { result.evaluations ≡ evaluations }
    ensures start { result.start ≡ start }
{
    Debt {
        evaluations,
        changes: change_count(table, units),
        start,
    }
}

/// Whether the runs are enough for a whole round behind each change.
pub(crate) fn is_for_all(debt: Debt) -> bool
    requires few { debt.changes ≤ CHANGES_MOST }
    ensures yes { result ≡ true → runs_for_all debt.changes ≤ debt.evaluations }
    ensures no { result ≡ false → debt.evaluations < runs_for_all debt.changes }
{
    1 + (debt.changes + 1) * debt.changes <= u64::from(debt.evaluations)
}

/// Whether runs are too few for a whole round behind each change, and a distortion lies below the start by one for each whole
/// round.
pub(crate) fn is_paid(debt: Debt, distortion: u64) -> bool
    requires few { debt.changes ≤ CHANGES_MOST }
    requires kept { distortion ≤ debt.start }
    ensures few { result ≡ true → debt.evaluations < runs_for_all debt.changes }
    ensures gained { result ≡ true → distortion + debt.evaluations / debt.changes ≤ debt.start }
{
    if debt.changes == 0 {
        return false;
    }
    !is_for_all(debt) && rounds_owed(debt, distortion, false) == 0
}

/// How many of the runs that are left single changes can do without.
pub(crate) fn free_of(debt: Debt, owing: &Owing) -> u32
    requires few { debt.changes ≤ CHANGES_MOST }
    requires kept { owing.now.known.distortion ≤ debt.start }
    requires pays { CanPay debt.changes debt.evaluations debt.start owing.now.known.distortion owing.now.left owing.now.alone }
    ensures within { result ≤ owing.now.left }
    ensures pays { (used : ℕ) → used ≤ result
        → CanPay debt.changes debt.evaluations debt.start owing.now.known.distortion (owing.now.left - used) owing.now.alone }
{
    (u64::from(owing.left) - needed(debt, owing)) as u32
}

/// How many of the runs that are left single changes need.
fn needed(debt: Debt, owing: &Owing) -> u64
    requires few { debt.changes ≤ CHANGES_MOST }
    requires kept { owing.now.known.distortion ≤ debt.start }
    requires pays { CanPay debt.changes debt.evaluations debt.start owing.now.known.distortion owing.now.left owing.now.alone }
    ensures within { result ≤ owing.now.left }
    ensures pays { (left : ℕ) → result ≤ left → CanPay debt.changes debt.evaluations debt.start owing.now.known.distortion left owing.now.alone }
{
    let left = u64::from(owing.left);
    if debt.changes == 0 {
        return left;
    }
    if is_for_all(debt) {
        return 1 + (debt.changes + 1) * debt.changes;
    }
    rounds_owed(debt, owing.known.distortion, owing.alone) * debt.changes
}

/// How many whole rounds are owed still where a distortion is reached: the least number that makes up for what it lacks. A round
/// that has failed counts as one.
fn rounds_owed(debt: Debt, distortion: u64, failed: bool) -> u64
    requires some { debt.changes ≢ 0 }
    requires kept { distortion ≤ debt.start }
    ensures enough { distortion + debt.evaluations / debt.changes ≤ debt.start + (result + cond failed 1 0) }
    ensures least { (rounds : ℕ) → distortion + debt.evaluations / debt.changes ≤ debt.start + (rounds + cond failed 1 0) → result ≤ rounds }
{
    let whole = u64::from(debt.evaluations) / debt.changes;
    let owed = whole.saturating_sub(debt.start - distortion);
    if failed { owed.saturating_sub(1) } else { owed }
}

/// How many single changes a table has: of each unit its versions less one.
fn change_count(table: &Table, units: usize) -> u64
    requires valid { IsValidTable table.now }
    requires units { units ≡ length (units_of table.now) }
    ensures count { result ≡ change_count table.now }
    ensures few { result ≤ VERSIONS_MOST * units }
{
    let mut count = 0;
    for place in 0..units {
        let unit = unit_at(table, place);
        let changes = changes_of(unit);
        count += changes;
    }
    count
}

/// How many single changes a unit has: its versions less one.
fn changes_of(unit: &Unit) -> u64
    ensures count { result ≡ length unit.now.versions.items - 1 }
    ensures few { result ≤ VERSIONS_MOST }
{
    (unit.versions.len() as u64).saturating_sub(1)
}
