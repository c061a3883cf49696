ghost use Rattle.std.specs.Prelude.{◌≡◌, ◌-◌, ◌<◌, ◌≤◌, ℕ, true, false, length, IfOk};
ghost use Rattle.version_table.specs.declared.table.Table.{Table as CodedTable};
ghost use Rattle.version_table.specs.Table.{IsValidTable, units_of};
ghost use Rattle.branch_plan.specs.declared.debt.Debt.{Debt as Owed};
ghost use Rattle.branch_plan.specs.declared.limits.TheConstants.{CHANGES_MOST};
ghost use Rattle.branch_plan.specs.Private.Debt.{CanPay, IsDebtOf, IsOwing, runs_for_all};
ghost use Rattle.branch_plan.specs.Private.Known.{IsKnown};

use crate::changes::{Tried, round};
use crate::debt::{Debt, free_of, is_for_all};
use crate::filled::{FILLED_RUNS_MOST, by_filling};
use crate::known::{Known, copied};
use list_types::OutOfMemory;
use slot_rule::SlotRun;
use std::alloc::Global;
use version_table::Table;

/// A known choice while single changes of it may be owed.
#[derive(Drop)]
pub(crate) struct Owing {
    /// The choice.
    pub known: Known,
    /// The runs that are left.
    pub left: u32,
    /// Whether no single change of the choice is left that helps.
    pub alone: bool,
    /// Whether it was found otherwise than by single changes.
    pub found: bool,
    /// The unit from which on changes are tried next.
    pub place: usize,
}

/// A known choice, or a better one that fills the room there is. As many single changes come first as it takes until the filling
/// has all runs that it could use, or all that are left. Fails only for want of memory.
pub(crate) fn filled_first(
    alloc: Global,
    table: &Table,
    run: &mut SlotRun<'_>,
    debt: Debt,
    known: Known,
) -> Result<Owing, OutOfMemory>
    requires valid { IsValidTable table.now }
    requires run { run.old.table ≡ table.now }
    requires known { IsKnown table.now known }
    requires debt { IsDebtOf table.now debt }
    requires start { debt.start ≡ known.distortion }
    ensures run { run.new.table ≡ table.now }
    ensures owing { IfOk result (IsOwing table.now debt) }
{
    let start = Owing {
        known,
        left: debt.evaluations,
        alone: false,
        found: false,
        place: 0,
    };
    let ready = after_first_changes(table, run, debt, start);
    let free = free_of(debt, &ready);
    let copy = copied(alloc, &ready.known)?;
    let filled = by_filling(alloc, table, run, copy, free)?;
    Ok(with_found(ready, filled.known, filled.used))
}

/// A known choice after single changes, until the filling has runs enough.
fn after_first_changes(table: &Table, run: &mut SlotRun<'_>, debt: Debt, owing: Owing) -> Owing
    requires valid { IsValidTable table.now }
    requires run { run.old.table ≡ table.now }
    requires debt { IsDebtOf table.now debt }
    requires owing { IsOwing table.now debt owing }
    ensures run { run.new.table ≡ table.now }
    ensures owing { IsOwing table.now debt result }
{
    let mut best = owing;
    for _change in 0..debt.evaluations {
        if may_fill(debt, &best) {
            return best;
        }
        best = after_one(table, run, best);
    }
    best
}

/// Whether the filling has all runs that it could use or that are left, or single changes bring no more.
fn may_fill(debt: Debt, owing: &Owing) -> bool
    requires few { debt.changes ≤ CHANGES_MOST }
    requires kept { owing.now.known.distortion ≤ debt.start }
    requires pays { CanPay debt.changes debt.evaluations debt.start owing.now.known.distortion owing.now.left owing.now.alone }
    ensures alone { result ≡ false → owing.now.alone ≡ false }
    ensures few { result ≡ false → debt.evaluations < runs_for_all debt.changes }
{
    owing.alone || is_for_all(debt) || free_of(debt, owing) >= owing.left.min(FILLED_RUNS_MOST)
}

/// A choice after one single change that helps, or as it was where none does.
fn after_one(table: &Table, run: &mut SlotRun<'_>, owing: Owing) -> Owing
    requires valid { IsValidTable table.now }
    requires run { run.old.table ≡ table.now }
    requires known { IsKnown table.now owing.known }
    requires place { owing.place ≤ length (units_of table.now) }
    ensures run { run.new.table ≡ table.now }
    ensures owing { (debt : Owed) → debt.evaluations < runs_for_all debt.changes → owing.alone ≡ false → IsDebtOf table.now debt
        → IsOwing table.now debt owing → IsOwing table.now debt result }
{
    let Owing {
        known,
        left,
        alone: _,
        found,
        place,
    } = owing;
    match round(table, run, known, left, place) {
        Tried::Better {
            known,
            place: changed,
            left: rest,
        } => Owing {
            known,
            left: rest,
            alone: false,
            found,
            place: changed,
        },
        Tried::Nothing { known, left: rest } => Owing {
            known,
            left: rest,
            alone: true,
            found,
            place,
        },
        Tried::Spent { known } => Owing {
            known,
            left: 0,
            alone: false,
            found,
            place,
        },
    }
}

/// A known choice, or another one that was found with so many runs, where that is better.
pub(crate) fn with_found(owing: Owing, found: Known, used: u32) -> Owing
    requires used { used ≤ owing.left }
    ensures owing { (table : CodedTable) (debt : Owed) → IsOwing table debt owing → IsKnown table found
        → CanPay debt.changes debt.evaluations debt.start owing.known.distortion (owing.left - used) owing.alone → IsOwing table debt result }
    ensures least { result.known.distortion ≤ found.distortion }
{
    let Owing {
        known,
        left,
        alone,
        found: before,
        place,
    } = owing;
    let rest = left - used;
    if found.distortion < known.distortion {
        Owing {
            known: found,
            left: rest,
            alone: false,
            found: true,
            place,
        }
    } else {
        Owing {
            known,
            left: rest,
            alone,
            found: before,
            place,
        }
    }
}
