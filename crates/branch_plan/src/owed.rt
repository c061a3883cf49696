ghost use Rattle.std.specs.Prelude.{◌≡◌, ◌≤◌};
ghost use Rattle.version_table.specs.Table.{IsValidTable};
ghost use Rattle.branch_plan.specs.Changes.{EndsBestAlone};
ghost use Rattle.branch_plan.specs.Private.Changes.{GainsOver};
ghost use Rattle.branch_plan.specs.Private.Debt.{IsDebtOf, IsOwing};
ghost use Rattle.branch_plan.specs.Private.Known.{IsKnown};

use crate::changes::after_changes;
use crate::debt::{Debt, is_paid};
use crate::known::Known;
use crate::owing::Owing;
use slot_rule::SlotRun;
use version_table::Table;

/// A known choice after the single changes that are owed: none, where none helps or where it was found otherwise and lies as far
/// below the start already as whole rounds would bring it.
pub(crate) fn after_owed(table: &Table, run: &mut SlotRun<'_>, debt: Debt, owing: Owing) -> Known
    requires valid { IsValidTable table.now }
    requires run { run.old.table ≡ table.now }
    requires debt { IsDebtOf table.now debt }
    requires owing { IsOwing table.now debt owing }
    ensures known { IsKnown table.now result }
    ensures kept { result.distortion ≤ owing.known.distortion }
    ensures alone { EndsBestAlone table.now debt.evaluations result.choice }
    ensures rounds { GainsOver table.now debt.evaluations result.choice result.distortion debt.start }
{
    let Owing {
        known,
        left,
        alone,
        found,
        place: _,
    } = owing;
    if alone {
        known
    } else if found && is_paid(debt, known.distortion) {
        known
    } else {
        after_changes(table, run, known, left)
    }
}
