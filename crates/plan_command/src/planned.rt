ghost use Rattle.std.specs.Prelude.{IfOk, IfErr};
ghost use Rattle.version_table.specs.Table.{IsValidTable};
ghost use Rattle.branch_plan.specs.Plan.{IsMissOfSmallest};
ghost use Rattle.plan_command.specs.Plan.{IsPlan};

use crate::cert_room::look_at_cert;
use bound_certificate::Cert;
use branch_plan::{PlanFault, plan};
use std::alloc::Global;
use version_table::Table;

/// The certificate of a plan of a table, by the budgets of the table. Missed exactly where the smallest choice can't be
/// scheduled; else it fails only for want of memory.
pub fn plan_of_table(alloc: Global, table: &Table) -> Result<Cert, PlanFault>
    requires { IsValidTable table.now }
    ensures plan { IfOk result (IsPlan table.now) }
    ensures missed { IfErr result (IsMissOfSmallest table.now) }
{
    match plan(alloc, table, table.nodes, table.evaluations) {
        Ok(planned) => {
            look_at_cert(&planned.cert);
            Ok(planned.cert)
        }
        Err(fault) => Err(fault),
    }
}
