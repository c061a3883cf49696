//! What is reported of a plan, as `job_report` prints it.

ghost use Rattle.std.specs.Prelude.{◌≡◌, ◌≤◌, length};
ghost use Rattle.version_table.specs.declared.limits.TheConstants.{NODES_MOST};
ghost use Rattle.plan_command.specs.Report as spec;

use bound_certificate::Cert;
use job_report::Report;

/// A plan, by its certificate.
pub fn plan_report(plan: Cert) -> Report
    requires { length plan.nodes ≤ NODES_MOST }
    ensures { result ≡ spec.plan_report plan }
{
    Report::Plan {
        bound: plan.bound,
        optimal: plan.bound == plan.distortion,
        nodes: plan.nodes.len() as u32,
        choice: plan.choice,
        distortion: plan.distortion,
    }
}
