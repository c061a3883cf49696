ghost use Rattle.std.specs.Prelude.{◌≡◌, ◌≢◌, ◌≤◌, ◌↔◌, All, length, IfOk, IfErr, OnOk};
ghost use Rattle.version_table.specs.Table.{IsValidTable};
ghost use Rattle.version_table.specs.declared.limits.TheConstants.{EVALUATIONS_MOST, NODES_MOST};
ghost use Rattle.bound_certificate.specs.Reading.{IsWritable};
ghost use Rattle.certificate_checker.specs.Checked.{IsFaultless};
ghost use Rattle.certificate_checker.specs.Faults.{IsHeadRight};
ghost use Rattle.branch_plan.specs.Bound.{IsAtLeastEachPair, IsAtLeastEachTried, ReachesFound};
ghost use Rattle.branch_plan.specs.Changes.{EndsBestAlone, GainsByRounds};
ghost use Rattle.branch_plan.specs.declared.planner.Search.TheVariants.{Budget, Optimal};
ghost use Rattle.branch_plan.specs.Plan.{BoundsAll, IsMissOfSmallest, IsNoWorseThanLevels, SaysOptimal, ShowsItsBound, SmallestIsScheduled};
ghost use Rattle.branch_plan.specs.Tree.{AreEnough, BranchesOnMany, IsSpent};

use crate::arena::in_order;
use crate::branching::{Ended, branched};
use crate::debt::debt_of;
use crate::found::{Found, found_windows};
use crate::known::{best_premise, copied};
use crate::owed::after_owed;
use crate::owing::{filled_first, with_found};
use crate::root::relaxation_for;
use crate::whole::each_may_have;
use bound_certificate::Cert;
use dual_bounds::constants::WINDOWS_MOST;
use dual_bounds::nothing_fixed;
use list_types::OutOfMemory;
use slot_rule::{Miss, SlotRun};
use std::alloc::Global;
use thiserror::Error;
use version_table::Table;

/// A plan with its certificate, of version 3.
#[derive(Drop)]
pub struct Planned {
    /// The choice, its distortion, and the tree that bounds it.
    pub cert: Cert,
    /// What ended the search.
    pub search: Search,
    /// The windows that the search found for the root of the tree.
    pub found: Found,
}

/// What ended a search.
#[derive(Clone, Copy, Debug, PartialEq, Eq)]
pub enum Search {
    /// The bound has come up to the distortion: no choice that the slot rule schedules has less.
    Optimal,
    /// A budget ended it before.
    Budget,
}

/// Why there is no plan.
#[derive(Debug, Drop, Error)]
pub enum PlanFault {
    /// The smallest choice has this first miss.
    #[error("the smallest choice can't be scheduled")]
    Missed(Miss),
    /// Memory was wanted and not there.
    #[error("out of memory")]
    OutOfMemory,
}

impl From<OutOfMemory> for PlanFault {
    ghost use Rattle.std.specs.Prelude.{◌≡◌};
    ghost use Rattle.branch_plan.specs.declared.planner.PlanFault.TheVariants.{OutOfMemory as NoMemory};

    ghost from_gives = { λ _ fault. fault ≡ NoMemory };

    fn from(_e: OutOfMemory) -> PlanFault {
        PlanFault::OutOfMemory
    }
}

/// A plan of a table, found with at most so many nodes and so many runs of the slot rule on single changes. Missed exactly
/// where the smallest choice can't be scheduled, with its first miss; else it fails only for want of memory.
pub fn plan(
    alloc: Global,
    table: &Table,
    nodes: u32,
    evaluations: u32,
) -> Result<Planned, PlanFault>
    requires valid { IsValidTable table.now }
    requires some_nodes { 1 ≤ nodes }
    requires nodes { nodes ≤ NODES_MOST }
    requires evaluations { evaluations ≤ EVALUATIONS_MOST }
    // Whether there is a plan.
    ensures possible { OnOk result (SmallestIsScheduled table.now) }
    ensures missed { IfErr result (IsMissOfSmallest table.now) }

    // The certificate is right, and its bound is true.
    ensures version { IfOk result (λ planned. planned.cert.version ≡ 3) }
    ensures written { IfOk result (λ planned. IsWritable planned.cert) }
    ensures head { IfOk result (λ planned. IsHeadRight table.now planned.cert) }
    ensures root { IfOk result (λ planned. ShowsItsBound table.now planned.cert) }
    ensures faultless { IfOk result (λ planned. IsFaultless table.now planned.cert) }
    ensures bound { IfOk result (λ planned. BoundsAll table.now planned.cert.bound) }
    ensures optimal { IfOk result SaysOptimal }

    // What the nodes are.
    ensures few_nodes { IfOk result (λ planned. length planned.cert.nodes ≤ nodes) }
    ensures branches { IfOk result (λ planned. All (BranchesOnMany table.now) planned.cert.nodes) }
    ensures spent { IfOk result (λ planned. planned.search ≡ Budget → IsSpent table.now nodes planned.cert) }
    ensures enough { AreEnough table.now nodes → IfOk result (λ planned. planned.search ≡ Optimal) }

    // How good bound and choice are at least.
    ensures reached { IfOk result (λ planned. ReachesFound table.now planned.found planned.cert) }
    ensures tried { IfOk result (λ planned. IsAtLeastEachTried table.now planned.cert.bound) }
    ensures pairs { IfOk result (λ planned. IsAtLeastEachPair table.now planned.cert.bound) }
    ensures no_worse { IfOk result (λ planned. IsNoWorseThanLevels table.now planned.cert.distortion) }
    ensures alone { IfOk result (λ planned. EndsBestAlone table.now evaluations planned.cert.choice) }
    ensures rounds { IfOk result (λ planned. GainsByRounds table.now evaluations planned.cert.choice planned.cert.distortion) }
{
    let mut run = SlotRun::new(alloc, table)?;
    let premise = best_premise(alloc, table, &mut run)?;
    let fixed = nothing_fixed(alloc, table)?;
    let debt = debt_of(table, fixed.len(), evaluations, premise.distortion);
    let owing = filled_first(alloc, table, &mut run, debt, premise)?;
    let best = copied(alloc, &owing.known)?;
    let relaxes = each_may_have(alloc, table, fixed.len(), nodes, WINDOWS_MOST)?;
    let relaxation = relaxation_for(alloc, table, fixed.len(), relaxes)?;
    let relaxed = relaxation.as_ref();
    let windows = found_windows(alloc, table, relaxed, &fixed, nodes, relaxes)?;
    let ended = branched(alloc, table, relaxed, &mut run, best, windows, nodes)?;
    let Ended {
        arena,
        bound,
        known: first,
        found,
    } = ended;
    let tree = in_order(alloc, arena)?;
    let owing = with_found(owing, first, 0);
    let known = after_owed(table, &mut run, debt, owing);
    let search = ended_by(bound, known.distortion);
    Ok(Planned {
        cert: Cert {
            version: 3,
            bound,
            distortion: known.distortion,
            choice: known.choice,
            nodes: tree,
        },
        search,
        found,
    })
}

/// What ended a search: the bound that has come up to the distortion, or a budget.
fn ended_by(bound: u64, distortion: u64) -> Search
    ensures optimal { (result ≡ Optimal) ↔ (bound ≡ distortion) }
    ensures budget { result ≡ Budget → bound ≢ distortion }
{
    if bound == distortion {
        Search::Optimal
    } else {
        Search::Budget
    }
}
