ghost use Rattle.std.specs.Prelude.{◌≡◌, ◌<◌, ◌≤◌, ℕ, IfOk, IfErr, OnOk};
ghost use Rattle.slot_rule.specs.Schedule.{IsScheduled};
ghost use Rattle.version_table.specs.Choice.{Fits, distortion_of_choice};
ghost use Rattle.version_table.specs.Table.{IsValidTable};
ghost use Rattle.version_table.specs.declared.limits.TheConstants.{VERSIONS_MOST};
ghost use Rattle.branch_plan.specs.Plan.{IsMissOfSmallest, IsNoWorseThanLevels, SmallestIsScheduled};
ghost use Rattle.branch_plan.specs.Private.Known.{IsKnown, IsNoWorseThanLevel};

use crate::planner::PlanFault;
use list_types::{ListOf, OutOfMemory};
use slot_rule::SlotRun;
use std::alloc::Global;
use version_table::limits::VERSIONS_MOST;
use version_table::{Choice, Table, distortion_of, level, smallest};

/// A choice that is scheduled, and its distortion.
#[derive(Drop)]
pub(crate) struct Known {
    pub choice: Choice,
    pub distortion: u64,
}

/// Of the smallest choice and the level choices the one of least distortion that is scheduled, the smallest first among
/// equals, then the lowest level.
pub(crate) fn best_premise(
    alloc: Global,
    table: &Table,
    run: &mut SlotRun<'_>,
) -> Result<Known, PlanFault>
    requires valid { IsValidTable table.now }
    requires run { run.old.table ≡ table.now }
    ensures run { run.new.table ≡ table.now }
    ensures known { IfOk result (IsKnown table.now) }
    ensures no_worse { IfOk result (λ best. IsNoWorseThanLevels table.now best.distortion) }
    ensures possible { OnOk result (SmallestIsScheduled table.now) }
    ensures missed { IfErr result (IsMissOfSmallest table.now) }
{
    let choice = smallest(alloc, table)?;
    match run.run(&choice) {
        Some(miss) => Err(PlanFault::Missed(miss)),
        None => {
            let distortion = distortion_of(table, &choice);
            Ok(best_level(alloc, table, run, Known { choice, distortion })?)
        }
    }
}

/// The best of a known choice and the level choices, the earlier among equals.
fn best_level(
    alloc: Global,
    table: &Table,
    run: &mut SlotRun<'_>,
    known: Known,
) -> Result<Known, OutOfMemory>
    requires valid { IsValidTable table.now }
    requires run { run.old.table ≡ table.now }
    requires known { IsKnown table.now known }
    ensures run { run.new.table ≡ table.now }
    ensures known { IfOk result (IsKnown table.now) }
    ensures start { IfOk result (λ best. best.distortion ≤ known.distortion) }
    ensures levels { IfOk result (λ best. (level : ℕ) → level < VERSIONS_MOST → IsNoWorseThanLevel table.now level best.distortion) }
{
    let mut best = known;
    for k in 0..VERSIONS_MOST as u8 {
        best = or_level(alloc, table, run, best, k)?;
    }
    Ok(best)
}

/// The better of a known choice and a level choice, the known one among equals. One that isn't better needs no schedule.
fn or_level(
    alloc: Global,
    table: &Table,
    run: &mut SlotRun<'_>,
    known: Known,
    k: u8,
) -> Result<Known, OutOfMemory>
    requires valid { IsValidTable table.now }
    requires run { run.old.table ≡ table.now }
    requires known { IsKnown table.now known }
    ensures run { run.new.table ≡ table.now }
    ensures known { IfOk result (IsKnown table.now) }
    ensures kept { IfOk result (λ best. best.distortion ≤ known.distortion) }
    ensures level { IfOk result (λ best. IsNoWorseThanLevel table.now k best.distortion) }
{
    let choice = level(alloc, table, k)?;
    let distortion = distortion_of(table, &choice);
    if distortion < known.distortion && run.run(&choice).is_none() {
        Ok(Known { choice, distortion })
    } else {
        Ok(known)
    }
}

/// The better of a known choice and another one that is scheduled, the known one among equals.
pub(crate) fn better(table: &Table, known: Known, choice: Choice) -> Known
    requires valid { IsValidTable table.now }
    requires known { IsKnown table.now known }
    requires fits { Fits table.now choice }
    requires scheduled { IsScheduled table.now choice }
    ensures known { IsKnown table.now result }
    ensures kept { result.distortion ≤ known.distortion }
    ensures other { result.distortion ≤ distortion_of_choice table.now choice }
{
    let distortion = distortion_of(table, &choice);
    if distortion < known.distortion {
        Known { choice, distortion }
    } else {
        known
    }
}

/// The same choice once more. Fails only for want of memory.
pub(crate) fn copied(alloc: Global, known: &Known) -> Result<Known, OutOfMemory>
    ensures { IfOk result (λ copy. copy ≡ known.now) }
{
    let versions = known.choice.as_slice().to_vec(alloc)?;
    Ok(Known {
        choice: ListOf::from_vec(versions),
        distortion: known.distortion,
    })
}
