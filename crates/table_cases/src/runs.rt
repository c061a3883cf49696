//! Runs of one table that are kept, one choice after another.

ghost use Rattle.std.specs.Prelude.{◌≡◌};
ghost use Rattle.version_table.specs.Choice.{Fits};
ghost use Rattle.version_table.specs.Table.{IsValidTable};

use crate::slots::words_of;
use slot_rule::{Miss, SlotRun, first_miss};
use std::alloc::Global;
use version_table::limits::TIME_SLOTS_MOST;
use version_table::{Choice, OutOfMemory, Table, level};

/// The level choices that are run, in order: coarser ones, one again, and back.
const LEVELS: [u8; 7] = [0, 1, 2, 3, 3, 2, 0];

/// The first miss of each run, and the checkpoints of the last with the work at each.
pub(crate) fn runs_of(alloc: Global, table: &Table) -> Result<String, OutOfMemory>
    requires { IsValidTable table.now }
{
    let mut out = String::new(alloc);
    let mut run = SlotRun::new(alloc, table)?;
    for k in LEVELS {
        let answer = run_once(alloc, table, &mut run, k)?;
        out.push_str(answer.as_str())?;
        out.push_str("; ")?;
    }
    add_work(alloc, &mut out, &run)?;
    Ok(out)
}

/// Runs the choice of a level in the kept run, in one that kept nothing and in none, which have to agree.
fn run_once(alloc: Global, table: &Table, run: &mut SlotRun, k: u8) -> Result<String, OutOfMemory>
    requires valid { IsValidTable table.now }
    requires table { run.old.table ≡ table.now }
    ensures { run.new.table ≡ table.now }
{
    let choice = level(alloc, table, k)?;
    let miss = first_miss(table, &choice);
    let mut other = SlotRun::new(alloc, table)?;
    let agrees = run.run(&choice) == miss
        && other.run(&choice) == miss
        && has_same_work(run, &other)
        && stops_right(run, &choice, miss);
    match miss {
        _ if !agrees => Ok(String::from_str(alloc, "runs that don't agree")?),
        Some(miss) => words_of(alloc, miss),
        None => Ok(String::from_str(alloc, "scheduled")?),
    }
}

/// Whether a run up to a slot finds this first miss before the slot behind its own, and none before its own slot; or none
/// at all. The run keeps what the next one resumes.
fn stops_right(run: &mut SlotRun, choice: &Choice, miss: Option<Miss>) -> bool
    requires fits { Fits run.old.table choice.now }
    ensures { run.new.table ≡ run.old.table }
{
    let last = TIME_SLOTS_MOST as u32 - 1;
    let slot = match miss {
        Some(miss) => miss.slot.min(last),
        None => last,
    };
    let before = run.run_to(choice, slot);
    let behind = run.run_to(choice, slot + 1);
    before == None && behind == miss
}

/// Whether two runs have the same checkpoints, and at each the same work of the first streams.
fn has_same_work(run: &SlotRun, other: &SlotRun) -> bool {
    for checkpoint in 0..=other.checkpoints() {
        for stream in 0..STREAMS_SHOWN {
            if run.work(checkpoint, stream) != other.work(checkpoint, stream) {
                return false;
            }
        }
    }
    run.checkpoints() == other.checkpoints()
}

/// The most streams whose work is shown and compared.
const STREAMS_SHOWN: u32 = 4;

/// Adds how many checkpoints there are, and for each the work of the first streams in TB or MB, in subticks.
fn add_work(alloc: Global, out: &mut String, run: &SlotRun) -> Result<(), OutOfMemory> {
    out.push_str(format!(in alloc; "checkpoints {}", run.checkpoints())?.as_str())?;
    for checkpoint in 0..run.checkpoints() {
        out.push_str(",")?;
        for stream in 0..STREAMS_SHOWN {
            if let Some((tb, mb)) = run.work(checkpoint, stream) {
                out.push_str(format!(in alloc; " {tb}+{mb}")?.as_str())?;
            }
        }
    }
    Ok(())
}
