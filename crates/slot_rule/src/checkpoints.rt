ghost use Rattle.std.specs.Prelude.{◌≡◌, ℕ, ◌+◌, ◌<◌, ◌≤◌, ◌⊎◌, [], ◌∷◌, ◌++◌, Some, length, slice_get, vec_len, vec_capacity};
ghost use Rattle.version_table.specs.Table.{IsValidTable};
ghost use Rattle.version_table.specs.Choice.{Fits};
ghost use Rattle.version_table.specs.declared.limits.TheConstants.{TIME_SLOTS_MOST};
ghost use Rattle.slot_rule.specs.declared.run_state.RunState.{RunState};
ghost use Rattle.slot_rule.specs.SlotRun.{CountsCheckpoints, slots_apart};
ghost use Rattle.slot_rule.specs.Private.Checkpoints.{AreCheckpoints, AreWithin, TellsUpto, reach};
ghost use Rattle.slot_rule.specs.Private.Runs.{IsFirstRun};

use crate::after::After;
use crate::fronts::{Front, are_within, fronts_of};
use crate::heads::due_head;
use crate::run_state::RunState;
use crate::sent::Miss;
use crate::slots::run_slots;
use version_table::Table;

/// Slots from one checkpoint to the next, or a multiple of so many where a table is long.
pub const SLOTS_APART: u32 = 4_096;
/// Checkpoints of a run, at most.
pub const CHECKPOINTS_MOST: usize = 1_024;

/// Leaves those checkpoints of one choice that stand under another one too, from the first on; `first` is what is kept
/// before the first slot under the other.
pub fn keep_same(
    table: &Table,
    old: &[u8],
    new: &[u8],
    first: &RunState,
    checkpoints: &mut Vec<RunState>,
)
    requires valid { IsValidTable table.now }
    requires fits { Fits table.now new.now }
    requires fitted { (checkpoints.old.items ≡ []) ⊎ Fits table.now old.now }
    requires first { IsFirstRun table.now new.now first.now }
    requires are { AreCheckpoints table.now old.now checkpoints.old.items }
    ensures are { AreCheckpoints table.now new.now checkpoints.new.items }
    ensures fewer { vec_len checkpoints.new ≤ vec_len checkpoints.old }
    ensures room { vec_capacity checkpoints.new ≡ vec_capacity checkpoints.old }
{
    if checkpoints.is_empty() {
        return;
    }
    let fronts = fronts_of(table, old, new, first.states.as_slice());
    let right = still_right(checkpoints.as_slice(), fronts.as_slice());
    checkpoints.truncate(right);
}

/// How many of the checkpoints, from the first on, stand under another choice, where the queues have these fronts.
fn still_right(checkpoints: &[RunState], fronts: &[Front]) -> usize
    ensures within { result ≤ length checkpoints.now }
    ensures right { (k : ℕ) (run : RunState) → k < result → slice_get checkpoints.now k ≡ Some run → AreWithin fronts.now run.states.items }
{
    for (k, checkpoint) in checkpoints.iter().enumerate() {
        if !are_within(fronts, checkpoint.states.as_slice()) {
            return k;
        }
    }
    checkpoints.len()
}

/// The first miss before slot `end`, from the last checkpoint on or from the first slot, with the checkpoints added that
/// the run comes to, `apart` slots each from the next; `first` is what is kept before the first slot.
pub fn run_on(
    table: &Table,
    choice: &[u8],
    first: RunState,
    apart: u32,
    end: u32,
    checkpoints: &mut Vec<RunState>,
) -> Option<Miss>
    requires valid { IsValidTable table.now }
    requires fits { Fits table.now choice.now }
    requires first { IsFirstRun table.now choice.now first }
    requires apart { apart ≡ slots_apart table.now }
    requires end { end ≤ TIME_SLOTS_MOST }
    requires room { CHECKPOINTS_MOST ≤ vec_capacity checkpoints.old }
    requires few { vec_len checkpoints.old ≤ CHECKPOINTS_MOST }
    requires are { AreCheckpoints table.now choice.now checkpoints.old.items }
    ensures tells { TellsUpto table.now choice.now end result }
    ensures room { vec_capacity checkpoints.old ≤ vec_capacity checkpoints.new }
    ensures few { vec_len checkpoints.new ≤ CHECKPOINTS_MOST }
    ensures are { AreCheckpoints table.now choice.now checkpoints.new.items }
    ensures counts { CountsCheckpoints table.now choice.now (reach table.now end (length checkpoints.new.items)) (length checkpoints.new.items) }
{
    if !checkpoints.is_empty() {
        return run_from_last(table, choice, apart, end, checkpoints);
    }
    match due_head(first.states.as_slice(), first.turns.as_slice()) {
        None => None,
        Some(_) => {
            keep(checkpoints, first);
            run_from_last(table, choice, apart, end, checkpoints)
        }
    }
}

/// The same, from the last checkpoint on.
fn run_from_last(
    table: &Table,
    choice: &[u8],
    apart: u32,
    end: u32,
    checkpoints: &mut Vec<RunState>,
) -> Option<Miss>
    requires valid { IsValidTable table.now }
    requires fits { Fits table.now choice.now }
    requires apart { apart ≡ slots_apart table.now }
    requires end { end ≤ TIME_SLOTS_MOST }
    requires room { CHECKPOINTS_MOST ≤ vec_capacity checkpoints.old }
    requires some { 1 ≤ vec_len checkpoints.old }
    requires few { vec_len checkpoints.old ≤ CHECKPOINTS_MOST }
    requires are { AreCheckpoints table.now choice.now checkpoints.old.items }
    ensures tells { TellsUpto table.now choice.now end result }
    ensures room { vec_capacity checkpoints.old ≤ vec_capacity checkpoints.new }
    ensures few { vec_len checkpoints.new ≤ CHECKPOINTS_MOST }
    ensures are { AreCheckpoints table.now choice.now checkpoints.new.items }
    ensures counts { CountsCheckpoints table.now choice.now (reach table.now end (length checkpoints.new.items)) (length checkpoints.new.items) }
{
    let last = checkpoints.len() - 1;
    let mut from = apart * last as u32;
    let mut run = checkpoints[last].copy();
    while from < end {
        let next = from + apart;
        match run_slots(table, choice, &mut run, from, next.min(end)) {
            After::Missed(miss) => return Some(miss),
            After::AllSent => return None,
            After::Waiting => {}
        }
        if end < next {
            return None;
        }
        keep(checkpoints, run.copy());
        from = next;
    }
    None
}

/// Adds a checkpoint, for which there is room.
fn keep(checkpoints: &mut Vec<RunState>, run: RunState)
    requires room { vec_len checkpoints.old < vec_capacity checkpoints.old }
    ensures adds { checkpoints.new.items ≡ checkpoints.old.items ++ run ∷ [] }
    ensures longer { vec_len checkpoints.new ≡ vec_len checkpoints.old + 1 }
    ensures room { vec_capacity checkpoints.old ≤ vec_capacity checkpoints.new }
{
    let Ok(()) = checkpoints.push(run) else {
        unreachable!();
    };
}
