ghost use Rattle.std.specs.Prelude.{◌≡◌, ◌≤◌, IfOk};
ghost use Rattle.version_table.specs.Choice.{Fits};
ghost use Rattle.version_table.specs.Table.{IsValidTable};
ghost use Rattle.slot_rule.specs.Schedule.{IsScheduled};
ghost use Rattle.branch_plan.specs.Private.Known.{IsKnown};

use crate::changes::{put, unit_at};
use crate::corners::corner_at;
use crate::filling::{Filling, Reckoned};
use crate::forward::by_stretches;
use crate::known::{Known, better};
use list_types::OutOfMemory;
use slot_rule::SlotRun;
use std::alloc::Global;
use version_table::{Choice, Table, distortion_of, smallest};

/// Runs of the slot rule on choices that fill the room, at most.
pub(crate) const FILLED_RUNS_MOST: u32 = 128;
/// Tables of so many units at most are filled twice, as in short ones all units may be due before they could be filled anew.
const FILLED_TWICE_MOST: usize = 32_768;
/// What elementary buffers are reckoned to hold at first where a table is filled twice.
const SHORT_RECKONED: Reckoned = Reckoned {
    percent: 97,
    sees_seconds: false,
};
/// What they are reckoned to hold.
const RECKONED: Reckoned = Reckoned {
    percent: 99,
    sees_seconds: true,
};
/// Packets that are taken off before a miss at first.
pub(crate) const FIRST_CUT: u32 = 2;
/// Packets that are taken off before a miss, at most.
const CUT_MOST: u32 = 512;

/// The better of a known choice and one that was found, and the runs that were used.
#[derive(Drop)]
pub(crate) struct Filled {
    pub known: Known,
    pub used: u32,
}

/// A known choice, or a better one that fills the room there is, found with at most so many runs. Fails only for want of memory.
pub(crate) fn by_filling(
    alloc: Global,
    table: &Table,
    run: &mut SlotRun<'_>,
    known: Known,
    runs: u32,
) -> Result<Filled, OutOfMemory>
    requires valid { IsValidTable table.now }
    requires run { run.old.table ≡ table.now }
    requires known { IsKnown table.now known }
    ensures run { run.new.table ≡ table.now }
    ensures known { IfOk result (λ filled. IsKnown table.now filled.known) }
    ensures kept { IfOk result (λ filled. filled.known.distortion ≤ known.distortion) }
    ensures used { IfOk result (λ filled. filled.used ≤ runs) }
{
    let most = runs.min(FILLED_RUNS_MOST);
    if known.choice.len() > FILLED_TWICE_MOST {
        return by_stretches(alloc, table, run, known, RECKONED, most);
    }
    let first = by_stretches(alloc, table, run, known, SHORT_RECKONED, most)?;
    let Filled { known: best, used } = first;
    let second = by_stretches(alloc, table, run, best, RECKONED, most - used)?;
    Ok(Filled {
        known: second.known,
        used: used + second.used,
    })
}

/// A known choice, or a better one: the filled one, less what is too much before each miss.
pub(crate) fn sweep(
    alloc: Global,
    table: &Table,
    run: &mut SlotRun<'_>,
    known: Known,
    filling: &mut Filling,
    runs: u32,
) -> Result<Filled, OutOfMemory>
    requires valid { IsValidTable table.now }
    requires run { run.old.table ≡ table.now }
    requires known { IsKnown table.now known }
    ensures run { run.new.table ≡ table.now }
    ensures known { IfOk result (λ filled. IsKnown table.now filled.known) }
    ensures kept { IfOk result (λ filled. filled.known.distortion ≤ known.distortion) }
    ensures used { IfOk result (λ filled. filled.used ≤ runs) }
{
    let mut choice = smallest(alloc, table)?;
    let mut packets = FIRST_CUT;
    let mut last = 0;
    for used in 0..runs {
        choice = put_filled(table, filling, choice);
        match run.run(&choice) {
            None => {
                filling.note_in_time();
                return Ok(Filled {
                    known: better(table, known, choice),
                    used: used + 1,
                });
            }
            Some(miss) => {
                packets = next_cut(packets, last, miss.due);
                last = last.max(miss.due);
                filling.lower_before(miss.due, packets);
            }
        }
    }
    Ok(Filled { known, used: runs })
}

/// How many packets are taken off before a miss: twice as many where it is no later than the last.
pub(crate) fn next_cut(packets: u32, last: u64, due: u64) -> u32 {
    if due <= last {
        packets.saturating_mul(2).min(CUT_MOST)
    } else {
        FIRST_CUT
    }
}

/// A choice with the versions that a filling gives.
pub(crate) fn put_filled(table: &Table, filling: &Filling, choice: Choice) -> Choice
    requires fits { Fits table.now choice }
    ensures { Fits table.now result }
{
    let mut changed = choice;
    for unit in filling.open_units() {
        let corner = corner_at(filling.corners.as_slice(), unit.at);
        changed = put_version(table, changed, unit.number, corner.version);
    }
    changed
}

/// A choice with another version of one unit, where there is such a unit and version.
pub(crate) fn put_version(table: &Table, choice: Choice, number: usize, k: u8) -> Choice
    requires fits { Fits table.now choice }
    ensures { Fits table.now result }
{
    if number >= choice.len() {
        return choice;
    }
    if usize::from(k) >= unit_at(table, number).versions.len() {
        return choice;
    }
    put(choice, number, k)
}
