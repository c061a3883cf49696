ghost use Rattle.std.specs.Prelude.{◌≡◌, ◌≤◌, IfOk};
ghost use Rattle.version_table.specs.Choice.{Fits};
ghost use Rattle.version_table.specs.Table.{IsValidTable};
ghost use Rattle.branch_plan.specs.Private.Known.{IsKnown};

use crate::filled::{FIRST_CUT, Filled, next_cut, put_filled, sweep};
use crate::filling::{FilledUnit, Filling, Reckoned};
use crate::known::Known;
use list_types::OutOfMemory;
use slot_rule::SlotRun;
use std::alloc::Global;
use version_table::limits::TIME_SLOTS_MOST;
use version_table::{Choice, Table, smallest};

/// How often a stretch is filled anew, at most.
const SWEEPS_MOST: u32 = 16;
/// How often in a row a stretch is filled anew without a better choice, at most.
const IDLE_SWEEPS_MOST: u32 = 3;
/// Runs over a stretch, at most.
const STRETCH_RUNS_MOST: u32 = 48;

/// A choice after a stretch was filled, and the runs that this took.
#[derive(Drop)]
struct Stretched {
    choice: Choice,
    used: u32,
}

/// A choice after runs over a stretch, and whether nothing misses in it.
#[derive(Drop)]
struct Swept {
    choice: Choice,
    used: u32,
    in_time: bool,
}

/// A known choice, or a better one that fills the room there is, one stretch after the other from the front, found with at most so
/// many runs. A run that ends behind a stretch counts as a run of that stretch; those of all stretches together as many as any of
/// them took. Fails only for want of memory.
pub(crate) fn by_stretches(
    alloc: Global,
    table: &Table,
    run: &mut SlotRun<'_>,
    known: Known,
    reckoned: Reckoned,
    runs: u32,
) -> Result<Filled, OutOfMemory>
    requires valid { IsValidTable table.now }
    requires run { run.old.table ≡ table.now }
    requires known { IsKnown table.now known }
    ensures run { run.new.table ≡ table.now }
    ensures known { IfOk result (λ filled. IsKnown table.now filled.known) }
    ensures kept { IfOk result (λ filled. filled.known.distortion ≤ known.distortion) }
    ensures used { IfOk result (λ filled. filled.used ≤ runs) }
{
    if runs == 0 {
        return Ok(Filled { known, used: 0 });
    }
    let mut filling = Filling::new(alloc, table, reckoned)?;
    filling.fill(alloc)?;
    let most = (runs - 1).min(STRETCH_RUNS_MOST);
    let used = filled_forward(alloc, table, run, &mut filling, most)?;
    filling.open_all();
    let swept = sweep(alloc, table, run, known, &mut filling, runs - used)?;
    Ok(Filled {
        known: swept.known,
        used: used + swept.used,
    })
}

/// Fills one stretch after the other, each with at most so many runs, and tells how many any of them took at most.
fn filled_forward(
    alloc: Global,
    table: &Table,
    run: &mut SlotRun<'_>,
    filling: &mut Filling,
    runs: u32,
) -> Result<u32, OutOfMemory>
    requires valid { IsValidTable table.now }
    requires run { run.old.table ≡ table.now }
    ensures run { run.new.table ≡ table.now }
    ensures used { IfOk result (λ used. used ≤ runs) }
{
    let mut choice = put_filled(table, filling, smallest(alloc, table)?);
    let mut used = 0;
    filling.open_first(alloc)?;
    for _stretch in 0..choice.len() {
        let stretched = filled_stretch(alloc, table, run, choice, filling, runs)?;
        choice = stretched.choice;
        used = used.max(stretched.used);
        if !filling.open_next(alloc)? {
            return Ok(used);
        }
    }
    Ok(used)
}

/// A choice with the best filling of the open stretch that was found.
fn filled_stretch(
    alloc: Global,
    table: &Table,
    run: &mut SlotRun<'_>,
    choice: Choice,
    filling: &mut Filling,
    runs: u32,
) -> Result<Stretched, OutOfMemory>
    requires valid { IsValidTable table.now }
    requires run { run.old.table ≡ table.now }
    requires fits { Fits table.now choice }
    ensures run { run.new.table ≡ table.now }
    ensures fits { IfOk result (λ stretched. Fits table.now stretched.choice) }
    ensures used { IfOk result (λ stretched. stretched.used ≤ runs) }
{
    let mut now = choice;
    let mut used = 0;
    let mut idle_left = IDLE_SWEEPS_MOST;
    let mut kept: Vec<FilledUnit> = Vec::new(alloc);
    let mut least = u64::MAX;
    for _sweep in 0..SWEEPS_MOST {
        filling.fill(alloc)?;
        let swept = sweep_stretch(table, run, now, filling, runs - used);
        now = swept.choice;
        used += swept.used;
        let distortion = filling.open_distortion();
        let better = swept.in_time && distortion < least;
        if better {
            least = distortion;
            kept = filling.open_units().to_vec(alloc)?;
        }
        idle_left = idle_after(idle_left, better);
        if !swept.in_time || idle_left == 0 || swept.used <= 1 && !filling.is_open() {
            break;
        }
        filling.note_in_time();
    }
    filling.put_back(kept.as_slice());
    Ok(Stretched {
        choice: put_filled(table, filling, now),
        used,
    })
}

/// A choice in which what is too much before each miss in the open stretch is taken off, until there is none.
fn sweep_stretch(
    table: &Table,
    run: &mut SlotRun<'_>,
    choice: Choice,
    filling: &mut Filling,
    runs: u32,
) -> Swept
    requires valid { IsValidTable table.now }
    requires run { run.old.table ≡ table.now }
    requires fits { Fits table.now choice }
    ensures run { run.new.table ≡ table.now }
    ensures fits { Fits table.now result.choice }
    ensures used { result.used ≤ runs }
{
    let end = last_slot(table, filling);
    let mut now = choice;
    let mut packets = FIRST_CUT;
    let mut last = 0;
    for used in 0..runs {
        now = put_filled(table, filling, now);
        match run.run_to(&now, end) {
            None => {
                return Swept {
                    choice: now,
                    used: used + 1,
                    in_time: true,
                };
            }
            Some(miss) => {
                packets = next_cut(packets, last, miss.due);
                last = last.max(miss.due);
                filling.lower_before(miss.due, packets);
            }
        }
    }
    Swept {
        choice: now,
        used: runs,
        in_time: false,
    }
}

/// The slot in which the last open unit is due, or the last of all.
fn last_slot(table: &Table, filling: &Filling) -> u32
    requires valid { IsValidTable table.now }
    ensures { result ≤ TIME_SLOTS_MOST }
{
    (filling.last_due() / u64::from(table.slot)).min(TIME_SLOTS_MOST) as u32
}

/// How many sweeps may bring nothing better yet, behind one that did or didn't.
fn idle_after(left: u32, better: bool) -> u32 {
    if better {
        IDLE_SWEEPS_MOST
    } else {
        left.saturating_sub(1)
    }
}
