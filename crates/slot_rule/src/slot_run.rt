ghost use Rattle.std.specs.Prelude.{◌≡◌, ℕ, ◌*◌, ◌≤◌, ◌↔◌, ◌⊎◌, IfOk, IfSome, IsNone, None, Some, length, vec_capacity};
ghost use Rattle.version_table.specs.Table.{IsValidTable};
ghost use Rattle.version_table.specs.Choice.{Fits};
ghost use Rattle.slot_rule.specs.declared.sent.Miss.{Miss};
ghost use Rattle.slot_rule.specs.Schedule.{HasNoMissBefore, IsFirstMiss, IsFirstMissBefore, IsScheduled};
ghost use Rattle.slot_rule.specs.Private.Checkpoints.{TellsUpto, reach};
ghost use Rattle.slot_rule.specs.SlotRun.{IsCheckpointCount, IsKeptWork, slots_apart, streams_of};

use crate::checkpoints::{CHECKPOINTS_MOST, keep_same, run_on};
use crate::distance::slots_apart;
use crate::run_state::RunState;
use crate::sent::Miss;
use list_types::OutOfMemory;
use std::alloc::Global;
use std::marker::Model;
use stream_constants::clock::SUBTICKS_PER_TICK;
use version_table::limits::{TIME_SLOTS_MOST, UNITS_MOST};
use version_table::{Choice, Table};

/// Runs of the slot rule over one table, one choice after another. What a run keeps at checkpoints serves the next one,
/// which begins before the first slot in which the choices differ.
#[derive(Drop)]
pub struct SlotRun<'a> {
    table: &'a Table,
    /// Slots from one checkpoint to the next.
    apart: u32,
    /// The choice of the last run; none of its numbers counts before the first.
    choice: Vec<u8>,
    has_run: bool,
    /// The slot up to which the checkpoints stand.
    upto: u32,
    /// What is kept before each multiple of `apart` slots, from slot 0 on, where a packet waits.
    checkpoints: Vec<RunState>,
}

impl<'a> Model for SlotRun<'a> {
    ghost use Rattle.slot_rule.specs.SlotRun.{KeptRun};

    ghost Value = { KeptRun };

    ghost use Rattle.slot_rule.specs.Private.SlotRun.{KeepsRun, kept_run};

    ghost view = { kept_run };

    ghost invariant = { KeepsRun };
}

impl<'a> SlotRun<'a> {
    /// A run of a table that keeps no choice yet. Takes all memory that its runs want: room for 1,024 checkpoints and for
    /// one choice.
    pub fn new(alloc: Global, table: &'a Table) -> Result<SlotRun<'a>, OutOfMemory>
        requires valid { IsValidTable table.now }
        ensures { IfOk result (λ run. run ≡ record { table = table.now; kept = None; upto = 0 }) }
    {
        Ok(SlotRun {
            table,
            apart: slots_apart(table),
            choice: Vec::with_capacity(alloc, UNITS_MOST)?,
            has_run: false,
            upto: 0,
            checkpoints: Vec::with_capacity(alloc, CHECKPOINTS_MOST)?,
        })
    }

    /// The first miss of the table under a choice; none where the choice is scheduled. Keeps the choice. Takes no memory.
    pub fn run(&mut self, choice: &Choice) -> Option<Miss>
        requires fits { Fits self.old.table choice.now }
        ensures scheduled { IsNone result ↔ IsScheduled self.old.table choice.now }
        ensures missed { (miss : Miss) → (result ≡ Some miss) ↔ IsFirstMiss self.old.table choice.now miss }
        ensures keeps { self.new ≡ record { table = self.old.table; kept = Some choice.now; upto = TIME_SLOTS_MOST } }
    {
        self.run_of(choice.as_slice(), TIME_SLOTS_MOST as u32)
    }

    /// The first miss that is found in a slot before slot `end`, where the packets of later slots aren't looked at; none
    /// where nothing misses before it. Keeps the choice, and what is kept up to a later slot where that stands under it.
    /// Takes no memory.
    pub fn run_to(&mut self, choice: &Choice, end: u32) -> Option<Miss>
        requires fits { Fits self.old.table choice.now }
        requires end { end ≤ TIME_SLOTS_MOST }
        ensures none { IsNone result ↔ HasNoMissBefore self.old.table choice.now end }
        ensures missed { (miss : Miss) → (result ≡ Some miss) ↔ IsFirstMissBefore self.old.table choice.now end miss }
        ensures keeps { (upto : ℕ) × (end ≤ upto) × (self.new ≡ record { table = self.old.table; kept = Some choice.now; upto = upto }) }
    {
        self.run_of(choice.as_slice(), end)
    }

    /// The same, of the choice's numbers.
    fn run_of(&mut self, choice: &[u8], end: u32) -> Option<Miss>
        requires fits { Fits self.old.table choice.now }
        requires end { end ≤ TIME_SLOTS_MOST }
        ensures valid { IsValidTable self.old.table }
        ensures tells { TellsUpto self.old.table choice.now end result }
        ensures keeps { (count : ℕ) × (self.new ≡ record { table = self.old.table; kept = Some choice.now; upto = reach self.old.table end count })
            × (count ≤ CHECKPOINTS_MOST) }
    {
        let table = self.table;
        let first = RunState::new(table, choice);
        keep_same(
            table,
            self.choice.as_slice(),
            choice,
            &first,
            &mut self.checkpoints,
        );
        keep_choice(&mut self.choice, choice);
        self.has_run = true;
        let miss = run_on(table, choice, first, self.apart, end, &mut self.checkpoints);
        self.upto = end.max(self.apart * self.checkpoints.len().saturating_sub(1) as u32);
        miss
    }

    /// Slots from one checkpoint to the next.
    pub fn slots_apart(&self) -> u32
        ensures { result ≡ slots_apart self.now.table }
    {
        self.apart
    }

    /// How many checkpoints the last run has: one for each slot that is a multiple of `slots_apart`, up to the slot to
    /// which checkpoints are kept, before which nothing missed and where a packet still waits. None where no choice is
    /// kept or the table has no packet.
    pub fn checkpoints(&self) -> u32
        ensures { IsCheckpointCount self.now result }
    {
        self.checkpoints.len() as u32
    }

    /// The work that waits in TB and MB of a stream where checkpoint `k` stands, in subticks, MB's being 0 for audio. None
    /// where there is no such checkpoint or no such stream.
    pub fn work(&self, k: u32, stream: u32) -> Option<(u64, u64)>
        ensures none { (count : ℕ) → IsCheckpointCount self.now count → IsNone result ↔ ((count ≤ k) ⊎ (streams_of self.now.table ≤ stream)) }
        ensures some { IfSome result (IsKeptWork self.now (slots_apart self.now.table * k) stream) }
    {
        let checkpoint = self.checkpoints.as_slice().get(k as usize)?;
        let state = checkpoint.states.as_slice().get(stream as usize)?;
        let slots = u64::from(self.apart) * u64::from(k);
        Some(state.work_at(SUBTICKS_PER_TICK * (slots * u64::from(self.table.slot))))
    }
}

/// Writes a choice over another one, for which there is room.
fn keep_choice(kept: &mut Vec<u8>, choice: &[u8])
    requires room { length choice.now ≤ vec_capacity kept.old }
    ensures same { kept.new.items ≡ choice.now }
    ensures room { vec_capacity kept.old ≤ vec_capacity kept.new }
{
    kept.clear();
    let Ok(()) = kept.extend_from_slice(choice) else {
        unreachable!();
    };
}
