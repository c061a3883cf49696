ghost use Rattle.std.specs.Prelude.{◌≡◌, ◌+◌, ◌*◌, ◌^◌, ◌<◌, ◌≤◌, All, List, Some, length, slice_get};
ghost use Rattle.stream_constants.specs.declared.clock.TheConstants.{SUBTICKS_PER_TICK};
ghost use Rattle.version_table.specs.declared.limits.TheConstants.{SLOT_MOST, TIME_SLOTS_MOST};
ghost use Rattle.version_table.specs.Table.{IsValidTable};
ghost use Rattle.version_table.specs.Choice.{Fits};
ghost use Rattle.slot_rule.specs.declared.queue_state.QueueState.{QueueState};
ghost use Rattle.slot_rule.specs.Buffers.{Row, Reserved};
ghost use Rattle.slot_rule.specs.Private.Heads.{NoneGoneBefore};
ghost use Rattle.slot_rule.specs.Private.Runs.{IsFirstRun};
ghost use Rattle.slot_rule.specs.Private.Slots.{FillsSlot, IsDueSoon, IsSender, Reserves, RowStands, SendsOne, TellsAfter};
ghost use Rattle.slot_rule.specs.Private.States.{ChangesEach, IsPlaced, ReleasesAll};
ghost use Rattle.slot_rule.specs.Private.QueueState.{IsReady, IsSmall};
ghost use Rattle.slot_rule.specs.Private.Turns.{AreTurns, turn_of};

use crate::after::After;
use crate::heads::{Head, permitted_head};
use crate::row::Row;
use crate::sent::Sent;
use crate::states::{States, first_gone, first_states, release_all, take_pcr};
use crate::turns::{Turns, first_turns, pass_turn};
use stream_constants::clock::SUBTICKS_PER_TICK;
use version_table::Table;

/// What the rule keeps of all queues between slots.
#[derive(Drop)]
pub struct RunState {
    /// The state of each queue.
    pub states: States,
    /// The turns of their head packets.
    pub turns: Turns,
    /// No payload that is held is gone before this tick.
    pub first_gone: u64,
}

impl RunState {
    /// The state before the first slot.
    pub fn new(table: &Table, choice: &[u8]) -> RunState
        requires valid { IsValidTable table.now }
        requires fits { Fits table.now choice.now }
        ensures { IsFirstRun table.now choice.now result }
    {
        let states = first_states(table, choice);
        let turns = first_turns(states.as_slice());
        RunState {
            states,
            turns,
            first_gone: 0,
        }
    }

    /// The same again.
    pub fn copy(&self) -> RunState
        ensures states { result.states.items ≡ self.now.states.items }
        ensures turns { result.turns.items ≡ self.now.turns.items }
        ensures gone { result.first_gone ≡ self.now.first_gone }
    {
        let mut states = States::new();
        let Ok(()) = states.try_extend_from_slice(self.states.as_slice()) else {
            unreachable!();
        };
        let mut turns = Turns::new();
        let Ok(()) = turns.try_extend_from_slice(self.turns.as_slice()) else {
            unreachable!();
        };
        RunState {
            states,
            turns,
            first_gone: self.first_gone,
        }
    }

    /// What the timetable has in a slot that begins at `start` ticks goes.
    pub fn reserve(&mut self, reserved: Sent, start: u64) -> Row
        requires small { All IsSmall self.old.states.items }
        requires start { start < 2 ^ 50 }
        requires turns { AreTurns self.old.states.items self.old.turns.items }
        requires gone { NoneGoneBefore self.old.states.items self.old.first_gone }
        ensures row { result ≡ Reserved reserved }
        ensures changes { Reserves reserved (SUBTICKS_PER_TICK * start) self.old.states.items self.new.states.items }
        ensures turns { AreTurns self.new.states.items self.new.turns.items }
        ensures gone { NoneGoneBefore self.new.states.items self.new.first_gone }
    {
        if let Sent::Pcr(program) = reserved {
            take_pcr(
                self.states.as_mut_slice(),
                program,
                SUBTICKS_PER_TICK * start,
            );
        }
        Row::Reserved(reserved)
    }

    /// The permitted head packet that is due first goes, in a slot that begins at `start` ticks.
    pub fn send_first(&mut self, table: &Table, choice: &[u8], start: u64) -> Row
        requires few { length self.old.states.items < 2 ^ 32 }
        requires placed { All (IsPlaced table.now choice.now) self.old.states.items }
        requires ready { All IsReady self.old.states.items }
        requires start { start < 2 ^ 50 }
        requires turns { AreTurns self.old.states.items self.old.turns.items }
        requires gone { NoneGoneBefore self.old.states.items self.old.first_gone }
        ensures fills { (released : List QueueState) × ChangesEach (ReleasesAll table.now choice.now start) self.old.states.items released
            × FillsSlot table.now choice.now start result released self.new.states.items }
        ensures turns { AreTurns self.new.states.items self.new.turns.items }
        ensures gone { NoneGoneBefore self.new.states.items self.new.first_gone }
    {
        self.release(table, choice, start);
        match permitted_head(self.states.as_slice(), self.turns.as_slice(), start) {
            Some(head) => {
                self.send(table, choice, head, SUBTICKS_PER_TICK * start);
                Row::Carries {
                    stream: head.stream,
                    packet: head.packet,
                }
            }
            None => Row::Empty,
        }
    }

    /// What is found after slot `n`, in which this row stood, where this is what is kept after it.
    pub fn after(&self, row: Row, slot: u32, n: u32) -> After
        requires few { length self.now.states.items < 2 ^ 32 }
        requires soon { All IsDueSoon self.now.states.items }
        requires turns { AreTurns self.now.states.items self.now.turns.items }
        requires row { RowStands self.now.states.items row }
        requires n { n < TIME_SLOTS_MOST }
        requires slot { slot ≤ SLOT_MOST }
        ensures { TellsAfter self.now.states.items (SUBTICKS_PER_TICK * ((n + 1) * slot)) row n result }
    {
        After::slot(self.states.as_slice(), self.turns.as_slice(), row, slot, n)
    }

    /// Leaves out what is gone at `start` ticks.
    fn release(&mut self, table: &Table, choice: &[u8], start: u64)
        requires placed { All (IsPlaced table.now choice.now) self.old.states.items }
        requires turns { AreTurns self.old.states.items self.old.turns.items }
        requires gone { NoneGoneBefore self.old.states.items self.old.first_gone }
        ensures releases { ChangesEach (ReleasesAll table.now choice.now start) self.old.states.items self.new.states.items }
        ensures turns { AreTurns self.new.states.items self.new.turns.items }
        ensures gone { NoneGoneBefore self.new.states.items self.new.first_gone }
    {
        if self.first_gone <= start {
            release_all(table, choice, self.states.as_mut_slice(), start);
            self.first_gone = first_gone(self.states.as_slice());
        }
    }

    /// A head packet goes, in a slot that begins at `now` subticks.
    fn send(&mut self, table: &Table, choice: &[u8], head: Head, now: u64)
        requires sender { IsSender table.now choice.now self.old.states.items head.stream head.packet }
        requires now { now < 2 ^ 60 }
        requires turns { AreTurns self.old.states.items self.old.turns.items }
        requires place { slice_get self.old.turns.items head.place ≡ Some (turn_of head.stream head.packet) }
        requires gone { NoneGoneBefore self.old.states.items self.old.first_gone }
        ensures sends { SendsOne table.now choice.now head.stream head.packet now self.old.states.items self.new.states.items }
        ensures turns { AreTurns self.new.states.items self.new.turns.items }
        ensures gone { NoneGoneBefore self.new.states.items self.new.first_gone }
    {
        let state = &mut self.states[head.stream];
        state.send(table, choice, head.packet, now);
        let next = state.head;
        self.first_gone = self.first_gone.min(head.packet.gone);
        pass_turn(&mut self.turns, head.place, next);
    }
}
