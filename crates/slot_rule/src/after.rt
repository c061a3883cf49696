ghost use Rattle.std.specs.Prelude.{◌≡◌, ◌+◌, ◌*◌, ◌^◌, ◌<◌, ◌≤◌, All, length};
ghost use Rattle.version_table.specs.declared.limits.TheConstants.{SLOT_MOST, TIME_SLOTS_MOST};
ghost use Rattle.stream_constants.specs.declared.clock.TheConstants.{SUBTICKS_PER_TICK};
ghost use Rattle.slot_rule.specs.Private.Slots.{IsDueSoon, RowStands};
ghost use Rattle.slot_rule.specs.Private.Turns.{AreTurns};

use crate::constants::MARGIN_SUBTICKS;
use crate::heads::due_head;
use crate::queue_state::QueueState;
use crate::queued_packet::QueuedPacket;
use crate::row::Row;
use crate::sent::Miss;
use crate::turns::Turn;
use stream_constants::clock::SUBTICKS_PER_TICK;

/// What is found after a slot.
#[derive(Clone, Copy)]
pub enum After {
    /// A packet misses.
    Missed(Miss),
    /// Nothing misses, and all is sent.
    AllSent,
    /// Nothing misses, and some packets aren't sent.
    Waiting,
}

impl After {
    ghost use Rattle.slot_rule.specs.Private.Slots.{TellsAfter};

    /// What is found after slot `n`, in which this row stood; the states and turns are those after it.
    pub fn slot(states: &[QueueState], turns: &[Turn], row: Row, slot: u32, n: u32) -> After
        requires few { length states.now < 2 ^ 32 }
        requires soon { All IsDueSoon states.now }
        requires turns { AreTurns states.now turns.now }
        requires row { RowStands states.now row }
        requires n { n < TIME_SLOTS_MOST }
        requires slot { slot ≤ SLOT_MOST }
        ensures { TellsAfter states.now (SUBTICKS_PER_TICK * ((n + 1) * slot)) row n result }
    {
        let end = SUBTICKS_PER_TICK * (u64::from(n + 1) * u64::from(slot));
        let end_with_margin = end + MARGIN_SUBTICKS;
        if let Row::Carries { stream, packet } = row {
            if SUBTICKS_PER_TICK * packet.due
                < end_with_margin + states[stream].mb_or_tb_work(end)
            {
                return After::Missed(miss_of(stream, packet, n));
            }
        }
        match due_head(states, turns) {
            Some(head) if SUBTICKS_PER_TICK * head.packet.due < end_with_margin => {
                After::Missed(miss_of(head.stream, head.packet, n))
            }
            Some(_) => After::Waiting,
            None => After::AllSent,
        }
    }
}

/// The miss of a packet after slot `n`.
fn miss_of(stream: usize, packet: QueuedPacket, n: u32) -> Miss
    requires { stream < 2 ^ 32 }
    ensures { result ≡ record { stream = stream; unit = packet.item; slot = n; due = packet.due } }
{
    Miss {
        stream: stream as u32,
        unit: packet.item,
        slot: n,
        due: packet.due,
    }
}
