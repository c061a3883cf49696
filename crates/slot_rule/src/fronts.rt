ghost use Rattle.std.specs.Prelude.{◌≡◌, ◌<◌, ◌≤◌, All, IsTrue, Some, length, take};
ghost use Rattle.slot_rule.specs.declared.queued_packet.QueuedPacket.{QueuedPacket as Packet};
ghost use Rattle.slot_rule.specs.declared.states.TheConstants.{QUEUES_MOST};
ghost use Rattle.slot_rule.specs.Private.Checkpoints.{AreFronts, AreWithin, IsFrontOf, IsWholeOf, IsWithin};
ghost use Rattle.slot_rule.specs.Private.QueueItems.{IsPlace};

use crate::queue_items::{QueueItems, program_at};
use crate::queue_state::QueueState;
use crate::queued_packet::QueuedPacket;
use crate::states::QUEUES_MOST;
use arrayvec::ArrayVec;
use version_table::Table;

/// How much of a queue is the same under two choices.
#[derive(Clone, Copy)]
pub struct Front {
    /// Units, from its first on, that have the same versions under both.
    pub same: usize,
    /// Whether these are all of its units. An audio queue has none.
    pub is_whole: bool,
}

impl Default for Front {
    /// The front of an audio queue.
    fn default() -> Front {
        Front {
            same: 0,
            is_whole: true,
        }
    }
}

/// The fronts of all queues, in their order.
pub type Fronts = ArrayVec<Front, QUEUES_MOST>;

/// The fronts of the queues with these states, under two choices.
pub fn fronts_of(table: &Table, old: &[u8], new: &[u8], states: &[QueueState]) -> Fronts
    requires few { length states.now ≤ QUEUES_MOST }
    requires as_many { length old.now ≡ length new.now }
    requires places { All (λ state. IsPlace table.now new.now state.items) states.now }
    ensures { AreFronts table.now old.now new.now states.now result.items }
{
    let mut fronts = Fronts::new();
    for state in states {
        fronts.push(front_of(table, old, new, state.items));
    }
    fronts
}

/// The front of a queue under two choices.
fn front_of(table: &Table, old: &[u8], new: &[u8], items: QueueItems) -> Front
    requires as_many { length old.now ≡ length new.now }
    requires place { IsPlace table.now new.now items }
    ensures same { IsFrontOf table.now old.now new.now items result.same }
    ensures whole { IsTrue result.is_whole → IsWholeOf table.now items result.same }
{
    match items {
        QueueItems::Units { program, first } => {
            let units = program_at(table, program).units.len();
            let same = same_front(&old[first..], &new[first..], units);
            Front {
                same,
                is_whole: same == units,
            }
        }
        QueueItems::Packets { .. } => Front {
            same: 0,
            is_whole: true,
        },
    }
}

/// How many numbers of these lists are equal from the first on, of so many at most.
fn same_front(old: &[u8], new: &[u8], most: usize) -> usize
    requires old { most ≤ length old.now }
    requires new { most ≤ length new.now }
    ensures upto { result ≤ most }
    ensures same { take result old.now ≡ take result new.now }
{
    let mut same = 0;
    while same < most && old[same] == new[same] {
        same += 1;
    }
    same
}

impl Front {
    /// Whether the packets of the queue in this state are the same under both choices up to its head.
    fn admits(&self, state: &QueueState) -> bool
        ensures { IsTrue result → IsWithin self.now state.now }
    {
        self.is_whole || self.has(state.head)
    }

    /// Whether the packet is of a unit that is the same.
    fn has(&self, head: Option<QueuedPacket>) -> bool
        ensures { IsTrue result → (packet : Packet) × (head ≡ Some packet) × (packet.item < self.now.same) }
    {
        match head {
            Some(packet) => (packet.item as usize) < self.same,
            None => false,
        }
    }
}

/// Whether the packets of all queues up to their heads are the same under both choices.
pub fn are_within(fronts: &[Front], states: &[QueueState]) -> bool
    ensures { IsTrue result → AreWithin fronts.now states.now }
{
    if states.len() != fronts.len() {
        return false;
    }
    for (stream, front) in fronts.iter().enumerate() {
        if !front.admits(&states[stream]) {
            return false;
        }
    }
    true
}
