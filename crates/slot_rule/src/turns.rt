ghost use Rattle.std.specs.Prelude.{◌≡◌, ℕ, ◌<◌, ◌≤◌, ◌↔◌, All, IsTrue, length, slice_index_or};
ghost use Rattle.arrayvec.specs.ArrayVec.{array_vec_len};
ghost use Rattle.slot_rule.specs.declared.states.TheConstants.{QUEUES_MOST};
ghost use Rattle.slot_rule.specs.declared.turns.Turn.{Turn};
ghost use Rattle.slot_rule.specs.Private.Turns.{AddsTurn, AreTurns, GoesBefore, IsTurnOrder, PassesTurn, turn_of};

use crate::queue_state::QueueState;
use crate::queued_packet::QueuedPacket;
use crate::states::QUEUES_MOST;
use arrayvec::ArrayVec;

/// When the head packet of a queue goes, among those of all queues: by its due time, then by the queue's number.
#[derive(Clone, Copy, Default)]
pub struct Turn {
    /// When the packet is wanted, in ticks.
    pub due: u64,
    /// The queue, over all programs, from 0.
    pub stream: usize,
}

/// The turns of all queues that have a head packet, in order.
pub type Turns = ArrayVec<Turn, QUEUES_MOST>;

impl Turn {
    /// The turn of a packet of the queue of this number.
    pub fn of(stream: usize, packet: QueuedPacket) -> Turn
        ensures { result ≡ turn_of stream packet }
    {
        Turn {
            due: packet.due,
            stream,
        }
    }

    /// Whether the turn comes before another.
    fn goes_before(self, other: Turn) -> bool
        ensures { IsTrue result ↔ GoesBefore self other }
    {
        self.due < other.due || self.due == other.due && self.stream < other.stream
    }
}

/// The turns of the head packets of these queues.
pub fn first_turns(states: &[QueueState]) -> Turns
    requires { length states.now ≤ QUEUES_MOST }
    ensures { AreTurns states.now result.items }
{
    let mut turns = Turns::new();
    for (stream, state) in states.iter().enumerate() {
        if let Some(packet) = state.head {
            add_turn(&mut turns, Turn::of(stream, packet));
        }
    }
    turns
}

/// The packet at a place has gone: its queue's turn is now that of its next packet, if it has one.
pub fn pass_turn(turns: &mut Turns, place: usize, next: Option<QueuedPacket>)
    requires place { place < array_vec_len turns.old }
    requires order { IsTurnOrder turns.old.items }
    ensures order { IsTurnOrder turns.new.items }
    ensures passes { PassesTurn place next turns.old.items turns.new.items }
{
    let turn = turns.as_slice()[place];
    match next {
        Some(packet) if packet.due == turn.due => {}
        Some(packet) => {
            turns.remove(place);
            add_turn(turns, Turn::of(turn.stream, packet));
        }
        None => {
            turns.remove(place);
        }
    }
}

/// Adds the turn of a queue that has none, at its place in the order.
fn add_turn(turns: &mut Turns, turn: Turn)
    requires room { array_vec_len turns.old < QUEUES_MOST }
    requires order { IsTurnOrder turns.old.items }
    requires apart { All (λ other. other.stream ≡ turn.stream → ⊥) turns.old.items }
    ensures order { IsTurnOrder turns.new.items }
    ensures adds { AddsTurn turn turns.old.items turns.new.items }
{
    let place = place_of(turns.as_slice(), turn);
    turns.insert(place, turn);
}

/// How many of the turns don't come after this one, as far as the first that does.
fn place_of(turns: &[Turn], turn: Turn) -> usize
    ensures within { result ≤ length turns.now }
    ensures before { (k : ℕ) (d : Turn) → k < result → GoesBefore turn (slice_index_or turns.now k d) → ⊥ }
    ensures after { (d : Turn) → result < length turns.now → GoesBefore turn (slice_index_or turns.now result d) }
{
    for (place, other) in turns.iter().enumerate() {
        if turn.goes_before(*other) {
            return place;
        }
    }
    turns.len()
}
