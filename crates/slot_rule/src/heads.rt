ghost use Rattle.std.specs.Prelude.{◌≡◌, ◌^◌, ◌<◌, All, IfSome, Some, length, slice_get};
ghost use Rattle.slot_rule.specs.Private.Heads.{IsFirstHead, Passes, PassesAt};
ghost use Rattle.slot_rule.specs.Private.QueueState.{IsReady};
ghost use Rattle.slot_rule.specs.Private.Turns.{AreTurns, turn_of};

use crate::queue_state::QueueState;
use crate::queued_packet::QueuedPacket;
use crate::turns::Turn;

/// A queue's first packet that isn't sent.
#[derive(Clone, Copy)]
pub struct Head {
    /// The place of its turn.
    pub place: usize,
    /// The queue, over all programs, from 0.
    pub stream: usize,
    /// The packet.
    pub packet: QueuedPacket,
}

/// The permitted head packet that is due first in a slot that begins at `start` ticks, and among equals that of the
/// lowest queue; none where none may go.
pub fn permitted_head(states: &[QueueState], turns: &[Turn], start: u64) -> Option<Head>
    requires ready { All IsReady states.now }
    requires turns { AreTurns states.now turns.now }
    requires start { start < 2 ^ 50 }
    ensures first { IsFirstHead (PassesAt start) states.now result }
    ensures place { IfSome result (λ head. slice_get turns.now head.place ≡ Some (turn_of head.stream head.packet)) }
{
    for (place, turn) in turns.iter().enumerate() {
        match states[turn.stream].permitted(start) {
            Some(packet) => {
                return Some(Head {
                    place,
                    stream: turn.stream,
                    packet,
                });
            }
            None => {}
        }
    }
    None
}

/// The head packet that is due first, and among equals that of the lowest queue; none where all is sent.
pub fn due_head(states: &[QueueState], turns: &[Turn]) -> Option<Head>
    requires few { length states.now < 2 ^ 32 }
    requires turns { AreTurns states.now turns.now }
    ensures { IsFirstHead Passes states.now result }
{
    if turns.is_empty() {
        return None;
    }
    let stream = turns[0].stream;
    match states[stream].head {
        Some(packet) => Some(Head {
            place: 0,
            stream,
            packet,
        }),
        None => None,
    }
}
