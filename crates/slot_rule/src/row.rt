ghost use Rattle.std.specs.Prelude.{◌≡◌, ◌^◌, ◌<◌, length};

use crate::queue_state::QueueState;
use crate::queued_packet::QueuedPacket;
use crate::sent::Sent;

/// What stands in a slot, with all that the rule asks of it.
#[derive(Clone, Copy)]
pub enum Row {
    /// What the timetable has there.
    Reserved(Sent),
    /// A packet of the stream of this number, over all programs.
    Carries { stream: usize, packet: QueuedPacket },
    /// A null packet.
    Empty,
}

impl Row {
    ghost use Rattle.slot_rule.specs.Private.Slots.{RowStands, IsWhatStands};

    /// What stands in the slot, where the streams have these states.
    pub(crate) fn sent(self, states: &[QueueState]) -> Sent
        requires few { length states.now < 2 ^ 32 }
        requires stands { RowStands states.now self }
        ensures { IsWhatStands states.now self result }
    {
        match self {
            Row::Reserved(sent) => sent,
            Row::Carries { stream, packet } => packet.sent(stream as u32, states[stream].kind),
            Row::Empty => Sent::Null,
        }
    }
}
