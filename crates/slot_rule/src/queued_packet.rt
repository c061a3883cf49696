ghost use Rattle.std.specs.Prelude.{◌≡◌};

use crate::queue_kind::QueueKind;
use crate::sent::Sent;

/// A packet of a stream.
#[derive(Clone, Copy)]
pub struct QueuedPacket {
    /// The unit or audio packet that it is of, from 0.
    pub item: u32,
    /// Its place within the unit, from 0.
    pub piece: u32,
    /// Payload bytes.
    pub payload: u64,
    /// When it is wanted, in ticks.
    pub due: u64,
    /// When its payload is removed, in ticks.
    pub gone: u64,
}

impl QueuedPacket {
    ghost use Rattle.slot_rule.specs.SlotList.{piece_sent};

    /// The packet, as what stands in a slot, where its stream has this number and kind.
    pub(crate) fn sent(self, stream: u32, kind: QueueKind) -> Sent
        ensures { result ≡ piece_sent kind stream self }
    {
        match kind {
            QueueKind::Video { .. } => Sent::Video {
                stream,
                unit: self.item,
                piece: self.piece,
            },
            QueueKind::Audio => Sent::Audio {
                stream,
                packet: self.item,
            },
        }
    }
}
