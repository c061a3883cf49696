ghost use Rattle.std.specs.Prelude.{◌≡◌, ℕ, ◌-◌, ◌<◌, ◌↔◌, IsTrue};
ghost use Rattle.slot_rule.specs.Buffers.{queue_tb_subticks, tb_gate, eb_or_b_bytes, MbPermits};
ghost use Rattle.slot_rule.specs.Private.QueueState.{IsKind, HasPcr};

use crate::constants::{AUDIO_TB_GATE, MB_SPARE_BYTES, VIDEO_TB_GATE};
use stream_constants::decoder::{
    AUDIO_BYTES, AUDIO_TB_SUBTICKS, EB_UNIT_BYTES, MB_SUBTICKS, VIDEO_BYTES, VIDEO_TB_SUBTICKS,
};

/// The kind of a stream.
#[derive(Clone, Copy)]
pub enum QueueKind {
    /// The video of the program of this number, with the size of its elementary buffer in units of 2,048 bytes.
    Video { program: u8, vbv: u8 },
    /// An audio stream.
    Audio,
}

impl QueueKind {
    /// Subticks that a byte takes to leave the transport buffer.
    pub(crate) fn tb_subticks(self) -> u64
        ensures { result ≡ queue_tb_subticks self }
    {
        match self {
            QueueKind::Video { .. } => VIDEO_TB_SUBTICKS,
            QueueKind::Audio => AUDIO_TB_SUBTICKS,
        }
    }

    /// The work that may wait in the transport buffer where a packet goes.
    pub(crate) fn tb_gate(self) -> u64
        ensures { result ≡ tb_gate self }
    {
        match self {
            QueueKind::Video { .. } => VIDEO_TB_GATE * VIDEO_TB_SUBTICKS,
            QueueKind::Audio => AUDIO_TB_GATE * AUDIO_TB_SUBTICKS,
        }
    }

    /// Whether a packet may go where so much work waits in the multiplexing buffer; an audio stream has none.
    pub(crate) fn permits_mb(self, work: u64) -> bool
        requires { IsKind self }
        ensures { IsTrue result ↔ MbPermits self work }
    {
        match self {
            QueueKind::Video { vbv, .. } => {
                work <= (VIDEO_BYTES - EB_UNIT_BYTES * u64::from(vbv) - MB_SPARE_BYTES)
                    * MB_SUBTICKS
            }
            QueueKind::Audio => true,
        }
    }

    /// The time before which no packet may go by MB, which is empty at the time `empty`, in subticks.
    pub(crate) fn mb_gate_from(self, empty: u64) -> u64
        requires { IsKind self }
        ensures { (now : ℕ) → now < result → MbPermits self (empty - now) → ⊥ }
    {
        match self {
            QueueKind::Video { vbv, .. } => {
                empty.saturating_sub(
                    (VIDEO_BYTES - EB_UNIT_BYTES * u64::from(vbv) - MB_SPARE_BYTES) * MB_SUBTICKS,
                )
            }
            QueueKind::Audio => 0,
        }
    }

    /// Bytes of the buffer from which units or frames are removed.
    pub(crate) fn eb_or_b_bytes(self) -> u64
        ensures { result ≡ eb_or_b_bytes self }
    {
        match self {
            QueueKind::Video { vbv, .. } => EB_UNIT_BYTES * u64::from(vbv),
            QueueKind::Audio => AUDIO_BYTES,
        }
    }

    /// Whether the PCR of a program goes on the stream's PID.
    pub(crate) fn has_pcr(self, number: u8) -> bool
        ensures { IsTrue result ↔ HasPcr self number }
    {
        match self {
            QueueKind::Video { program, .. } => program == number,
            QueueKind::Audio => false,
        }
    }
}
