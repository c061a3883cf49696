ghost use Rattle.std.specs.Prelude.{◌≡◌, ◌+◌, ◌*◌, ◌^◌, ◌≤◌, ◌∷◌, IfSome, IsTrue, List, min};
ghost use Rattle.stream_constants.specs.declared.decoder.TheConstants.{TB_BYTES};
ghost use Rattle.stream_constants.specs.declared.packets.TheConstants.{PACKET_BYTES};
ghost use Rattle.tstd_model.specs.PacketBytes.{Arrival, HasHeaderWithin, byte_subticks};
ghost use Rattle.tstd_model.specs.Private.Keeps.{tb_end};

use crate::decoder_input::Arrival;
use crate::packet_bytes::first_instant;
use stream_constants::clock::BYTE_SUBTICKS_PER_TICK;
use stream_constants::decoder::TB_BYTES;
use stream_constants::packets::PACKET_BYTES;

/// Subticks from byte to byte of the multiplex, by the ticks of a slot.
pub fn byte_subticks(slot: u32) -> u64
    requires { slot ≤ 2 ^ 16 }
    ensures value { result ≡ byte_subticks slot }
    ensures small { result ≤ 2 ^ 19 }
{
    BYTE_SUBTICKS_PER_TICK * u64::from(slot)
}

/// When the last byte of a packet has left TB, which is empty of those before from `before` on: the first of them comes at `first`, each
/// of the others `step` behind the one before, and each takes `subticks`. None where that is beyond 64 bits.
fn tb_end(before: u64, first: u64, step: u64, subticks: u64) -> Option<u64>
    requires first_fits { first ≤ 2 ^ 59 }
    requires step_fits { step ≤ 2 ^ 19 }
    requires subticks_fit { subticks ≤ 2 ^ 20 }
    ensures { IfSome result (λ at. at ≡ tb_end subticks step before first) }
{
    let last = first + (PACKET_BYTES as u64 - 1) * step.saturating_sub(subticks);
    before.max(last).checked_add(PACKET_BYTES as u64 * subticks)
}

/// A packet that has come into TB, in subticks.
#[derive(Clone, Copy)]
pub struct TbPacket {
    /// When its first byte comes.
    pub first: u64,
    /// When its last byte has left.
    pub end: u64,
    /// Whether TB surely keeps within its size while it comes.
    pub keeps: bool,
}

/// A transport buffer whose packets come one by one.
#[derive(Clone, Copy)]
pub struct TbWatch {
    slot: u32,
    step: u64,
    subticks: u64,
    // from when on TB is empty of the packets before
    before: u64,
    ghost step_is: { step ≡ byte_subticks slot },
    ghost step_fits: { step ≤ 2 ^ 19 },
    ghost subticks_fit: { subticks ≤ 2 ^ 20 },
}

impl TbWatch {
    ghost use Rattle.tstd_model.specs.Private.Watches.{KeepsTb, PassesTb, first_of};

    /// An empty one, which each byte takes so many subticks to leave.
    pub fn new(slot: u32, subticks: u64) -> Self
        requires slot_fits { slot ≤ 2 ^ 16 }
        requires subticks_fit { subticks ≤ 2 ^ 20 }
        ensures slot { result.slot ≡ slot }
        ensures subticks { result.subticks ≡ subticks }
        ensures before { result.before ≡ 0 }
    {
        TbWatch {
            slot,
            step: byte_subticks(slot),
            subticks,
            before: 0,
        }
    }

    /// Whether TB surely keeps within its size while a packet comes whose first byte comes then.
    fn keeps(&self, first: u64) -> bool
        requires { first ≤ 2 ^ 59 }
        ensures { IsTrue result → self.now.before + self.now.subticks * PACKET_BYTES + min self.now.step self.now.subticks ≤ first + min self.now.step self.now.subticks * PACKET_BYTES + self.now.subticks * TB_BYTES }
    {
        let kept = (PACKET_BYTES as u64 - 1) * self.step.min(self.subticks);
        self.before <= first + kept + (TB_BYTES - PACKET_BYTES as u64) * self.subticks
    }

    /// The next packet comes; none where its instants are beyond 64 bits.
    pub fn take(&mut self, packet: &Arrival) -> Option<TbPacket>
        requires { HasHeaderWithin packet.now }
        ensures first { IfSome result (λ tb. tb.first ≡ first_of self.old.slot packet.now) }
        ensures small { IfSome result (λ tb. tb.first ≤ 2 ^ 59) }
        ensures passes { IfSome result (λ tb. PassesTb self.old packet.now tb.end self.new) }
        ensures keeps { IfSome result (λ tb. IsTrue tb.keeps → (later : List Arrival) → KeepsTb self.new later → KeepsTb self.old (packet.now ∷ later)) }
        ensures slot { self.new.slot ≡ self.old.slot }
    {
        let first = first_instant(packet.slot_no, self.step);
        let keeps = self.keeps(first);
        let Some(end) = tb_end(self.before, first, self.step, self.subticks) else {
            return None;
        };
        self.before = end;
        Some(TbPacket { first, end, keeps })
    }
}
