ghost use Rattle.std.specs.Prelude.{◌≡◌, ℕ, ◌+◌, ◌-◌, ◌*◌, ◌^◌, ◌<◌, ◌≤◌, ◌↔◌, Some, All, IsTrue, max, slice_get};
ghost use Rattle.stream_constants.specs.declared.packets.TheConstants.{PAYLOAD_BYTES};
ghost use Rattle.slot_rule.specs.declared.queued_packet.QueuedPacket.{QueuedPacket};
ghost use Rattle.slot_rule.specs.Buffers.{queue_tb_subticks};
ghost use Rattle.slot_rule.specs.Private.Heads.{IsOffer, PassesAt};
ghost use Rattle.slot_rule.specs.Private.QueueItems.{IsPlace};
ghost use Rattle.slot_rule.specs.Private.States.{TakesPcr};
ghost use Rattle.slot_rule.specs.Private.QueueState.{HoldsNoneGone, HoldsUntil, IsKind, IsNumbered, IsReady, IsSmall, MayGoFrom, KeepsPlace, Permits, Releases, first_state, packets_at, mb_or_tb_of_state, work_of_state};

use crate::queue_items::QueueItems;
use crate::queue_kind::QueueKind;
use crate::queued_packet::QueuedPacket;
use stream_constants::clock::SUBTICKS_PER_TICK;
use stream_constants::decoder::{HOLD_TICKS, MB_SUBTICKS};
use stream_constants::packets::PACKET_BYTES;
use version_table::Table;

/// What the rule keeps of a queue between slots: its place among its packets, and one number for each buffer. Nothing of
/// it changes while none of its packets goes.
#[derive(Clone, Copy)]
pub struct QueueState {
    /// The kind of the stream.
    pub kind: QueueKind,
    /// Where its packets stand.
    pub items: QueueItems,
    /// The instant at which TB has no work left, in subticks; work waits there before it.
    pub tb_empty: u64,
    /// The same of MB.
    pub mb_empty: u64,
    /// How many packets are sent.
    pub sent: u32,
    /// The first packet that isn't sent.
    pub head: Option<QueuedPacket>,
    /// How many of the packets that are sent were gone when that was last asked.
    pub gone: u32,
    /// The first packet that wasn't gone.
    pub oldest: Option<QueuedPacket>,
    /// Payload bytes of the packets that are sent and weren't gone.
    pub held: u64,
}

impl Default for QueueState {
    /// The state of a stream without packets.
    fn default() -> QueueState {
        QueueState::new(
            QueueKind::Audio,
            QueueItems::Packets {
                program: 0,
                audio: 0,
            },
            None,
        )
    }
}

impl QueueState {
    /// The state before the first slot.
    pub fn new(kind: QueueKind, items: QueueItems, first: Option<QueuedPacket>) -> QueueState
        ensures { result ≡ first_state kind items first }
    {
        QueueState {
            kind,
            items,
            tb_empty: 0,
            mb_empty: 0,
            sent: 0,
            head: first,
            gone: 0,
            oldest: first,
            held: 0,
        }
    }

    /// The head packet, where it may go in a slot that begins at `start` ticks.
    pub fn permitted(&self, start: u64) -> Option<QueuedPacket>
        requires ready { IsReady self.now }
        requires start { start < 2 ^ 50 }
        ensures { IsOffer (PassesAt start) self.now result }
    {
        match self.head {
            Some(packet) if self.permits(packet, start) => Some(packet),
            _ => None,
        }
    }

    /// Whether a packet may go in a slot that begins at `start` ticks.
    fn permits(&self, packet: QueuedPacket, start: u64) -> bool
        requires small { IsSmall self.now }
        requires kind { IsKind self.now.kind }
        requires payload { packet.payload ≤ PAYLOAD_BYTES }
        requires start { start < 2 ^ 50 }
        ensures { IsTrue result ↔ Permits self.now packet start }
    {
        let now = SUBTICKS_PER_TICK * start;
        self.tb_empty.saturating_sub(now) <= self.kind.tb_gate()
            && self.kind.permits_mb(self.mb_empty.saturating_sub(now))
            && self.held + packet.payload <= self.kind.eb_or_b_bytes()
            && packet.gone <= start + HOLD_TICKS
    }

    /// The subtick before which the head packet may not go, while no payload is released.
    pub fn may_go_from(&self) -> u64
        requires { IsReady self.now }
        ensures { MayGoFrom result self.now }
    {
        let Some(packet) = self.head else {
            return u64::MAX;
        };
        if self.held + packet.payload > self.kind.eb_or_b_bytes() {
            return u64::MAX;
        }
        let tb = self.tb_empty.saturating_sub(self.kind.tb_gate());
        let mb = self.kind.mb_gate_from(self.mb_empty);
        let hold = SUBTICKS_PER_TICK * packet.gone.saturating_sub(HOLD_TICKS);
        tb.max(mb).max(hold)
    }

    /// The head packet goes, in a slot that begins at `now` subticks.
    pub fn send(&mut self, table: &Table, choice: &[u8], packet: QueuedPacket, now: u64)
        requires place { IsPlace table.now choice.now self.old.items }
        requires numbered { All IsNumbered (packets_at table.now choice.now self.old.items) }
        requires keeps { KeepsPlace (packets_at table.now choice.now self.old.items) self.old }
        requires head { self.old.head ≡ Some packet }
        requires small { IsSmall self.old }
        requires now { now < 2 ^ 60 }
        ensures keeps { KeepsPlace (packets_at table.now choice.now self.old.items) self.new }
        ensures changed { self.new ≡ record self.old {
          tb_empty = max self.old.tb_empty now + PACKET_BYTES * queue_tb_subticks self.old.kind;
          mb_empty = max self.old.mb_empty now + MB_SUBTICKS * packet.payload;
          sent = self.old.sent + 1;
          head = self.new.head;
          held = self.old.held + packet.payload;
        } }
    {
        self.tb_empty = self.tb_empty.max(now) + PACKET_BYTES as u64 * self.kind.tb_subticks();
        self.mb_empty = self.mb_empty.max(now) + MB_SUBTICKS * packet.payload;
        self.sent += 1;
        self.head = self.items.packet_after(table, choice, packet);
        self.held += packet.payload;
    }

    /// The PCR of a program goes, in a slot that begins at `now` subticks, on the queue's PID where that is the program's
    /// video.
    pub fn take_pcr(&mut self, program: u8, now: u64)
        requires small { IsSmall self.old }
        requires now { now < 2 ^ 60 }
        ensures { TakesPcr program now self.old self.new }
    {
        if self.kind.has_pcr(program) {
            self.tb_empty = self.tb_empty.max(now) + PACKET_BYTES as u64 * self.kind.tb_subticks();
        }
    }

    /// Leaves out of `held` the packets that are gone at `start` ticks.
    pub fn release(&mut self, table: &Table, choice: &[u8], start: u64)
        requires place { IsPlace table.now choice.now self.old.items }
        requires numbered { All IsNumbered (packets_at table.now choice.now self.old.items) }
        requires keeps { KeepsPlace (packets_at table.now choice.now self.old.items) self.old }
        ensures keeps { KeepsPlace (packets_at table.now choice.now self.old.items) self.new }
        ensures releases { Releases (packets_at table.now choice.now self.old.items) start self.old self.new }
        ensures rest { HoldsNoneGone (packets_at table.now choice.now self.old.items) start self.new }
    {
        while self.gone < self.sent {
            let Some(packet) = self.oldest else {
                return;
            };
            if start < packet.gone {
                return;
            }
            self.held -= packet.payload;
            self.gone += 1;
            self.oldest = self.items.packet_after(table, choice, packet);
        }
    }

    /// The tick before which no payload that is held is gone.
    pub fn first_gone(&self) -> u64
        ensures { HoldsUntil result self.now }
    {
        match self.oldest {
            Some(packet) if self.gone < self.sent => packet.gone,
            _ => u64::MAX,
        }
    }

    /// The work that waits in TB and MB at `now`, in subticks; audio has no MB.
    pub fn work_at(&self, now: u64) -> (u64, u64)
        ensures { result ≡ work_of_state self.now now }
    {
        let tb = self.tb_empty.saturating_sub(now);
        match self.kind {
            QueueKind::Video { .. } => (tb, self.mb_empty.saturating_sub(now)),
            QueueKind::Audio => (tb, 0),
        }
    }

    /// The work that waits at `now` for a packet that has come, in subticks: in MB, or in TB of audio.
    pub fn mb_or_tb_work(&self, now: u64) -> u64
        ensures { result ≡ mb_or_tb_of_state self.now now }
    {
        match self.kind {
            QueueKind::Video { .. } => self.mb_empty.saturating_sub(now),
            QueueKind::Audio => self.tb_empty.saturating_sub(now),
        }
    }
}
