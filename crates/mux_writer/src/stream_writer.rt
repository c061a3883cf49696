ghost use Rattle.std.specs.Prelude.{◌≡◌, ℕ, ◌<◌, ◌≤◌, true, false, Ok, All, length, IfSome, OnErr, IsErrOf};
ghost use Rattle.version_table.specs.declared.limits.TheConstants.{SLOT_LEAST, SLOT_MOST};
ghost use Rattle.shelf_io.specs.Causes.{SinkCauses};
ghost use Rattle.ts_packets.specs.Packet.{written};
ghost use Rattle.mux_writer.specs.Layout.{IsLayout};
ghost use Rattle.mux_writer.specs.Output.{IsOfLayout, packet_in};
ghost use Rattle.mux_writer.specs.Writing.{further, IsAtFront};

use crate::counters::Counters;
use crate::layout::Layout;
use crate::piece_source::PieceSource;
use crate::prepared::Prepared;
use crate::stream::slot_packet;
use shelf_io::Fault;
use slot_rule::{Sent, SlotList};
use std::marker::Model;
use stream_constants::packets::PACKET_BYTES;
use version_table::limits::{SLOT_LEAST, SLOT_MOST};

/// The packets of the transport stream of a schedule, slot by slot. The pieces are lent to each call, so that what gives them can be used in between. Contracts
/// see what is written, and the slot that comes next.
#[derive(Drop)]
pub struct StreamWriter<'a> {
    layout: &'a Layout,
    slot: u32,
    rows: &'a [Sent],
    /// How many slots there are.
    slots: u32,
    prepared: Prepared,
    counters: Counters,
    /// The slot whose packet comes next.
    next: u32,
}

impl<'a> Model for StreamWriter<'a> {
    ghost use Rattle.mux_writer.specs.Writing.{Writing};
    ghost use Rattle.mux_writer.specs.Private.Writer.{IsWriter, writing_of};

    ghost Value = { Writing };

    ghost view = { writing_of };

    ghost invariant = { IsWriter };
}

impl<'a> StreamWriter<'a> {
    /// Before the first slot of a schedule, whose slots have `slot` ticks of 1/27,000,000 s. It takes no memory.
    ///
    /// It needs a layout whose maps have the output's PIDs and fit their packets, a slot within the limits, and as many rows as `slots` says.
    pub fn new(layout: &'a Layout, slot: u32, schedule: &'a SlotList) -> Self
        requires layout { IsLayout layout.now }
        requires slot_least { SLOT_LEAST ≤ slot }
        requires slot_most { slot ≤ SLOT_MOST }
        requires slots { length schedule.now.rows ≡ schedule.now.slots }
        ensures { IsAtFront layout.now slot schedule.now.rows result }
    {
        StreamWriter {
            layout,
            slot,
            rows: schedule.rows.as_slice(),
            slots: schedule.slots,
            prepared: Prepared::of(layout),
            counters: Counters::new(),
            next: 0,
        }
    }

    /// Writes the packet of the next slot, and answers true; or false where there is none. A fault is the piece source's own, and the slot comes next again.
    /// It needs rows that name programs and streams of the layout and pieces that the source has.
    pub fn next<P: PieceSource>(
        &mut self,
        pieces: &mut P,
        into: &mut [u8; PACKET_BYTES],
    ) -> Result<bool, Fault>
        requires { All (IsOfLayout self.old.layout (P.has pieces.old)) self.old.rows }
        ensures more { result ≡ Ok true → (self.old.at < length self.old.rows) × (self.new ≡ further self.old) }
        ensures packet { result ≡ Ok true → IfSome (P.told pieces.old) (λ told. into.new ≡ written (packet_in self.old.layout self.old.slot told self.old.rows self.old.at)) }
        ensures end { result ≡ Ok false → (length self.old.rows ≤ self.old.at) × (self.new ≡ self.old) }
        ensures err { OnErr result (self.new ≡ self.old) }

        ensures causes { SinkCauses P.faults (IsErrOf result Fault.Failed) (IsErrOf result Fault.Missing) pieces.old pieces.new }
        ensures keeps { P.keeps pieces.old pieces.new }
        ensures same { P.told pieces.new ≡ P.told pieces.old }
        ensures still { (stream item piece : ℕ) → P.has pieces.old stream item piece → P.has pieces.new stream item piece }
    {
        if self.next >= self.slots {
            return Ok(false);
        }
        let sent = self.rows[self.next as usize];
        slot_packet(
            self.layout,
            self.slot,
            &self.prepared,
            &mut self.counters,
            self.next,
            sent,
            pieces,
            into,
        )?;
        self.next += 1;
        Ok(true)
    }
}
