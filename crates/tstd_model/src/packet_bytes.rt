ghost use Rattle.std.specs.Prelude.{◌≡◌, ℕ, ◌+◌, ◌*◌, ◌^◌, ◌≤◌, length};
ghost use Rattle.stream_constants.specs.declared.packets.TheConstants.{PACKET_BYTES};

use crate::decoder_input::{Arrival, PacketPart};
use std::marker::Model;
use stream_constants::packets::PACKET_BYTES;

/// A byte of a transport packet: what it belongs to, and when it comes.
#[derive(Clone, Copy)]
pub struct PacketByte {
    pub part: PacketPart,
    pub at: u64,
}

/// How many bytes of each part of a packet are still to come.
#[derive(Clone, Copy)]
pub struct PartsLeft {
    pub overhead: u8,
    pub header: u8,
    pub data: u8,
}

impl PartsLeft {
    ghost use Rattle.std.specs.Prelude.{[]};
    ghost use Rattle.tstd_model.specs.PacketBytes.{parts_of};
    ghost use Rattle.tstd_model.specs.Private.Cursors.{Gives, parts_left};

    /// No part at all.
    fn none() -> Self
        ensures { parts_left result ≡ [] }
    {
        PartsLeft {
            overhead: 0,
            header: 0,
            data: 0,
        }
    }

    /// All parts of a packet.
    #[tactic(auto, unfolding(crate::specs::PacketBytes::parts_of))]
    fn of(packet: &Arrival) -> Self
        ensures parts { parts_left result ≡ parts_of packet.now }
        ensures few { length (parts_left result) ≤ 1000 }
    {
        PartsLeft {
            overhead: (PACKET_BYTES as u8).saturating_sub(packet.payload),
            header: packet.header,
            data: packet.payload.saturating_sub(packet.header),
        }
    }

    /// The part of the next byte.
    fn next(&mut self) -> Option<PacketPart>
        ensures { Gives result (parts_left self.old) (parts_left self.new) }
    {
        if self.overhead > 0 {
            self.overhead -= 1;
            Some(PacketPart::Overhead)
        } else if self.header > 0 {
            self.header -= 1;
            Some(PacketPart::PesHeader)
        } else if self.data > 0 {
            self.data -= 1;
            Some(PacketPart::Data)
        } else {
            None
        }
    }
}

/// The bytes of packets in order, each made when it is asked for.
#[derive(Drop)]
pub struct PacketBytes<'a> {
    later: &'a [Arrival],
    step: u64,
    at: u64,
    parts: PartsLeft,
}

impl<'a> Model for PacketBytes<'a> {
    ghost use Rattle.std.specs.Prelude.{List, ℕ, length, ◌+◌, ◌*◌, ◌^◌, ◌≤◌};
    ghost use Rattle.tstd_model.specs.declared.packet_bytes.PacketByte.{PacketByte};

    ghost Value = { List PacketByte };

    ghost use Rattle.tstd_model.specs.Private.Cursors.{parts_left, packets_left};

    ghost view = { λ b. packets_left b.step b.at (parts_left b.parts) b.later.now };

    ghost invariant = { λ b. (b.step ≤ 2 ^ 19) × (b.at + 2 ^ 19 * length (parts_left b.parts) ≤ 2 ^ 60) };
}

impl<'a> PacketBytes<'a> {
    ghost use Rattle.tstd_model.specs.Private.Cursors.{Gives, bytes_of_all};

    /// The bytes of these packets; `step` is the subticks from byte to byte.
    pub fn new(packets: &'a [Arrival], step: u64) -> Self
        requires { step ≤ 2 ^ 19 }
        ensures { result ≡ bytes_of_all step packets.now }
    {
        PacketBytes {
            later: packets,
            step,
            at: 0,
            parts: PartsLeft::none(),
        }
    }

    /// The next byte.
    pub fn next_byte(&mut self) -> Option<PacketByte>
        ensures { Gives result self.old self.new }
    {
        'packets: loop {
            if let Some(part) = self.parts.next() {
                let at = self.at;
                self.at += self.step;
                return Some(PacketByte { part, at });
            }
            let Some((packet, later)) = self.later.split_first() else {
                return None;
            };
            self.later = later;
            self.at = first_instant(packet.slot_no, self.step);
            self.parts = PartsLeft::of(packet);
        }
    }
}

/// The instant at which the first byte of a slot comes.
pub fn first_instant(slot_no: u32, step: u64) -> u64
    requires { step ≤ 2 ^ 19 }
    ensures value { result ≡ PACKET_BYTES * slot_no * step }
    ensures small { result ≤ 2 ^ 59 }
{
    PACKET_BYTES as u64 * u64::from(slot_no) * step
}
