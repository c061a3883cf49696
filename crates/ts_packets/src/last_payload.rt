ghost use Rattle.std.specs.Prelude.{◌≡◌, ◌<◌, ◌≤◌, true, false, None, Some, length};
ghost use Rattle.std.specs.Option.{option_map_or};
ghost use Rattle.stream_constants.specs.declared.packets.TheConstants.{PAYLOAD_BYTES};
ghost use Rattle.ts_packets.specs.Packet.{record_of};
ghost use Rattle.ts_packets.specs.LastPayload.{numbered};
ghost use Rattle.ts_packets.specs.Private.PidReader.{repeats, counts_on};

use crate::packet::Packet;
use std::marker::Model;
use stream_constants::packets::PAYLOAD_BYTES;

/// The values of the continuity counter, which goes on with 0 behind the last one.
const COUNTERS: u8 = 16;

/// Counter and payload of a PID's last packet with payload, where there was one. The payload is copied, so that the
/// packet's bytes may be gone when the next one comes.
#[derive(Drop)]
pub struct LastPayload {
    counter: u8,
    /// Bytes of the payload; 0 before the first packet with payload.
    count: usize,
    bytes: [u8; PAYLOAD_BYTES],
}

impl Model for LastPayload {
    ghost use Rattle.std.specs.Prelude.{Option, ◌≤◌};
    ghost use Rattle.ts_packets.specs.LastPayload.{Numbered};
    ghost use Rattle.ts_packets.specs.Private.LastPayload.{last_kept};

    ghost Value = { Option Numbered };

    ghost view = { λ a. last_kept a.counter a.count a.bytes };

    ghost invariant = { λ a. a.count ≤ 184 };
}

impl LastPayload {
    /// Nothing, before the first packet with payload.
    pub fn new() -> Self
        ensures { result ≡ None }
    {
        LastPayload {
            counter: 0,
            count: 0,
            bytes: [0; PAYLOAD_BYTES],
        }
    }

    /// Keeps what the packet has.
    pub fn keep(&mut self, packet: &Packet)
        requires some { 0 < length packet.now.payload.now }
        requires few { length packet.now.payload.now ≤ PAYLOAD_BYTES }
        ensures { self.new ≡ Some (numbered (record_of packet.now)) }
    {
        self.counter = packet.counter;
        self.count = packet.payload.len();
        self.bytes[..packet.payload.len()].copy_from_slice(packet.payload);
    }

    /// True where the packet has this counter and payload again.
    pub fn is_repeated_by(&self, packet: &Packet) -> bool
        requires { 0 < length packet.now.payload.now }
        ensures { result ≡ option_map_or (repeats (record_of packet.now)) self.now false }
    {
        packet.counter == self.counter && packet.payload == &self.bytes[..self.count]
    }

    /// True where the packet's counter is the next one, or nothing came before it.
    pub fn counts_on_to(&self, packet: &Packet) -> bool
        ensures { result ≡ option_map_or (counts_on (record_of packet.now)) self.now true }
    {
        self.count == 0 || packet.counter == self.counter.wrapping_add(1) % COUNTERS
    }
}
