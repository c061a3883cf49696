ghost use Rattle.std.specs.Prelude.{◌≡◌};
ghost use Rattle.std.specs.Option.{option_map};
ghost use Rattle.ts_packets.specs.Packet.{record_of};
ghost use Rattle.ts_demux.specs.Private.PayloadWalk.{payload_packet, repeats, Adds};

use crate::file_packets::packet_at;
use stream_constants::packets::PACKET_BYTES;
use ts_packets::{Packet, pid_of};

/// Goes over the packets of a file, and gives what those of one PID carry.
#[derive(Clone, Copy)]
pub struct PayloadWalk<'a> {
    pub file: &'a [u8],
    pub pid: u16,
    /// The number of the next packet.
    pub next: usize,
    /// The PID's last packet with payload.
    pub last: Option<Packet<'a>>,
}

/// What the next packet adds to what a PID carries.
pub enum Added<'a> {
    /// It has payload, which doesn't come again.
    Payload(&'a [u8]),
    /// It adds nothing.
    Nothing,
    /// There is no packet.
    End,
}

impl<'a> PayloadWalk<'a> {
    /// Takes the next packet.
    pub fn step(&mut self) -> Added<'a>
        ensures { Adds result self.old self.new }
    {
        let Some(bytes) = packet_at(self.file, self.next) else {
            return Added::End;
        };
        self.next += 1;
        let Some(packet) = payload_packet(bytes, self.pid) else {
            return Added::Nothing;
        };
        let is_repeat = is_repeat(&packet, self.last);
        self.last = Some(packet);
        if is_repeat {
            return Added::Nothing;
        }
        Added::Payload(packet.payload)
    }
}

/// The packet that the bytes are, where it is one of the PID with payload.
fn payload_packet(bytes: &[u8; PACKET_BYTES], pid: u16) -> Option<Packet>
    ensures { option_map record_of result ≡ payload_packet pid bytes.now }
{
    let Ok(found) = pid_of(bytes) else {
        return None;
    };
    if found != pid {
        return None;
    }
    let Ok(packet) = Packet::read(bytes) else {
        return None;
    };
    if packet.payload.is_empty() {
        return None;
    }
    Some(packet)
}

/// True where the packet repeats the last one with payload.
fn is_repeat(packet: &Packet, last: Option<Packet>) -> bool
    ensures { result ≡ repeats (option_map record_of last.entry) (record_of packet.now) }
{
    match last {
        Some(last) => packet.is_repeat_of(&last),
        None => false,
    }
}
