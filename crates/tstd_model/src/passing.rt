ghost use Rattle.std.specs.Prelude.{◌≡◌, ◌≤◌, ◌↔◌, IsTrue};
ghost use Rattle.tstd_model.specs.Private.Cursors.{Gives, is_wanted};
ghost use Rattle.tstd_model.specs.Private.Keeps.{wanted_count};

use crate::decoder_input::{Arrival, PacketPart};
use crate::instants::Instants;
use crate::tb_bytes::TbBytes;
use std::marker::Model;

/// Which bytes of packets are looked at.
#[derive(Clone, Copy)]
pub enum Wanted {
    /// All payload, PES headers too.
    Payload,
    /// Payload without PES headers.
    DataAlone,
}

impl Wanted {
    /// Whether bytes of this part are looked at.
    pub fn takes(self, part: PacketPart) -> bool
        ensures { result ≡ is_wanted self part }
    {
        match self {
            Wanted::Payload => !matches!(part, PacketPart::Overhead),
            Wanted::DataAlone => matches!(part, PacketPart::Data),
        }
    }

    /// How many bytes of a packet are looked at.
    pub fn count(self, packet: &Arrival) -> u64
        ensures value { result ≡ wanted_count self packet.now }
        ensures few { result ≤ 255 }
    {
        match self {
            Wanted::Payload => u64::from(packet.payload),
            Wanted::DataAlone => u64::from(packet.payload.saturating_sub(packet.header)),
        }
    }
}

/// The instants at which payload leaves a transport buffer.
#[derive(Drop)]
pub struct Passing<'a> {
    bytes: TbBytes<'a>,
    wanted: Wanted,
}

impl<'a> Model for Passing<'a> {
    ghost use Rattle.std.specs.Prelude.{List, ℕ};
    ghost use Rattle.tstd_model.specs.Private.Cursors.{wanted_instants};

    ghost Value = { List ℕ };

    ghost view = { λ p. wanted_instants p.wanted p.bytes };
}

impl<'a> Passing<'a> {
    ghost use Rattle.tstd_model.specs.Private.Cursors.{wanted_instants};

    /// The instants of the wanted bytes.
    pub fn new(bytes: TbBytes<'a>, wanted: Wanted) -> Self
        ensures { result ≡ wanted_instants wanted bytes.entry }
    {
        Passing { bytes, wanted }
    }
}

impl<'a> Instants for Passing<'a> {
    ghost left = { λ instants. instants };

    fn next(&mut self) -> Option<u64> {
        'bytes: loop {
            let Some(byte) = self.bytes.next_byte() else {
                return None;
            };
            if self.wanted.takes(byte.part) {
                return Some(byte.at);
            }
        }
    }
}
