ghost use Rattle.std.specs.Prelude.{◌≡◌, ◌^◌};
ghost use Rattle.tstd_model.specs.Private.Cursors.{Gives, passed, instants_of};
ghost use Rattle.tstd_model.specs.Private.Server.{EachAtMost};

use crate::instants::Instants;
use crate::packet_bytes::{PacketByte, PacketBytes};
use std::marker::Model;

/// The bytes of packets with the instants at which they leave a transport buffer, one after the other.
#[derive(Drop)]
pub struct TbBytes<'a> {
    bytes: PacketBytes<'a>,
    subticks: u64,
    // when the byte before left
    before: u64,
}

impl<'a> Model for TbBytes<'a> {
    ghost use Rattle.std.specs.Prelude.{List, ◌^◌};
    ghost use Rattle.tstd_model.specs.declared.packet_bytes.PacketByte.{PacketByte};
    ghost use Rattle.tstd_model.specs.Private.Cursors.{passed, instants_of};
    ghost use Rattle.tstd_model.specs.Private.Server.{EachAtMost};

    ghost Value = { List PacketByte };

    ghost view = { λ b. passed b.subticks b.before b.bytes };

    ghost invariant = { λ b. EachAtMost (2 ^ 62) (instants_of (passed b.subticks b.before b.bytes)) };
}

impl<'a> TbBytes<'a> {
    /// The bytes that leave a buffer which each takes so many subticks to leave.
    pub fn new(bytes: PacketBytes<'a>, subticks: u64) -> Self
        requires { EachAtMost (2 ^ 62) (instants_of (passed subticks 0 bytes)) }
        ensures { result ≡ passed subticks 0 bytes.entry }
    {
        TbBytes {
            bytes,
            subticks,
            before: 0,
        }
    }

    /// The next byte, with the instant at which it leaves.
    #[tactic(auto, unfolding(crate::specs::Private::Cursors::passed))]
    pub fn next_byte(&mut self) -> Option<PacketByte>
        ensures { Gives result self.old self.new }
    {
        let Some(byte) = self.bytes.next_byte() else {
            return None;
        };
        let at = byte.at.max(self.before) + self.subticks;
        self.before = at;
        Some(PacketByte {
            part: byte.part,
            at,
        })
    }
}

impl<'a> Instants for TbBytes<'a> {
    ghost left = { λ bytes. instants_of bytes };

    fn next(&mut self) -> Option<u64> {
        self.next_byte().map(|byte| byte.at)
    }
}

impl<'a> Instants for PacketBytes<'a> {
    ghost left = { λ bytes. instants_of bytes };

    fn next(&mut self) -> Option<u64> {
        self.next_byte().map(|byte| byte.at)
    }
}
