ghost use Rattle.std.specs.Prelude.{◌≡◌, ◌^◌, map, ◌++◌};
ghost use Rattle.std.specs.Option.{option_to_list};
ghost use Rattle.stream_constants.specs.declared.decoder.TheConstants.{SYSTEM_SUBTICKS};
ghost use Rattle.tstd_model.specs.Instants.{departures};
ghost use Rattle.tstd_model.specs.PacketBytes.{with_headers};
ghost use Rattle.tstd_model.specs.Private.Cursors.{Gives, IsFirstOf};
ghost use Rattle.tstd_model.specs.Private.Server.{EachAtMost};

use crate::decoder_input::PacketPart;
use crate::instants::Instants;
use crate::moves::Moves;
use crate::packet_bytes::PacketBytes;
use crate::passing::Passing;
use std::marker::Model;
use stream_constants::decoder::SYSTEM_SUBTICKS;

/// Moves of which the first can be looked at before it is taken.
#[derive(Drop)]
pub struct MovesAhead<'a> {
    // the first of them, where it was looked at
    first: Option<u64>,
    later: Moves<'a>,
}

impl<'a> Model for MovesAhead<'a> {
    ghost use Rattle.std.specs.Prelude.{List, ℕ, ◌++◌};
    ghost use Rattle.std.specs.Option.{option_to_list};

    ghost Value = { List ℕ };

    ghost view = { λ m. option_to_list m.first ++ m.later };
}

impl<'a> MovesAhead<'a> {
    /// The same moves.
    fn new(moves: Moves<'a>) -> Self
        ensures { result ≡ moves.entry }
    {
        MovesAhead {
            first: None,
            later: moves,
        }
    }

    /// The first move, which stays.
    fn peek(&mut self) -> Option<u64>
        ensures first { IsFirstOf result self.old }
        ensures same { self.new ≡ self.old }
    {
        if self.first.is_none() {
            self.first = self.later.next();
        }
        self.first
    }

    /// The first move, which is taken.
    fn next(&mut self) -> Option<u64>
        ensures { Gives result self.old self.new }
    {
        if let Some(first) = self.first {
            self.first = None;
            return Some(first);
        }
        self.later.next()
    }
}

/// The instants at which payload leaves the multiplexing buffer: data when it moves, PES headers with the data behind.
#[derive(Drop)]
pub struct MbLeaves<'a> {
    bytes: PacketBytes<'a>,
    moves: MovesAhead<'a>,
}

impl<'a> Model for MbLeaves<'a> {
    ghost use Rattle.std.specs.Prelude.{List, ℕ, map};
    ghost use Rattle.tstd_model.specs.PacketBytes.{with_headers};

    ghost Value = { List ℕ };

    ghost view = { λ m. with_headers (map (λ byte. byte.part) m.bytes) m.moves };
}

impl<'a> MbLeaves<'a> {
    /// The leaving instants of the payload of these packets, whose data moves so.
    pub fn new(bytes: PacketBytes<'a>, moves: Moves<'a>) -> Self
        ensures { result ≡ with_headers (map (λ byte. byte.part) bytes.entry) moves.entry }
    {
        MbLeaves {
            bytes,
            moves: MovesAhead::new(moves),
        }
    }
}

impl<'a> Instants for MbLeaves<'a> {
    ghost left = { λ instants. instants };

    #[tactic(auto, unfolding(crate::specs::PacketBytes::with_headers), using(crate::proofs::CursorSteps::headers_end))]
    fn next(&mut self) -> Option<u64> {
        'bytes: loop {
            let Some(byte) = self.bytes.next_byte() else {
                return None;
            };
            match byte.part {
                PacketPart::Overhead => {}
                PacketPart::PesHeader => return self.moves.peek(),
                PacketPart::Data => return self.moves.next(),
            }
        }
    }
}

/// The instants at which sections leak from the system main buffer.
#[derive(Drop)]
pub struct SystemLeaves<'a> {
    comes: Passing<'a>,
    // when the byte before left
    before: u64,
}

impl<'a> Model for SystemLeaves<'a> {
    ghost use Rattle.std.specs.Prelude.{List, ℕ, ◌^◌};
    ghost use Rattle.stream_constants.specs.declared.decoder.TheConstants.{SYSTEM_SUBTICKS};
    ghost use Rattle.tstd_model.specs.Instants.{departures};
    ghost use Rattle.tstd_model.specs.Private.Server.{EachAtMost};

    ghost Value = { List ℕ };

    ghost view = { λ s. departures SYSTEM_SUBTICKS s.before s.comes };

    ghost invariant = { λ s. EachAtMost (2 ^ 63) (departures SYSTEM_SUBTICKS s.before s.comes) };
}

impl<'a> SystemLeaves<'a> {
    /// The leaving instants of what comes into the system main buffer.
    pub fn new(comes: Passing<'a>) -> Self
        requires { EachAtMost (2 ^ 63) (departures SYSTEM_SUBTICKS 0 comes) }
        ensures { result ≡ departures SYSTEM_SUBTICKS 0 comes.entry }
    {
        SystemLeaves { comes, before: 0 }
    }
}

impl<'a> Instants for SystemLeaves<'a> {
    ghost left = { λ instants. instants };

    #[tactic(auto, unfolding(crate::specs::Instants::departures))]
    fn next(&mut self) -> Option<u64> {
        let Some(comes) = self.comes.next() else {
            return None;
        };
        let at = comes.max(self.before) + SYSTEM_SUBTICKS;
        self.before = at;
        Some(at)
    }
}
