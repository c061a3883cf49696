ghost use Rattle.std.specs.Prelude.{◌≡◌, ◌^◌, map, replicate, ◌++◌};
ghost use Rattle.stream_constants.specs.declared.decoder.TheConstants.{MB_SUBTICKS};
ghost use Rattle.tstd_model.specs.Instants.{departures_into};
ghost use Rattle.tstd_model.specs.Private.Cursors.{Gives};
ghost use Rattle.tstd_model.specs.Private.Server.{EachAtMost};

use crate::instants::Instants;
use crate::passing::Passing;
use crate::removed_bytes::RemovedBytes;
use std::marker::Model;
use stream_constants::decoder::MB_SUBTICKS;

/// The instants from which on a buffer has room for each byte.
#[derive(Drop)]
pub struct Rooms<'a> {
    // how many bytes still find room at once
    free: u64,
    removed: RemovedBytes<'a>,
}

impl<'a> Model for Rooms<'a> {
    ghost use Rattle.std.specs.Prelude.{List, ℕ, map, replicate, ◌++◌};

    ghost Value = { List ℕ };

    ghost view = { λ r. replicate r.free 0 ++ map (λ byte. byte.at) r.removed };
}

impl<'a> Rooms<'a> {
    /// Room for so many bytes at once, and for each later one when a byte is removed.
    pub fn new(free: u64, removed: RemovedBytes<'a>) -> Self
        ensures { result ≡ replicate free 0 ++ map (λ byte. byte.at) removed.entry }
    {
        Rooms { free, removed }
    }
}

impl<'a> Instants for Rooms<'a> {
    ghost left = { λ instants. instants };

    fn next(&mut self) -> Option<u64> {
        if self.free > 0 {
            self.free -= 1;
            return Some(0);
        }
        self.removed.next()
    }
}

/// The instants at which data moves from the multiplexing buffer to the elementary buffer.
#[derive(Drop)]
pub struct Moves<'a> {
    comes: Passing<'a>,
    rooms: Rooms<'a>,
    // when the byte before moved
    before: u64,
}

impl<'a> Model for Moves<'a> {
    ghost use Rattle.std.specs.Prelude.{List, ℕ, ◌^◌};
    ghost use Rattle.stream_constants.specs.declared.decoder.TheConstants.{MB_SUBTICKS};
    ghost use Rattle.tstd_model.specs.Instants.{departures_into};
    ghost use Rattle.tstd_model.specs.Private.Server.{EachAtMost};

    ghost Value = { List ℕ };

    ghost view = { λ m. departures_into m.rooms MB_SUBTICKS m.before m.comes };

    ghost invariant = { λ m. EachAtMost (2 ^ 63) (departures_into m.rooms MB_SUBTICKS m.before m.comes) };
}

impl<'a> Moves<'a> {
    /// The moves of data that comes into the multiplexing buffer, where the elementary buffer has room.
    pub fn new(comes: Passing<'a>, rooms: Rooms<'a>) -> Self
        requires { EachAtMost (2 ^ 63) (departures_into rooms MB_SUBTICKS 0 comes) }
        ensures { result ≡ departures_into rooms.entry MB_SUBTICKS 0 comes.entry }
    {
        Moves {
            comes,
            rooms,
            before: 0,
        }
    }
}

impl<'a> Instants for Moves<'a> {
    ghost left = { λ instants. instants };

    #[tactic(auto, unfolding(crate::specs::Instants::departures_into), using(crate::proofs::CursorSteps::moves_end))]
    fn next(&mut self) -> Option<u64> {
        let Some(comes) = self.comes.next() else {
            return None;
        };
        let Some(room) = self.rooms.next() else {
            return None;
        };
        let at = (comes.max(self.before) + MB_SUBTICKS).max(room);
        self.before = at;
        Some(at)
    }
}
