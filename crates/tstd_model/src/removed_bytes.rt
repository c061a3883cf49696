ghost use Rattle.std.specs.Prelude.{◌≡◌, ◌^◌, ◌≤◌, ◌<◌, length};
ghost use Rattle.std.specs.List.{All};
ghost use Rattle.tstd_model.specs.Private.Cursors.{Gives};

use crate::decoder_input::Removal;
use crate::instants::Instants;
use std::marker::Model;
use stream_constants::clock::SUBTICKS_PER_TICK;

/// A byte that a removal takes: when, and which removal.
#[derive(Clone, Copy)]
pub struct RemovedByte {
    pub at: u64,
    pub removal: u32,
}

/// The bytes that removals take, one after the other.
#[derive(Drop)]
pub struct RemovedBytes<'a> {
    later: &'a [Removal],
    // how many removals came before the later ones
    number: u32,
    byte: RemovedByte,
    // how many bytes like this one are still to come
    count: u32,
}

impl<'a> Model for RemovedBytes<'a> {
    ghost use Rattle.std.specs.Prelude.{List, length, replicate, ◌++◌, ◌+◌, ◌^◌, ◌<◌, ◌≤◌};
    ghost use Rattle.std.specs.List.{All};
    ghost use Rattle.tstd_model.specs.declared.removed_bytes.RemovedByte.{RemovedByte};

    ghost Value = { List RemovedByte };

    ghost use Rattle.tstd_model.specs.Private.Scans.{taken_from};

    ghost view = { λ b. replicate b.count b.byte ++ taken_from b.number b.later.now };

    ghost invariant = { λ b. (b.number + length b.later.now < 2 ^ 32) × All (λ removal. removal.due ≤ 2 ^ 53) b.later.now };
}

impl<'a> RemovedBytes<'a> {
    ghost use Rattle.tstd_model.specs.Private.Scans.{taken_from};

    /// The bytes that these removals take.
    pub fn new(removals: &'a [Removal]) -> Self
        requires few { length removals.now < 2 ^ 32 }
        requires in_time { All (λ removal. removal.due ≤ 2 ^ 53) removals.now }
        ensures { result ≡ taken_from 0 removals.now }
    {
        RemovedBytes {
            later: removals,
            number: 0,
            byte: RemovedByte { at: 0, removal: 0 },
            count: 0,
        }
    }

    /// The next byte.
    pub fn next_byte(&mut self) -> Option<RemovedByte>
        ensures { Gives result self.old self.new }
    {
        'removals: loop {
            if self.count > 0 {
                self.count -= 1;
                return Some(self.byte);
            }
            let Some((removal, later)) = self.later.split_first() else {
                return None;
            };
            self.later = later;
            self.byte = RemovedByte {
                at: SUBTICKS_PER_TICK * removal.due,
                removal: self.number,
            };
            self.count = removal.bytes;
            self.number += 1;
        }
    }
}

impl<'a> Instants for RemovedBytes<'a> {
    ghost use Rattle.std.specs.Prelude.{map};

    ghost left = { λ bytes. map (λ byte. byte.at) bytes };

    fn next(&mut self) -> Option<u64> {
        self.next_byte().map(|byte| byte.at)
    }
}
