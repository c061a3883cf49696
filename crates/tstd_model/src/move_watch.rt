ghost use Rattle.std.specs.Prelude.{◌≡◌, ◌++◌, IfSome, replicate};
ghost use Rattle.tstd_model.specs.Private.Keeps.{Passes};
ghost use Rattle.tstd_model.specs.Private.Watches.{MovesBy};

use crate::removal_runs::RemovalRuns;
use crate::runs::Passed;
use crate::taken::Taken;
use stream_constants::decoder::MB_SUBTICKS;

/// When data moves from the multiplexing buffer to the elementary buffer, packet by packet.
#[derive(Drop)]
pub struct MoveWatch<'a> {
    // rooms of the elementary buffer: the first ones, and those that removals make
    rooms: Taken<'a>,
    // when the packets before have moved
    before: u64,
}

impl<'a> MoveWatch<'a> {
    /// Nothing has moved, and there is room for so many bytes at once, and for each later one when a byte is removed.
    pub fn new(free: u64, removals: RemovalRuns<'a>) -> Self
        ensures rooms { result.rooms ≡ replicate free 0 ++ removals.entry }
        ensures before { result.before ≡ 0 }
    {
        MoveWatch {
            rooms: Taken::new(free, removals),
            before: 0,
        }
    }

    /// By when so many bytes have moved that have all come by then; none where that isn't told.
    pub fn take(&mut self, come: u64, count: u64) -> Option<u64>
        ensures { IfSome result (λ at. MovesBy self.old come count at self.new) }
    {
        let room = self.rooms.take(count);
        if room.count < count {
            return None;
        }
        let Some(served) = count.checked_mul(MB_SUBTICKS) else {
            return None;
        };
        let Some(at) = self.before.max(come.max(room.last)).checked_add(served) else {
            return None;
        };
        self.before = at;
        Some(at)
    }

    /// Takes room for so many bytes, for which there is room in turn.
    pub fn make_room(&mut self, count: u64) -> Passed
        ensures { Passes count result self.old.rooms self.new.rooms }
    {
        self.rooms.take(count)
    }
}
