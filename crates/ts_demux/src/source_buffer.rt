ghost use Rattle.std.specs.Prelude.{◌≡◌, ◌+◌, ◌-◌, ◌<◌, ◌≤◌, [], Ok, length, take, drop, IfOk, OnOk, IsErrOf};
ghost use Rattle.shelf_io.specs.Causes.{SourceCauses};
ghost use Rattle.ts_demux.specs.PacketBuffer.{Passes, IsAtEnd};
ghost use Rattle.ts_demux.specs.SourceBuffer.{held_bytes, room_size};

use shelf_io::{Fault, Source};
use std::marker::Model;

/// The bytes of a source one behind the other, out of a room: `fill`, look at the `rest`, `pass` over some. The source is lent to each call.
/// Contracts see the size of the room, and the bytes that were taken from the source and aren't passed yet.
#[derive(Drop)]
pub struct SourceBuffer {
    room: Vec<u8>,
    /// How many bytes are taken from a source at once, at most.
    step: usize,
    /// The bytes that aren't passed yet stand in the room from here on.
    from: usize,
    /// They stand up to here.
    to: usize,
}

impl Model for SourceBuffer {
    ghost use Rattle.std.specs.Prelude.{ℕ, List, length, take, drop, ◌-◌, ◌<◌, ◌≤◌};

    ghost Value = { ℕ × List ℕ };

    ghost view = { λ a. (length a.room.items, take (a.to - a.from) (drop a.from a.room.items)) };

    ghost invariant = { λ a. (a.from ≤ a.to) × (a.to ≤ length a.room.items) × (0 < a.step) };
}

impl SourceBuffer {
    /// A buffer that holds nothing, over a room, and takes so many bytes at once at most. What the room holds is lost.
    pub fn new(room: Vec<u8>, step: usize) -> Self
        requires { 0 < step }
        ensures { result ≡ (length room.items, []) }
    {
        SourceBuffer {
            room,
            step,
            from: 0,
            to: 0,
        }
    }

    /// Forgets the bytes that it holds, so that another source can be read.
    pub fn clear(&mut self)
        ensures { self.new ≡ (room_size self.old, []) }
    {
        self.from = 0;
        self.to = 0;
    }

    /// The bytes that were taken from the source and aren't passed yet.
    pub fn rest(&self) -> &[u8]
        ensures { result.now ≡ held_bytes self.now }
    {
        &self.room[self.from..self.to]
    }

    /// Passes over so many bytes.
    pub fn pass(&mut self, count: usize)
        requires { count ≤ length (held_bytes self.old) }
        ensures { self.new ≡ (room_size self.old, drop count (held_bytes self.old)) }
    {
        self.from += count;
    }

    /// Takes from the source until so many bytes are held, or the source ends. A fault is the source's; nothing that was taken is lost, and a
    /// later call goes on behind it.
    pub fn fill<S: Source>(&mut self, source: &mut S, least: usize) -> Result<(), Fault>
        requires { least ≤ room_size self.old }
        ensures room { room_size self.new ≡ room_size self.old }
        ensures passes { Passes (S.left source.old) (S.left source.new) (S.most source.old) (S.most source.new) (held_bytes self.old) [] (held_bytes self.new) }
        ensures full { OnOk result (length (held_bytes self.new) < least → IsAtEnd (S.left source.new)) }
        ensures causes { SourceCauses S.faults S.absences (IsErrOf result Fault.Failed) (IsErrOf result Fault.Missing) source.old source.new }
        ensures keeps { S.keeps source.old source.new }
    {
        while self.rest().len() < least {
            let count = self.take_some(source)?;
            if count == 0 {
                return Ok(());
            }
        }
        Ok(())
    }

    /// Takes from the source once, and answers how many bytes: none only at its end.
    pub fn take_some<S: Source>(&mut self, source: &mut S) -> Result<usize, Fault>
        requires { length (held_bytes self.old) < room_size self.old }
        ensures room { room_size self.new ≡ room_size self.old }
        ensures count { IfOk result (λ n. length (held_bytes self.new) ≡ length (held_bytes self.old) + n) }
        ensures end { result ≡ Ok 0 → IsAtEnd (S.left source.new) }
        ensures passes { Passes (S.left source.old) (S.left source.new) (S.most source.old) (S.most source.new) (held_bytes self.old) [] (held_bytes self.new) }
        ensures causes { SourceCauses S.faults S.absences (IsErrOf result Fault.Failed) (IsErrOf result Fault.Missing) source.old source.new }
        ensures keeps { S.keeps source.old source.new }
    {
        let held = self.to - self.from;
        self.from = make_room(self.room.as_mut_slice(), self.from, self.to, self.step);
        self.to = self.from + held;
        let free = (self.room.len() - self.to).min(self.step);
        let count = source.take(&mut self.room[self.to..self.to + free])?;
        self.to += count;
        Ok(count)
    }
}

/// Moves the bytes that a room holds from a place up to another to its front, where fewer than a step's are left behind them. Answers where they
/// stand then.
fn make_room(room: &mut [u8], from: usize, to: usize, step: usize) -> usize
    requires order { from ≤ to }
    requires within { to ≤ length room.old }
    ensures held { take (to - from) (drop result room.new) ≡ take (to - from) (drop from room.old) }
    ensures size { length room.new ≡ length room.old }
    ensures within { result ≤ from }
    ensures behind { 0 < step → to - from < length room.old → result + (to - from) < length room.old }
{
    if step <= room.len() - to {
        return from;
    }
    room.copy_within(from..to, 0);
    0
}
