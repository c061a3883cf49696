ghost use Rattle.std.specs.Prelude.{◌≡◌, ◌++◌, ◌∷◌, [], ℕ, IfNone, IfSome, IsTrue, List, replicate};
ghost use Rattle.tstd_model.specs.PacketBytes.{Arrival, HasHeaderWithin};
ghost use Rattle.tstd_model.specs.declared.passing.Wanted.TheVariants.{Payload};
ghost use Rattle.tstd_model.specs.Private.Keeps.{Keeps};
ghost use Rattle.tstd_model.specs.Private.Watches.{LeavesBy, comes_later, first_of};

use crate::decoder_input::Arrival;
use crate::passing::Wanted;
use crate::runs::{Passed, Run, Runs, pass};
use arrayvec::ArrayVec;
use std::marker::Model;

/// Runs that are kept apart at most; where there are more, they become one, which is as late as the latest of them.
const RUNS: usize = 64;

/// Runs of bytes, the last of which grows.
#[derive(Drop)]
pub struct KeptRuns {
    runs: ArrayVec<Run, RUNS>,
    last: Run,
}

impl Model for KeptRuns {
    ghost use Rattle.std.specs.Prelude.{List, ℕ, ◌++◌, replicate};
    ghost use Rattle.tstd_model.specs.Private.Runs.{run_bytes};

    ghost Value = { List ℕ };

    ghost view = { λ k. run_bytes k.runs.items ++ replicate k.last.count k.last.at };
}

impl KeptRuns {
    /// No run.
    fn new() -> Self
        ensures { result ≡ [] }
    {
        KeptRuns {
            runs: ArrayVec::new(),
            last: Run { count: 0, at: 0 },
        }
    }

    /// Puts a run behind the others; it becomes one with the last where both have no more bytes than that, or no place is left. Whether
    /// their bytes can be counted.
    fn push(&mut self, run: Run, together: u64) -> bool
        ensures { IsTrue result → (rest : List ℕ) → Keeps 0 0 (self.new ++ rest) (self.old ++ (replicate run.count run.at ++ rest)) }
    {
        let Some(count) = self.last.count.checked_add(run.count) else {
            return false;
        };
        if count > together && !self.runs.is_full() {
            self.runs.push(self.last);
            self.last = run;
        } else {
            self.last = Run {
                count,
                at: self.last.at.max(run.at),
            };
        }
        true
    }
}

impl Runs for KeptRuns {
    ghost left = { λ instants. instants };

    fn next_run(&mut self) -> Option<Run> {
        'runs: loop {
            if self.runs.is_empty() {
                let last = self.last;
                self.last = Run { count: 0, at: 0 };
                return last.some();
            }
            let next = self.runs.remove(0);
            if next.count > 0 {
                return Some(next);
            }
        }
    }
}

/// When payload leaves the multiplexing buffer, as late as it may be, of the bytes that have come; in front of them bytes that leave at
/// once, as many as find room at first.
#[derive(Drop)]
pub struct LeaveQueue {
    front: Run,
    later: KeptRuns,
    // bytes of runs that become one
    together: u64,
}

impl Model for LeaveQueue {
    ghost use Rattle.std.specs.Prelude.{List, ℕ, ◌++◌, replicate};

    ghost Value = { List ℕ };

    ghost view = { λ q. replicate q.front.count q.front.at ++ q.later };
}

impl LeaveQueue {
    /// A buffer of so many bytes, into which nothing has come.
    pub fn new(size: u64) -> Self
        ensures { result ≡ replicate size 0 }
    {
        LeaveQueue {
            front: Run { count: size, at: 0 },
            later: KeptRuns::new(),
            together: size / RUNS as u64,
        }
    }

    /// The payload of a packet comes, whose first byte comes at `first`: whether each byte surely has room.
    pub fn has_room(&mut self, packet: &Arrival, first: u64) -> bool
        requires { HasHeaderWithin packet.now }
        ensures { IsTrue result → (slot : ℕ) (later : List Arrival) (lows : List ℕ) → first ≡ first_of slot packet.now → Keeps 0 0 (comes_later Payload slot later) (self.new ++ lows) → Keeps 0 0 (comes_later Payload slot (packet.now ∷ later)) (self.old ++ lows) }
    {
        let count = Wanted::Payload.count(packet);
        let passed = pass(&mut self.front, &mut self.later, count);
        passed.are_by(count, first)
    }

    /// The payload of a packet leaves, its data by an instant: whether this is surely so.
    fn leave(&mut self, packet: &Arrival, at: u64) -> bool
        ensures { IsTrue result → LeavesBy self.old packet.now at self.new }
    {
        let data = Wanted::DataAlone.count(packet);
        if data > 0 {
            let run = Run {
                count: data + u64::from(packet.header),
                at,
            };
            return self.later.push(run, self.together);
        }
        if packet.header > 0 {
            return false;
        }
        true
    }

    /// The same where an instant is told; no where none is.
    pub fn leave_by(&mut self, packet: &Arrival, moved: Option<u64>) -> bool
        ensures none { IsTrue result → IfNone moved ⊥ }
        ensures some { IsTrue result → IfSome moved (λ at. LeavesBy self.old packet.now at self.new) }
    {
        match moved {
            Some(at) => self.leave(packet, at),
            None => false,
        }
    }
}
