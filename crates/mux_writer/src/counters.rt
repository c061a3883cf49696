ghost use Rattle.std.specs.Prelude.{◌≡◌, ◌+◌, ◌%◌, ◌<◌, length, replicate, slice_index};
ghost use Rattle.mux_writer.specs.Private.Writer.{one_more};

use std::marker::Model;

/// The PIDs of an output stream are below this: eight programs of sixteen PIDs behind 0x100.
pub const PIDS: usize = 0x180;

/// continuity_counter counts modulo this (ISO/IEC 13818-1, 2.4.3.3).
const COUNTERS: u8 = 16;

/// For each PID how many packets with payload it had, modulo 256. Contracts see the list.
#[derive(Drop)]
pub(crate) struct Counters {
    counts: [u8; PIDS],
}

impl Model for Counters {
    ghost use Rattle.std.specs.Prelude.{ℕ, List};

    ghost Value = { List ℕ };

    ghost view = { λ a. a.counts };
}

impl Counters {
    /// Counters of a stream that begins.
    pub(crate) fn new() -> Counters
        ensures { result ≡ replicate PIDS 0 }
    {
        Counters { counts: [0; PIDS] }
    }

    /// The counter of the next packet with payload of a PID, which is counted.
    pub(crate) fn take(&mut self, pid: u16) -> u8
        requires { pid < length self.old }
        ensures counter { result ≡ slice_index self.old pid % 16 }
        ensures counted { self.new ≡ one_more pid self.old }
    {
        let pid = usize::from(pid);
        let count = self.counts[pid];
        self.counts[pid] = count.wrapping_add(1);
        count % COUNTERS
    }

    /// The counter of the last packet with payload of a PID, 15 before the first.
    pub(crate) fn last(&self, pid: u16) -> u8
        requires { pid < length self.now }
        ensures { result ≡ (slice_index self.now pid + 15) % 16 }
    {
        self.counts[usize::from(pid)].wrapping_add(COUNTERS - 1) % COUNTERS
    }
}
