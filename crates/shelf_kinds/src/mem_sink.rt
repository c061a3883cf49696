ghost use Rattle.std.specs.Prelude.{◌≡◌, ◌≢◌, ℕ, [], ◌↔◌, length, IsTrue, IfOk, IsErrOf};
ghost use Rattle.shelf_io.specs.Counts.{one_more};

use crate::numbered_calls::NumberedCalls;
use shelf_io::{Fault, Sink};
use std::alloc::Global;
use std::marker::Model;

/// A sink in memory that fails in chosen calls. The calls of `put` are numbered from 1.
#[derive(Drop)]
pub struct MemSink {
    written: Vec<u8>,
    faults: u64,
    calls: NumberedCalls,
    since_fault: u64,
}

impl Model for MemSink {
    ghost use Rattle.shelf_kinds.specs.MemSink.{SinkState, sink_code};

    ghost Value = { SinkState };

    ghost coded = { sink_code };

    ghost view = { λ a. record { written = a.written.items; faults = a.faults; calls = a.calls.count; since_fault = a.since_fault; failing = a.calls.failing.items } };
}

impl MemSink {
    /// An empty sink, which fails in the calls with these numbers.
    pub fn new(alloc: Global, fails: Vec<u64>) -> Self
        ensures { result ≡ record { written = []; faults = 0; calls = 0; since_fault = 0; failing = fails.items } }
    {
        MemSink {
            written: Vec::new(alloc),
            faults: 0,
            calls: NumberedCalls {
                count: 0,
                failing: fails,
            },
            since_fault: 0,
        }
    }

    /// What was written.
    pub fn bytes(&self) -> &[u8]
        ensures { result.now ≡ self.now.written }
    {
        self.written.as_slice()
    }
}

impl Sink for MemSink {
    ghost use Rattle.shelf_io.specs.Sink.{Bytes};
    ghost use Rattle.std.proofs.Common.{rules};
    ghost use Rattle.shelf_kinds.specs.MemSink.{FailsNext, after_put};

    ghost written = { λ sink. Bytes sink.written };

    ghost faults = { λ sink. sink.faults };

    ghost since_fault = { λ sink. sink.since_fault };

    ghost keeps = { λ old new. new.failing ≡ old.failing };

    ghost keeps_itself = { Prim.search rules };

    ghost keeps_on = { Prim.search rules };

    fn put(&mut self, piece: &[u8]) -> Result<usize, Fault>
        ensures failed { IsErrOf result Fault.Failed ↔ FailsNext self.old }
        ensures never_missing { result ≢ Err Fault.Missing }
        ensures whole { IfOk result (λ n. n ≡ length piece.now) }
        ensures after { self.new ≡ after_put self.old result piece.now }
    {
        let since_fault = self.since_fault.saturating_add(1);
        self.since_fault = 0;
        if self.calls.next_fails() {
            self.faults = self.faults.saturating_add(1);
            return Err(Fault::Failed);
        }
        self.written.extend_from_slice(piece)?;
        self.since_fault = since_fault;
        Ok(piece.len())
    }
}
