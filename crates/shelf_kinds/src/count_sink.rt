ghost use Rattle.std.specs.Prelude.{◌≡◌, ◌+◌, ◌^◌, ◌≤◌, length, IfOk, OnOk, OnErr, IsErrOf};

use shelf_io::{Fault, Sink};
use std::marker::Model;

/// A sink that keeps the number of the bytes that were written, and none of them. It fails only where that number
/// would pass its type's end. Contracts see the number.
#[derive(Drop)]
pub struct CountSink {
    count: u64,
    faults: u64,
}

impl Model for CountSink {
    ghost use Rattle.shelf_kinds.specs.CountSink.{CountState, count_code};

    ghost Value = { CountState };

    ghost coded = { count_code };

    ghost view = { λ a. record { count = a.count; faults = a.faults } };
}

impl CountSink {
    /// A sink to which nothing was written.
    pub fn new() -> Self
        ensures { result ≡ record { count = 0; faults = 0 } }
    {
        CountSink {
            count: 0,
            faults: 0,
        }
    }

    /// How many bytes were written.
    pub fn count(&self) -> u64
        ensures { result ≡ self.now.count }
    {
        self.count
    }
}

impl Sink for CountSink {
    ghost use Rattle.std.proofs.Common.{rules};
    ghost use Rattle.shelf_kinds.specs.CountSink.{after_put};
    ghost use Rattle.shelf_io.specs.Sink.{Number};

    ghost written = { λ sink. Number sink.count };

    ghost faults = { λ sink. sink.faults };

    ghost keeps = { λ _ _. Unit {0} };

    ghost keeps_itself = { Prim.search rules };

    ghost keeps_on = { Prim.search rules };

    fn put(&mut self, piece: &[u8]) -> Result<usize, Fault>
        ensures whole { IfOk result (λ n. n ≡ length piece.now) }
        ensures failed { OnErr result (2 ^ 64 ≤ self.old.count + length piece.now) }
        ensures only { OnErr result (IsErrOf result Fault.Failed) }
        ensures after { self.new ≡ after_put self.old result piece.now }
    {
        match self.count.checked_add(piece.len() as u64) {
            Some(count) => {
                self.count = count;
                Ok(piece.len())
            }
            None => {
                self.faults = self.faults.saturating_add(1);
                Err(Fault::Failed)
            }
        }
    }
}
