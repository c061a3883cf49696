ghost use Rattle.std.specs.Prelude.{◌≡◌, ◌≢◌, ◌≤◌, ◌<◌, length, IfOk};
ghost use Rattle.shelf_kinds.specs.Counted.{faults_after_put};

use crate::file_shelf::write_some;
use shelf_io::{Fault, Sink};
use std::io;
use std::marker::Model;

/// Standard output. It tells nothing of what was written.
#[derive(Drop)]
pub struct OutSink<'a, R> {
    rt: &'a R,
    faults: u64,
}

impl<'a, R> Model for OutSink<'a, R> {
    ghost use Rattle.std.specs.Prelude.{ℕ};

    ghost Value = { ℕ };

    ghost view = { λ a. a.faults };
}

impl<'a, R: Print> OutSink<'a, R> {
    /// Standard output of the process, with a count of 0 faults.
    pub fn new(rt: &'a R) -> Self
        ensures { result ≡ 0 }
    {
        OutSink { rt, faults: 0 }
    }
}

impl<'a, R: Print> Sink for OutSink<'a, R> {
    ghost use Rattle.shelf_io.specs.Sink.{Nothing};
    ghost use Rattle.std.proofs.Common.{rules};

    ghost written = { λ _. Nothing };

    ghost faults = { λ faults. faults };

    ghost keeps = { λ _ _. Unit {0} };

    ghost keeps_itself = { Prim.search rules };

    ghost keeps_on = { Prim.search rules };

    fn put(&mut self, piece: &[u8]) -> Result<usize, Fault>
        ensures count { IfOk result (λ n. n ≤ length piece.now) }
        ensures progress { IfOk result (λ n. 0 < length piece.now → 0 < n) }
        ensures never_missing { result ≢ Err Fault.Missing }
        ensures memory { result ≢ Err Fault.OutOfMemory }
        ensures after { self.new ≡ faults_after_put self.old result }
    {
        if piece.is_empty() {
            return Ok(0);
        }
        match write_some(&mut io::writer(self.rt), piece) {
            Ok(count) => Ok(count),
            Err(_) => {
                self.faults = self.faults.saturating_add(1);
                Err(Fault::Failed)
            }
        }
    }
}
