ghost use Rattle.std.specs.Prelude.{◌≤◌, length};

use crate::progress::Row;
use shelf_io::{Fault, Sink};
use std::alloc::Global;

/// A sink that hands all on to another one, and keeps what that took. The row in which progress is told is cleared first.
#[derive(Drop)]
pub(crate) struct HeardSink<'a, R, O> {
    row: Row<'a, R>,
    out: O,
    line: Vec<u8>,
}

impl<'a, R: Eprint, O: Sink> HeardSink<'a, R, O> {
    /// Before anything was written.
    pub(crate) fn new(alloc: Global, row: Row<'a, R>, out: O) -> HeardSink<'a, R, O> {
        HeardSink {
            row,
            out,
            line: Vec::new(alloc),
        }
    }

    /// What was written; with a gap where memory was wanting, so that it is no line.
    pub(crate) fn line(&self) -> &[u8] {
        self.line.as_slice()
    }
}

impl<'a, R: Eprint, O: Sink> Sink for HeardSink<'a, R, O> {
    ghost written = { λ sink. O.written sink.out };

    ghost faults = { λ sink. O.faults sink.out };

    ghost since_fault = { λ sink. O.since_fault sink.out };

    ghost keeps = { λ old new. O.keeps old.out new.out };

    ghost keeps_itself = { λ sink. O.keeps_itself sink.out };

    ghost keeps_on = { λ first second third. O.keeps_on first.out second.out third.out };

    fn put(&mut self, piece: &[u8]) -> Result<usize, Fault> {
        self.row.clear();
        match self.out.put(piece) {
            Ok(taken) => {
                hear(&mut self.line, piece, taken);
                Ok(taken)
            }
            Err(fault) => Err(fault),
        }
    }
}

/// Keeps the first bytes of a piece, where memory is found for them.
fn hear(line: &mut Vec<u8>, piece: &[u8], taken: usize)
    requires { taken ≤ length piece.now }
{
    let _ = line.extend_from_slice(&piece[..taken]);
}
