ghost use Rattle.std.specs.Prelude.{◌≡◌, [], ◌++◌, length, IfOk, OnOk, OnErr, IsOkUnless};

use crate::fault::Fault;
use crate::sink::Sink;
use std::alloc::Global;
use std::marker::Model;

/// A sink into a vector, to be emptied and used again or handed out: only want of memory stops a call. Contracts see what
/// was written.
#[derive(Drop)]
pub struct VecSink {
    bytes: Vec<u8>,
}

impl Model for VecSink {
    ghost use Rattle.std.specs.Prelude.{ℕ, List};

    ghost Value = { List ℕ };

    ghost view = { λ a. a.bytes.items };
}

impl VecSink {
    /// An empty sink.
    pub fn new(alloc: Global) -> Self
        ensures { result ≡ [] }
    {
        VecSink {
            bytes: Vec::new(alloc),
        }
    }

    /// What was written.
    pub fn bytes(&self) -> &[u8]
        ensures { result.now ≡ self.now }
    {
        self.bytes.as_slice()
    }

    /// Empties it, and keeps its memory for what comes next.
    pub fn clear(&mut self)
        ensures { self.new ≡ [] }
    {
        self.bytes.clear();
    }

    /// What was written, without taking memory.
    pub fn into_bytes(self) -> Vec<u8>
        ensures { result.items ≡ self }
    {
        let VecSink { bytes } = self;
        bytes
    }
}

impl Sink for VecSink {
    ghost use Rattle.shelf_io.specs.Sink.{Bytes};
    ghost use Rattle.std.proofs.Common.{rules};

    ghost written = { λ sink. Bytes sink };

    ghost faults = { λ _. 0 };

    ghost keeps = { λ _ _. Unit {0} };

    ghost keeps_itself = { Prim.search rules };

    ghost keeps_on = { Prim.search rules };

    fn put(&mut self, piece: &[u8]) -> Result<usize, Fault>
        ensures whole { IfOk result (λ n. n ≡ length piece.now) }
        ensures ok { OnOk result (self.new ≡ self.old ++ piece.now) }
        ensures err { OnErr result (self.new ≡ self.old) }
        ensures memory { IsOkUnless result Fault.OutOfMemory }
    {
        self.bytes.extend_from_slice(piece)?;
        Ok(piece.len())
    }
}
