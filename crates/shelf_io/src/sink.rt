ghost use Rattle.std.specs.Prelude.{◌≡◌, ℕ, length, take, ◌<◌, ◌≤◌, IfOk, OnOk, OnErr, IsErrOf};
ghost use Rattle.shelf_io.specs.Causes.{SinkCauses};
ghost use Rattle.shelf_io.specs.Sink.{Told, with_bytes, AddsPrefix};

use crate::fault::Fault;

/// Takes bytes in order. A call that answers a fault adds nothing.
pub trait Sink {
    /// What was written so far, or its number of bytes, where it tells them.
    ghost written: { Self → Told };

    /// How many calls have failed.
    ghost faults: { Self → ℕ };

    /// How many calls came after the last one that answered a fault, where it keeps count of them.
    ghost since_fault: { Self → ℕ } = { λ _. 0 };

    /// A later state keeps what no call of `put` changes: what it borrows, and what isn't written to.
    ghost keeps: { Self → Self → Type 0 };

    /// Adds bytes from the front of a piece, and answers how many. It answers 0 only for an empty piece.
    fn put(&mut self, piece: &[u8]) -> Result<usize, Fault>
        ensures count { IfOk result (λ n. n ≤ length piece.now) }
        ensures progress { IfOk result (λ n. 0 < length piece.now → 0 < n) }
        ensures ok { IfOk result (λ n. written self.new ≡ with_bytes (written self.old) (take n piece.now)) }
        ensures err { OnErr result (written self.new ≡ written self.old) }

        ensures causes { SinkCauses faults (IsErrOf result Fault.Failed) (IsErrOf result Fault.Missing) self.old self.new }
        ensures only_failed { faults self.old < faults self.new → IsErrOf result Fault.Failed }
        ensures fault_last { OnErr result (since_fault self.new ≡ 0) }
        ensures keeps { keeps self.old self.new };

    ghost keeps_itself: { (sink : Self) → keeps sink sink };

    ghost keeps_on: { (first second third : Self) → keeps first second → keeps second third → keeps first third };
}

/// Adds a whole piece. After a fault a prefix of it was added.
pub fn put_all<K: Sink>(sink: &mut K, piece: &[u8]) -> Result<(), Fault>
    ensures ok { OnOk result (K.written sink.new ≡ with_bytes (K.written sink.old) piece.now) }
    ensures err { OnErr result (AddsPrefix (K.written sink.old) (K.written sink.new) piece.now) }

    ensures causes { SinkCauses K.faults (IsErrOf result Fault.Failed) (IsErrOf result Fault.Missing) sink.old sink.new }
    ensures only_failed { K.faults sink.old < K.faults sink.new → IsErrOf result Fault.Failed }
    ensures fault_last { OnErr result (K.since_fault sink.new ≡ 0) }
    ensures keeps { K.keeps sink.old sink.new }
{
    let mut done = 0;
    while done < piece.len() {
        done += sink.put(&piece[done..])?;
    }
    Ok(())
}
