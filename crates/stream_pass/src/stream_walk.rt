//! What takes the PES packets of a stream one after the other.
ghost use Rattle.std.specs.Prelude.{List, [], ◌∷◌, ◌++◌, IfErr, IfOk, MatchResult};
ghost use Rattle.std.specs.Option.{option_copied};
ghost use Rattle.ts_demux.specs.declared.demuxed.PesUnit.{PesUnit};
ghost use Rattle.pes_passing.specs.PassingPackets.{AreSplit};
ghost use Rattle.stream_pass.specs.StreamWalk.{AreFew, IsRefusal};

use ts_demux::PesUnit;

/// Why a walk answers nothing.
#[derive(Debug, PartialEq, Eq, Drop)]
pub enum WalkFault<F> {
    /// The stream is refused for this.
    Refused(F),
    /// Memory was wanted and not there.
    OutOfMemory,
}

/// A walk over the PES packets of a stream, each of which is given whole, and let go.
pub trait StreamWalk: Drop {
    /// What is read of a stream.
    type Read: Drop;

    /// What a stream is refused for.
    type Fault: Drop;

    /// A walk that began as the first one has read these PES packets.
    ghost has_read: { Self → List PesUnit → Self → Type 0 };

    /// What a walk that began so reads of a stream that has these PES packets.
    ghost reads: { Self → List PesUnit → Self.Read → Type 0 };

    /// What it refuses such a stream for.
    ghost refuses: { Self → List PesUnit → Self.Fault → Type 0 };

    /// The walk behind the next PES packet, which another one follows. An error is what the stream is refused for, whatever
    /// packets follow, or want of memory.
    fn take(self, packet: &PesUnit) -> Result<Self, WalkFault<Self::Fault>>
        requires { (start : Self) × (packets : List PesUnit) × has_read start packets self × AreFew (packets ++ packet.now ∷ []) }
        ensures read { (start : Self) (packets : List PesUnit) → has_read start packets self → AreFew (packets ++ packet.now ∷ []) →
            IfOk result (has_read start (packets ++ packet.now ∷ [])) }
        ensures refused { (start : Self) (packets : List PesUnit) → has_read start packets self →
            IfErr result (IsRefusal (λ fault. (next : PesUnit) (more : List PesUnit) → refuses start (packets ++ packet.now ∷ next ∷ more) fault)) };

    /// What is read of the stream behind its last PES packet, which the file's end may cut; a stream may have none at all. An error is what it is refused for,
    /// or want of memory.
    fn end(self, last: Option<&PesUnit>) -> Result<Self::Read, WalkFault<Self::Fault>>
        requires { (start : Self) × (packets : List PesUnit) × (all : List PesUnit) × has_read start packets self × AreSplit all packets (option_copied last) × AreFew all }
        ensures { (start : Self) (packets all : List PesUnit) → has_read start packets self → AreSplit all packets (option_copied last.entry) → AreFew all →
            MatchResult result (reads start all) (IsRefusal (refuses start all)) };
}
