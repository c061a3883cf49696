ghost use Rattle.std.specs.Prelude.{◌≡◌, ℕ, Option, IfOk, IfSome, IsErrOf};
ghost use Rattle.shelf_io.specs.Causes.{SinkCauses};
ghost use Rattle.mux_writer.specs.Pieces.{Pieces, HasPayloadSize, IsFilledWith};

use shelf_io::Fault;
use stream_constants::packets::PAYLOAD_BYTES;

/// What a call of `piece` put into its buffer.
#[derive(Clone, Copy, Debug, PartialEq, Eq)]
pub struct Filled {
    /// How many bytes, at the buffer's front, 1 to 184.
    pub bytes: u8,
    /// Whether a PES packet begins with them.
    pub start: bool,
}

/// Gives the payloads of the packets of streams, in any order and again. A piece has the number of its stream over all
/// programs, the number of its item within the stream, which is a coded picture or an audio packet, and its own number
/// within the item, each from 0; an audio packet is its own only piece. A source may make pieces as they are asked for: what
/// they are stays the same.
pub trait PieceSource {
    /// What the pieces are, where it tells them.
    ghost told: { Self → Option Pieces };

    /// Whether it has a piece.
    ghost has: { Self → (stream item piece : ℕ) → Type 0 };

    /// How many calls have failed.
    ghost faults: { Self → ℕ };

    /// A later state keeps what no call of `piece` changes: what it borrows, and what that holds.
    ghost keeps: { Self → Self → Type 0 };

    /// Puts a piece that it has into the front of `into`, and answers how long it is and whether a PES packet begins with it.
    /// What stands behind it in `into`, or after a fault in all of it, may be anything. Missing never comes.
    fn piece(
        &mut self,
        stream: u32,
        item: u32,
        piece: u32,
        into: &mut [u8; PAYLOAD_BYTES],
    ) -> Result<Filled, Fault>
        requires piece { has self.old stream item piece }
        ensures size { IfOk result (λ filled. HasPayloadSize filled.bytes) }
        ensures told { IfOk result (λ filled. IfSome (told self.old) (λ pieces. IsFilledWith (pieces stream item piece) filled into.new)) }

        ensures same { told self.new ≡ told self.old }
        ensures still { (stream item piece : ℕ) → has self.old stream item piece → has self.new stream item piece }

        ensures causes { SinkCauses faults (IsErrOf result Fault.Failed) (IsErrOf result Fault.Missing) self.old self.new }
        ensures keeps { keeps self.old self.new };

    ghost keeps_itself: { (source : Self) → keeps source source };

    ghost keeps_on: { (first second third : Self) → keeps first second → keeps second third → keeps first third };
}
