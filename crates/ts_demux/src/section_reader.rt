ghost use Rattle.std.specs.Prelude.{◌≡◌, ◌<◌, ℕ, List, [], length, IfSome};
ghost use Rattle.ts_packets.specs.TransportStream.{Piece};
ghost use Rattle.psi_tables.specs.Sections.{Found, sections_of};
ghost use Rattle.ts_demux.specs.SectionReader.{Waits};
ghost use Rattle.ts_demux.specs.Private.SectionReader.{TakesPiece, ReadsNext};

use psi_tables::{Section, SectionBuilder, SectionFault, laws};
use stream_constants::packets::PACKET_BYTES;
use ts_packets::{PidFault, PidReader};

/// Reads the sections in the packets of one PID (ISO/IEC 13818-1, 2.4.4).
#[derive(Drop)]
pub struct SectionReader {
    packets: PidReader,
    builder: SectionBuilder,
}

impl SectionReader {
    /// A reader of no packet.
    pub fn new() -> Self
        ensures { Waits [] [] result }
    {
        SectionReader {
            packets: PidReader::new(),
            builder: SectionBuilder::new(),
        }
    }

    /// Takes the next packet of the PID. It needs that no section waits.
    pub fn take(&mut self, bytes: &[u8; PACKET_BYTES]) -> Result<(), PidFault>
        requires { sections_of self.old.builder ≡ [] }
        ensures { (before : List Piece) (at : ℕ) → Waits before [] self.old →
            TakesPiece before (record { at = at; bytes = bytes.now }) result self.new }
    {
        laws::sections_in_turn();
        let taken = match self.packets.take(bytes) {
            Ok(taken) => taken,
            Err(fault) => return Err(fault),
        };
        let Some(packet) = taken else {
            return Ok(());
        };
        self.builder.feed(packet.start, packet.payload);
        Ok(())
    }

    /// The next section that waits, or why it is none.
    pub fn next(&mut self) -> Option<Result<Section, SectionFault>>
        ensures read { (before : List Piece) (waiting : List Found) → Waits before waiting self.old →
            ReadsNext before waiting result self.new }
        ensures fewer { IfSome result (λ _. length (sections_of self.new.builder) < length (sections_of self.old.builder)) }
    {
        laws::sections_in_turn();
        self.builder.pull()
    }
}
