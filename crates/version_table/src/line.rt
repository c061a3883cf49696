ghost use Rattle.std.specs.Prelude.{◌≡◌};
ghost use Rattle.version_table.specs.Private.Draft.{stage_after, is_whole};

use crate::limits::VERSIONS_MOST;
use arrayvec::ArrayVec;

/// The numbers of a version as a text states them.
#[derive(Clone, Copy, Default)]
pub struct StatedVersion {
    /// Bytes.
    pub bytes: u64,
    /// Distortion.
    pub distortion: u64,
}

/// A line of a table text, with its numbers as the text states them.
#[derive(Drop)]
pub enum Line {
    /// The first line.
    Title,
    /// Ticks of a packet slot.
    Slot(u64),
    /// Nodes of a search.
    Nodes(u64),
    /// Evaluations of a search.
    Evaluations(u64),
    /// Begins a program, with the size of its elementary buffer.
    Program(u64),
    /// A coded picture.
    Unit {
        due: u64,
        versions: ArrayVec<StatedVersion, VERSIONS_MOST>,
    },
    /// Begins an audio stream.
    Audio,
    /// The payload of one transport packet of an audio stream.
    Packet {
        due: u64,
        gone: u64,
        bytes: u64,
    },
}

impl Line {
    /// Which lines may come behind this one.
    pub(crate) fn next_stage(&self) -> Stage
        ensures { result ≡ stage_after self.now }
    {
        match self {
            Line::Title => Stage::Slot,
            Line::Slot(_) => Stage::Nodes,
            Line::Nodes(_) => Stage::Evaluations,
            Line::Evaluations(_) => Stage::Programs,
            Line::Program(_) | Line::Unit { .. } => Stage::Units,
            Line::Audio | Line::Packet { .. } => Stage::Packets,
        }
    }
}

/// Which lines may come next.
#[derive(Clone, Copy, PartialEq)]
pub enum Stage {
    /// The first line.
    Title,
    /// The second line.
    Slot,
    /// The third line.
    Nodes,
    /// The fourth line.
    Evaluations,
    /// A program.
    Programs,
    /// A unit, an audio stream or a program.
    Units,
    /// An audio packet, an audio stream or a program.
    Packets,
}

impl Stage {
    /// Whether the text of a table may end here.
    pub fn is_whole(self) -> bool
        ensures { result ≡ is_whole self }
    {
        match self {
            Stage::Title | Stage::Slot | Stage::Nodes | Stage::Evaluations => false,
            Stage::Programs | Stage::Units | Stage::Packets => true,
        }
    }
}
