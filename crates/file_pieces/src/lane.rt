//! What is sent of each stream.
ghost use Rattle.std.specs.Prelude.{◌≡◌, ◌<◌, length};
ghost use Rattle.file_pieces.specs.FilePieces.{lane_name};
ghost use Rattle.file_pieces.specs.Lane.{IsPlanOf, IsVideoLane, piece_at, row_at, unit_at};

use crate::stream_place::StreamPlace;
use crate::unit_again::UnitPlan;
use program_reader::{AudioPiece, UnitSource};
use version_table::Unit;

/// What is sent of a video: each of its units in the version that is chosen.
#[derive(Clone, Copy)]
pub struct VideoLane<'a> {
    pub stream: StreamPlace<'a>,
    pub units: &'a [UnitSource],
    /// Of each unit its versions, with the bytes of their PES packets.
    pub rows: &'a [Unit],
    /// How coarse the versions are, in sixteenths.
    pub coarser: &'a [u16],
    /// Of each unit the number of the version that is sent.
    pub choice: &'a [u8],
}

/// What is sent of an audio stream: its PES packets, unchanged.
#[derive(Clone, Copy)]
pub struct AudioLane<'a> {
    pub stream: StreamPlace<'a>,
    pub pieces: &'a [AudioPiece],
}

/// What is sent of a stream.
#[derive(Clone, Copy)]
pub enum Lane<'a> {
    Video(VideoLane<'a>),
    Audio(AudioLane<'a>),
}

impl<'a> VideoLane<'a> {
    /// The unit of this number.
    pub fn unit(&self, number: usize) -> UnitSource
        requires { number < length self.now.units.now }
        ensures { result ≡ unit_at self.now number }
    {
        self.units[number]
    }

    /// What is sent of the unit of this number.
    pub fn plan(&self, number: usize) -> UnitPlan<'a>
        requires lane { IsVideoLane self.now }
        requires number { number < length self.now.units.now }
        ensures { IsPlanOf self.now number result }
    {
        let index = self.choice[number];
        UnitPlan {
            times: self.unit(number).times,
            coarser: self.coarser,
            index,
            size: self.row(number).versions[usize::from(index)].bytes,
        }
    }

    /// The versions of the unit of this number.
    fn row(&self, number: usize) -> &'a Unit
        requires { number < length self.now.rows.now }
        ensures { result.now ≡ row_at self.now number }
    {
        &self.rows[number]
    }
}

impl<'a> AudioLane<'a> {
    /// The piece of this number.
    pub fn piece(&self, number: usize) -> AudioPiece
        requires { number < length self.now.pieces.now }
        ensures { result ≡ piece_at self.now number }
    {
        self.pieces[number]
    }
}

impl<'a> Lane<'a> {
    /// The name of the file that is read.
    pub fn name(&self) -> &'a str
        ensures { result.now ≡ lane_name self.now }
    {
        match self {
            Lane::Video(lane) => lane.stream.name,
            Lane::Audio(lane) => lane.stream.name,
        }
    }
}
