ghost use Rattle.std.specs.Prelude.{◌≡◌, ◌+◌, ◌<◌, [], length, slice_index_or, OnOk};
ghost use Rattle.file_pieces.specs.ProgramLanes.{AddsLanes, IsLaneOf, IsPlaceIn};

use crate::lane::{AudioLane, Lane, VideoLane};
use crate::stream_place::StreamPlace;
use es_window::HeldPart;
use list_types::{ListOf, OutOfMemory};
use program_reader::{AudioPiece, UnitSource};
use psi_tables::Stream;
use version_table::Unit;

/// What is sent of a program of a file.
#[derive(Clone, Copy)]
pub struct SentProgram<'a> {
    /// The name of the file.
    pub name: &'a str,
    /// The streams that are carried, the video first.
    pub streams: &'a [Stream],
    pub units: &'a [UnitSource],
    /// Of each unit its versions, with the bytes of their PES packets.
    pub rows: &'a [Unit],
    /// How coarse the versions are, in sixteenths.
    pub coarser: &'a [u16],
    /// Of each unit the number of the version that is sent.
    pub choice: &'a [u8],
    /// Of each audio stream its pieces.
    pub audios: &'a [ListOf<AudioPiece>],
}

impl<'a> SentProgram<'a> {
    /// Its video.
    fn video(&self) -> Lane<'a>
        ensures { IsLaneOf self.now 0 result }
    {
        Lane::Video(VideoLane {
            stream: self.stream(0, HeldPart::Payload),
            units: self.units,
            rows: self.rows,
            coarser: self.coarser,
            choice: self.choice,
        })
    }

    /// The audio stream of this number.
    fn audio(&self, number: usize) -> Lane<'a>
        requires { number < length self.now.audios.now }
        ensures { IsLaneOf self.now (number + 1) result }
    {
        Lane::Audio(AudioLane {
            stream: self.stream(number + 1, HeldPart::Packet),
            pieces: self.pieces(number),
        })
    }

    /// The stream of this number, of whose PES packets a part is wanted.
    fn stream(&self, index: usize, part: HeldPart) -> StreamPlace<'a>
        ensures { IsPlaceIn self.now index part result }
    {
        StreamPlace {
            name: self.name,
            streams: self.streams,
            index,
            part,
        }
    }

    /// The pieces of the audio stream of this number.
    fn pieces(&self, number: usize) -> &'a [AudioPiece]
        requires { number < length self.now.audios.now }
        ensures { result.now ≡ slice_index_or self.now.audios.now number [] }
    {
        self.audios[number].as_slice()
    }
}

/// Puts the lanes of a program behind others: its video, and its audio streams in order.
pub fn push_lanes<'a>(
    lanes: &mut Vec<Lane<'a>>,
    program: &SentProgram<'a>,
) -> Result<(), OutOfMemory>
    ensures { OnOk result (AddsLanes program.now lanes.old.items lanes.new.items) }
{
    lanes.push(program.video())?;
    for k in 0..program.audios.len() {
        lanes.push(program.audio(k))?;
    }
    Ok(())
}
