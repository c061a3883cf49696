//! The times of payload bytes of an audio stream, looked up one behind the other.
ghost use Rattle.std.specs.Prelude.{◌≡◌, ◌≤◌, ◌+◌, ℕ, nat_lt};
ghost use Rattle.program_reader.specs.Audio.{time_of_byte};
ghost use Rattle.program_reader.specs.Private.FrameWalk.{IsFirstFrame};

use audio_frames::Frame;

/// The time of the frame that a payload byte counts with, and the frames from that one on.
#[derive(Clone, Copy)]
pub struct FoundTime<'a> {
    pub time: i64,
    pub left: &'a [Frame],
}

/// The time of the frame that a payload byte counts with. The frames that are left tell the times of all bytes from this one on.
pub fn byte_time<'a>(frames: &'a [Frame], place: u64) -> FoundTime<'a>
    ensures time { result.time ≡ time_of_byte frames.now place }
    ensures left { (later : ℕ) → place ≤ later → time_of_byte result.left.now later ≡ time_of_byte frames.now later }
{
    let left = frames_from(frames, place);
    match left.split_first() {
        Some((frame, _)) => FoundTime {
            time: frame.time,
            left,
        },
        None => FoundTime { time: 0, left },
    }
}

/// The frames from the one on that a payload byte counts with.
fn frames_from<'a>(frames: &'a [Frame], place: u64) -> &'a [Frame]
    ensures same { (later : ℕ) → place ≤ later → time_of_byte result.now later ≡ time_of_byte frames.now later }
    ensures first { IsFirstFrame place result.now }
{
    let mut left = frames;
    while let Some((frame, behind)) = left.split_first() {
        if ends_behind(frame, place) {
            return left;
        }
        left = behind;
    }
    left
}

/// True where a frame ends behind a place.
fn ends_behind(frame: &Frame, place: u64) -> bool
    ensures { result ≡ nat_lt place (frame.now.at + frame.now.len) }
{
    place < frame.at || place - frame.at < frame.len
}
