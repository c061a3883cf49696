//! The streams of the files' program.
ghost use Rattle.std.specs.Prelude.{◌≡◌, map, length};
ghost use Rattle.ts_demux.specs.CarriedPackets.{AreDistinct};

use arrayvec::ArrayVec;
use psi_tables::Stream;

/// The PIDs of the video and the audio of program 1.
pub const VIDEO_PID: u16 = 257;

pub const AUDIO_PID: u16 = 258;

/// A stream of each of both PIDs, the video's first.
pub fn two_streams() -> [Stream; 2]
    ensures two { length result ≡ 2 }
    ensures distinct { AreDistinct (map (λ stream. stream.pid) result) }
{
    [stream_of(VIDEO_PID), stream_of(AUDIO_PID)]
}

/// A stream of this PID.
fn stream_of(pid: u16) -> Stream
    ensures { result.pid ≡ pid }
{
    Stream {
        kind: 0,
        pid,
        descriptors: ArrayVec::new(),
    }
}
