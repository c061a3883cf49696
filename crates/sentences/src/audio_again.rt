//! Which audio stream of a program is refused, by reading its frames once more.

ghost use Rattle.std.specs.Prelude.{◌≡◌, ◌≤◌, ◌∷◌, [], None};
ghost use Rattle.audio_frames.specs.Walk.{bytes_seen};
ghost use Rattle.audio_frames.specs.declared.limits.TheConstants.{PAYLOAD_BYTES_MOST};

use crate::carrier::{StreamPid, StreamWalk, packet_buffer};
use crate::named_program::NamedProgram;
use audio_frames::{AudioFault, FrameWalk, PAYLOAD_BYTES_MOST, PesStart};
use shelf_io::Reading;
use shelf_kinds::FileShelf;
use std::alloc::Global;
use std::rt::Files;
use stream_constants::packets::PACKET_BYTES;

/// The first audio stream of a program that isn't frames of Layer II, where that is at this byte of it; none where reading again shows
/// none, or where the file doesn't tell its streams.
pub(crate) fn refused_audio<R: Files + AllocGlobal>(
    rt: &R,
    program: &NamedProgram<'_>,
    at: u64,
) -> Option<StreamPid> {
    let streams = program.streams(rt)?;
    for stream in streams.as_slice() {
        if !stream.is_video && unframed_at(rt, program.file, *stream) == Some(at) {
            return Some(*stream);
        }
    }
    None
}

/// The byte of an audio stream at which a frame must begin and none does; none where it is whole frames, or where it can't be read.
fn unframed_at<R: Files + AllocGlobal>(rt: &R, file: &str, stream: StreamPid) -> Option<u64> {
    let mut shelf = FileShelf::new(rt);
    let mut source = Reading::new(&mut shelf, file);
    let mut packets = packet_buffer(rt.alloc())?;
    let mut walk = StreamWalk::new(rt.alloc(), stream);
    let mut frames = SeenFrames::new(rt.alloc());
    for n in 0..u64::MAX {
        packets.fill(&mut source).ok()?;
        let Some(packet) = packets.first() else {
            return frames.unframed(rt.alloc());
        };
        frames = frames.push(walk.take(n.saturating_mul(PACKET_BYTES as u64), packet))?;
        packets.pass();
    }
    None
}

/// The frames of an audio stream whose bytes come in pieces, and how many have come.
#[derive(Drop)]
struct SeenFrames {
    walk: FrameWalk,
    seen: u64,
    ghost counted: { bytes_seen walk ≡ seen },
    ghost few: { seen ≤ PAYLOAD_BYTES_MOST },
}

impl SeenFrames {
    /// No bytes have come.
    fn new(alloc: Global) -> SeenFrames {
        SeenFrames {
            walk: FrameWalk::new(alloc),
            seen: 0,
        }
    }

    /// Behind the bytes that come next; none where they are more than a stream may have.
    fn push(self, data: &[u8]) -> Option<SeenFrames> {
        let SeenFrames { walk, seen } = self;
        let size = data.len() as u64;
        if size > PAYLOAD_BYTES_MOST - seen {
            return None;
        }
        match walk.push(data) {
            Ok(walk) => Some(SeenFrames {
                walk,
                seen: seen + size,
            }),
            Err(_) => None,
        }
    }

    /// The byte at which a frame must begin and none does.
    fn unframed(self, alloc: Global) -> Option<u64> {
        let SeenFrames { walk, seen } = self;
        // one time is wanted of whole frames, behind all that is looked for here
        let start = [PesStart { at: 0, time: None }];
        let starts = if seen == 0 { &[] } else { start.as_slice() };
        match walk.end(alloc, starts) {
            Err(AudioFault::NotLayer2 { at }) => Some(at),
            Err(AudioFault::AudioSync { at }) => Some(at),
            _ => None,
        }
    }
}
