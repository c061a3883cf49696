ghost use Rattle.std.specs.Prelude.{◌≤◌, length, IfOk, IfErr};
ghost use Rattle.audio_frames.specs.declared.limits.TheConstants.{PAYLOAD_BYTES_MOST};
ghost use Rattle.audio_frames.specs.Times.{AreStarts, AreFramesOf, IsAudioRefused};

use crate::audio_fault::AudioFault;
use crate::frame_times::timed_frames;
use crate::pes_start::PesStart;
use crate::place_ends::end_search;
use list_types::ListOf;
use std::alloc::Global;

/// The bytes of a payload that count with one audio frame, and its time.
#[derive(Clone, Copy, Debug, PartialEq, Eq)]
pub struct Frame {
    /// The place of the first of the bytes. It is where the frame begins, but for the first frame, with which all bytes
    /// before it count.
    pub at: u64,
    /// The number of the bytes. They are the frame, and for the last one also the rest behind it.
    pub len: u64,
    /// The time at which it is presented, in ticks of 1/27,000,000 s on the axis of the times of the packets.
    pub time: i64,
}

/// The frames of an audio stream: `payload` is the joined payload of its PES packets, and `starts` say where each of
/// them begins. An error is the first of `AudioFault` that the payload has.
pub fn frames(
    alloc: Global,
    payload: &[u8],
    starts: &[PesStart],
) -> Result<ListOf<Frame>, AudioFault>
    requires size { length payload.now ≤ PAYLOAD_BYTES_MOST }
    requires starts { AreStarts (length payload.now) starts.now }
    ensures frames { IfOk result (AreFramesOf payload.now starts.now) }
    ensures refused { IfErr result (IsAudioRefused payload.now starts.now) }
{
    let mut places = ListOf::new(alloc);
    let format = end_search(payload, 0, &mut places)?;
    timed_frames(
        alloc,
        payload.len() as u64,
        format.hertz(),
        starts,
        places.as_slice(),
    )
}
