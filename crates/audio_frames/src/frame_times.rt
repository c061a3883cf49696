ghost use Rattle.std.specs.Prelude.{◌≡◌, ◌+◌, ◌≤◌, ℕ, List, IfOk, IfErr};
ghost use Rattle.audio_frames.specs.declared.limits.TheConstants.{PAYLOAD_BYTES_MOST};
ghost use Rattle.audio_frames.specs.Times.{AreStarts, AreFramesOf};
ghost use Rattle.audio_frames.specs.Private.Packets.{IsTimedFor, IsTimeRefused};
ghost use Rattle.audio_frames.specs.Private.Places.{AreApart};

use crate::audio_fault::AudioFault;
use crate::clock::Clock;
use crate::frame::Frame;
use crate::pes_start::PesStart;
use list_types::ListOf;
use std::alloc::Global;

/// The frames that begin at these places of a payload of so many bytes, with their times. An error is NoAudioTime or TimeOrder.
pub fn timed_frames(
    alloc: Global,
    size: u64,
    rate: u32,
    starts: &[PesStart],
    places: &[u64],
) -> Result<ListOf<Frame>, AudioFault>
    requires size { size ≤ PAYLOAD_BYTES_MOST }
    requires rate { (16000 ≤ rate) × (rate ≤ 48000) }
    requires starts { AreStarts size starts.now }
    requires apart { AreApart places.now size }
    ensures frames { IfOk result (λ frames. (payload : List ℕ) → IsTimedFor payload places.now size rate → AreFramesOf payload starts.now frames) }
    ensures refused { IfErr result (λ fault. (payload : List ℕ) → IsTimedFor payload places.now size rate → IsTimeRefused payload starts.now fault) }
{
    if places.is_empty() {
        return Ok(ListOf::new(alloc));
    }
    let Some(mut clock) = Clock::start(rate, starts, places) else {
        return Err(AudioFault::NoAudioTime { at: places[0] });
    };
    let mut begin = 0;
    let mut frames = ListOf::new(alloc);
    for frame in 0..places.len() - 1 {
        let end = places[frame + 1];
        let next = clock.next(starts, places, frame);
        if next.time <= clock.time {
            return Err(AudioFault::TimeOrder { at: end });
        }
        frames.push(frame_of(begin, end, clock.time))?;
        begin = end;
        clock = next;
    }
    frames.push(frame_of(begin, size, clock.time))?;
    Ok(frames)
}

/// The frame with the bytes from a place up to another.
fn frame_of(at: u64, end: u64, time: i64) -> Frame
    requires { at ≤ end }
    ensures at { result.at ≡ at }
    ensures end { result.at + result.len ≡ end }
    ensures time { result.time ≡ time }
{
    Frame {
        at,
        len: end - at,
        time,
    }
}
