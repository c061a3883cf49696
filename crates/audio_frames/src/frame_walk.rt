ghost use Rattle.std.specs.Prelude.{◌≡◌, ℕ, List, [], ◌++◌, ◌+◌, ◌≤◌, drop, length, vec_len, IfOk, IfErr, OnOk};
ghost use Rattle.audio_frames.specs.declared.limits.TheConstants.{PAYLOAD_BYTES_MOST};
ghost use Rattle.audio_frames.specs.Private.Places.{AreApart};

use crate::audio_fault::AudioFault;
use crate::frame::Frame;
use crate::frame_times::timed_frames;
use crate::pes_start::PesStart;
use crate::place_ends::end_stage;
use crate::place_steps::{Stage, step};
use list_types::{ListOf, OutOfMemory};
use std::alloc::Global;

/// The frames of an audio stream whose joined payload comes in pieces. Each is known as soon as it is whole.
#[derive(Drop)]
pub struct FrameWalk {
    // the bytes from `at` on
    kept: Vec<u8>,
    at: u64,
    stage: Stage,
    places: ListOf<u64>,
    ghost apart: { AreApart places at },
    ghost few: { at + vec_len kept ≤ PAYLOAD_BYTES_MOST },
}

impl FrameWalk {
    ghost use Rattle.audio_frames.specs.Times.{AreStarts, AreFramesOf, IsAudioRefused};
    ghost use Rattle.audio_frames.specs.Walk.{IsWalked, AreCertain, bytes_seen, bytes_kept, places_of};

    /// A walk to which no bytes have come.
    pub fn new(alloc: Global) -> Self
        ensures walked { IsWalked [] result }
        ensures seen { bytes_seen result ≡ 0 }
    {
        FrameWalk {
            kept: Vec::new(alloc),
            at: 0,
            stage: Stage::Search,
            places: ListOf::new(alloc),
        }
    }

    /// The walk behind the bytes of the payload that come next. It keeps less of them than a frame and the header behind it.
    pub fn push(self, piece: &[u8]) -> Result<Self, OutOfMemory>
        requires { bytes_seen self + length piece.now ≤ PAYLOAD_BYTES_MOST }
        ensures walked { IfOk result (λ walk. (payload : List ℕ) → IsWalked payload self → IsWalked (payload ++ piece.now) walk) }
        ensures seen { IfOk result (λ walk. bytes_seen walk ≡ bytes_seen self + length piece.now) }
        ensures kept { IfOk result (λ walk. bytes_kept walk ≤ 3460) }
    {
        let FrameWalk {
            mut kept,
            at,
            stage,
            mut places,
        } = self;
        kept.extend_from_slice(piece)?;
        let stepped = step(stage, kept.as_slice(), at, &mut places)?;
        drop_front(&mut kept, stepped.done);
        Ok(FrameWalk {
            kept,
            at: at + stepped.done as u64,
            stage: stepped.stage,
            places,
        })
    }

    /// The places of the frames that are whole, whatever bytes follow. The last of them may get a rest.
    pub fn places(&self) -> &[u64]
        ensures places { result.now ≡ places_of self.now }
        ensures certain { (payload : List ℕ) → IsWalked payload self.now → AreCertain payload result.now }
    {
        self.places.as_slice()
    }

    /// The frames of the payload that has come, as `frames` answers them: `starts` say where each of its PES packets begins. An
    /// error is the first of `AudioFault` that the payload has.
    pub fn end(self, alloc: Global, starts: &[PesStart]) -> Result<ListOf<Frame>, AudioFault>
        requires { AreStarts (bytes_seen self) starts.now }
        ensures frames { IfOk result (λ frames. (payload : List ℕ) → IsWalked payload self → AreFramesOf payload starts.now frames) }
        ensures refused { IfErr result (λ fault. (payload : List ℕ) → IsWalked payload self → IsAudioRefused payload starts.now fault) }
    {
        let FrameWalk {
            kept,
            at,
            stage,
            mut places,
        } = self;
        let size = at + kept.len() as u64;
        let format = end_stage(stage, kept.as_slice(), at, &mut places)?;
        timed_frames(alloc, size, format.hertz(), starts, places.as_slice())
    }
}

/// Lets the first bytes go.
fn drop_front(bytes: &mut Vec<u8>, count: usize)
    requires { count ≤ vec_len bytes.old }
    ensures { bytes.new.items ≡ drop count bytes.old.items }
{
    let size = bytes.len();
    bytes.copy_within(count..size, 0);
    bytes.truncate(size - count);
}
