ghost use Rattle.std.specs.Prelude.{◌≡◌, ℕ, ◌-◌, ◌≤◌, List, [], ◌++◌, length, drop, OnOk};
ghost use Rattle.audio_frames.specs.Frames.{has_low_rate};
ghost use Rattle.audio_frames.specs.Walk.{IsWalked, bytes_kept};
ghost use Rattle.audio_walk.specs.declared.first_rate.TheConstants.{WALK_BYTES_MOST};
ghost use Rattle.audio_walk.specs.AudioWalk.{HasRate};

use audio_frames::{FrameWalk, has_low_rate};
use list_types::OutOfMemory;
use std::alloc::Global;

/// The bytes that a `FrameWalk` keeps, at most: those of a frame and of the header behind it, but for one.
pub const WALK_BYTES_MOST: usize = 3_460;

/// Whether the first frame of a payload has a low sampling rate, while its bytes come.
#[derive(Drop)]
pub struct FirstRate {
    /// The last of the bytes that have come, among which the first frame begins, until it is known.
    bytes: Vec<u8>,
    /// Once the first frame is known: whether its rate is low.
    low: Option<bool>,
}

impl FirstRate {
    /// No bytes have come.
    pub fn new(alloc: Global) -> Self
        ensures { HasRate [] result }
    {
        FirstRate {
            bytes: Vec::new(alloc),
            low: None,
        }
    }

    /// Takes the bytes that come next, to which a walk over the payload has come too.
    pub fn push(&mut self, piece: &[u8], walk: &FrameWalk) -> Result<(), OutOfMemory>
        requires { bytes_kept walk.now ≤ WALK_BYTES_MOST }
        ensures { (payload : List ℕ) → HasRate payload self.old → IsWalked (payload ++ piece.now) walk.now → OnOk result (HasRate (payload ++ piece.now) self.new) }
    {
        if self.low.is_some() {
            return Ok(());
        }
        self.bytes.extend_from_slice(piece)?;
        if walk.places().is_empty() {
            keep_last(&mut self.bytes, WALK_BYTES_MOST);
            return Ok(());
        }
        self.low = Some(has_low_rate(self.bytes.as_slice()));
        self.bytes.clear();
        Ok(())
    }

    /// True where the first frame of the payload that has come has a low sampling rate; false where it has no frame.
    pub fn is_low(&self) -> bool
        ensures { (payload : List ℕ) → HasRate payload self.now → result ≡ has_low_rate payload }
    {
        match self.low {
            Some(low) => low,
            None => has_low_rate(self.bytes.as_slice()),
        }
    }
}

/// Keeps the last bytes, so many at most.
fn keep_last(bytes: &mut Vec<u8>, most: usize)
    ensures { bytes.new.items ≡ drop (length bytes.old.items - most) bytes.old.items }
{
    let size = bytes.len();
    let count = size.saturating_sub(most);
    bytes.copy_within(count..size, 0);
    bytes.truncate(size - count);
}
