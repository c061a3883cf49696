ghost use Rattle.std.specs.Prelude.{◌≡◌, ℕ, List, [], ◌+◌, ◌<◌, ◌^◌, length, IfOk, IfErr, OnOk};
ghost use Rattle.audio_frames.specs.Walk.{IsSettled};
ghost use Rattle.audio_frames.specs.Private.Ahead.{IsRestOf};
ghost use Rattle.audio_frames.specs.Private.Places.{AreApart};
ghost use Rattle.audio_frames.specs.Private.Steps.{NoneBefore, IsEnded, IsPlaceRefused};

use crate::audio_fault::AudioFault;
use crate::first_frame::find_first;
use crate::followed::follow;
use crate::frame_header::{FrameHeader, header_at};
use crate::place_steps::Stage;
use list_types::ListOf;

/// Adds the places of the frames that are whole because no bytes follow those that are kept, and answers the first one's header.
/// An error is NotLayer2 or AudioSync.
pub fn end_stage(
    stage: Stage,
    kept: &[u8],
    at: u64,
    places: &mut ListOf<u64>,
) -> Result<FrameHeader, AudioFault>
    requires { at + length kept.now < 2 ^ 63 }
    ensures apart { OnOk result (AreApart places.old at → AreApart places.new (at + length kept.now)) }
    ensures all { IfOk result (λ format. (payload : List ℕ) → IsSettled payload places.old at stage → IsRestOf payload at kept.now → IsEnded payload places.new format) }
    ensures refused { IfErr result (λ fault. (payload : List ℕ) → IsSettled payload places.old at stage → IsRestOf payload at kept.now → IsPlaceRefused payload fault) }
{
    match stage {
        Stage::Search => end_search(kept, at, places),
        Stage::Frames(format) => Ok(format),
        Stage::Broken(fault) => Err(fault),
    }
}

/// The same where no first frame begins before the place of the bytes that are kept: for a whole payload, 0.
pub fn end_search(kept: &[u8], at: u64, places: &mut ListOf<u64>) -> Result<FrameHeader, AudioFault>
    requires { at + length kept.now < 2 ^ 63 }
    ensures apart { OnOk result (AreApart places.old at → AreApart places.new (at + length kept.now)) }
    ensures all { IfOk result (λ format. (payload : List ℕ) → places.old ≡ [] → NoneBefore payload at → IsRestOf payload at kept.now → IsEnded payload places.new format) }
    ensures refused { IfErr result (λ fault. (payload : List ℕ) → NoneBefore payload at → IsRestOf payload at kept.now → IsPlaceRefused payload fault) }
{
    let Some(first) = find_first(kept) else {
        return Err(AudioFault::NotLayer2 { at: 0 });
    };
    let format = header_at(kept, first);
    let followed = follow(format, &kept[first..], at + first as u64, places)?;
    match followed.broken {
        Some(fault) => Err(fault),
        None => Ok(format),
    }
}
