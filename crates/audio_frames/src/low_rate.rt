ghost use Rattle.std.specs.Prelude.{◌≡◌};
ghost use Rattle.audio_frames.specs.Frames.{has_low_rate};

use crate::first_frame::find_first;
use crate::frame_header::header_at;

/// True where the first frame of a payload has a low sampling rate, those of ISO/IEC 13818-3: its ID is 0. False where the payload has no
/// frame.
pub fn has_low_rate(payload: &[u8]) -> bool
    ensures { result ≡ has_low_rate payload.now }
{
    match find_first(payload) {
        Some(first) => header_at(payload, first).id == 0,
        None => false,
    }
}
