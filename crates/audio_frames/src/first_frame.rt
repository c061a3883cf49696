ghost use Rattle.std.specs.Prelude.{◌≡◌, ◌<◌, ◌≤◌, length};
ghost use Rattle.audio_frames.specs.Frames.{is_near_end, is_first, first_frame};

use crate::frame_header::{FrameHeader, HEADER_BYTES};

/// The least place where a first frame begins.
pub fn find_first(payload: &[u8]) -> Option<usize>
    ensures { result ≡ first_frame payload.now }
{
    for at in 0..payload.len() {
        if is_first(payload, at) {
            return Some(at);
        }
    }
    None
}

/// True where a first frame begins at a place: a whole one, behind which another one or too few bytes for one follow.
fn is_first(payload: &[u8], at: usize) -> bool
    requires { at < length payload.now }
    ensures { result ≡ is_first payload.now at }
{
    let Some(header) = FrameHeader::read(&payload[at..]) else {
        return false;
    };
    let end = at + header.len as usize;
    if end > payload.len() {
        return false;
    }
    header.goes_on(&payload[end..]) || is_near_end(payload, end)
}

/// True where too few bytes for a header follow a place.
pub fn is_near_end(payload: &[u8], at: usize) -> bool
    requires { at ≤ length payload.now }
    ensures { result ≡ is_near_end payload.now at }
{
    payload.len() - at < HEADER_BYTES
}
