ghost use Rattle.std.specs.Prelude.{◌≡◌, ◌≤◌, length};
ghost use Rattle.audio_frames.specs.Private.Ahead.{IsAhead};
ghost use Rattle.audio_frames.specs.Walk.{fault_at};

use crate::audio_fault::AudioFault;
use crate::frame_header::{FrameHeader, HEADER_BYTES, has_sync};

/// What stands where a frame of a format may begin.
#[derive(Clone, Copy)]
pub enum Ahead {
    /// A whole frame of so many bytes.
    Frame(usize),
    /// The front of one, or too few bytes for a header.
    Rest,
    /// Neither.
    Broken(AudioFault),
}

/// What the bytes from a place of a payload on begin with, where a frame of a format may begin.
pub fn look_ahead(format: FrameHeader, bytes: &[u8], at: u64) -> Ahead
    ensures { IsAhead format bytes.now at result }
{
    if bytes.len() < HEADER_BYTES {
        return Ahead::Rest;
    }
    let Some(next) = FrameHeader::read(bytes) else {
        return Ahead::Broken(fault_at(bytes, at));
    };
    if !format.is_like(next) {
        return Ahead::Broken(fault_at(bytes, at));
    }
    let len = next.len as usize;
    if len <= bytes.len() {
        Ahead::Frame(len)
    } else {
        Ahead::Rest
    }
}

/// Why bytes from a place on that begin with no header of a format break frames off.
fn fault_at(bytes: &[u8], at: u64) -> AudioFault
    requires { 4 ≤ length bytes.now }
    ensures { result ≡ fault_at bytes.now at }
{
    if has_sync(bytes) {
        AudioFault::NotLayer2 { at }
    } else {
        AudioFault::AudioSync { at }
    }
}
