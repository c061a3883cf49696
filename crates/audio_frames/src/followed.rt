ghost use Rattle.std.specs.Prelude.{◌+◌, ◌<◌, ◌^◌, length, IfOk};
ghost use Rattle.audio_frames.specs.Private.Followed.{Follows};

use crate::ahead::{Ahead, look_ahead};
use crate::audio_fault::AudioFault;
use crate::frame_header::FrameHeader;
use list_types::{ListOf, OutOfMemory};

/// How far frames stand one behind the other in some bytes.
#[derive(Clone, Copy)]
pub struct Followed {
    /// The bytes of the frames.
    pub done: usize,
    /// Why they break off behind these, where they do.
    pub broken: Option<AudioFault>,
}

/// Adds the places of the whole frames of a format that stand one behind the other at the front of the bytes of a payload from
/// a place on.
pub fn follow(
    format: FrameHeader,
    bytes: &[u8],
    at: u64,
    places: &mut ListOf<u64>,
) -> Result<Followed, OutOfMemory>
    requires { at + length bytes.now < 2 ^ 63 }
    ensures { IfOk result (Follows format bytes.now at places.old places.new) }
{
    let mut done = 0;
    'frames: loop {
        match look_ahead(format, &bytes[done..], at + done as u64) {
            Ahead::Frame(len) => {
                places.push(at + done as u64)?;
                done += len;
            }
            Ahead::Rest => return Ok(Followed { done, broken: None }),
            Ahead::Broken(fault) => {
                return Ok(Followed {
                    done,
                    broken: Some(fault),
                });
            }
        }
    }
}
