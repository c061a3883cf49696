ghost use Rattle.std.specs.Prelude.{◌+◌, ◌<◌, ◌≤◌, ◌^◌, length, IfOk};
ghost use Rattle.audio_frames.specs.Private.Steps.{Steps, StepsFrom};

use crate::audio_fault::AudioFault;
use crate::followed::follow;
use crate::frame_header::FrameHeader;
use crate::sought::seek;
use list_types::{ListOf, OutOfMemory};

/// How far the frames of a payload are found.
#[derive(Clone, Copy)]
pub enum Stage {
    /// No first one is.
    Search,
    /// They stand up to the bytes that are left; the first one has this header.
    Frames(FrameHeader),
    /// They break off.
    Broken(AudioFault),
}

/// How far a step came in some bytes.
#[derive(Clone, Copy)]
pub struct Stepped {
    /// How many of the bytes aren't needed any longer.
    pub done: usize,
    pub stage: Stage,
}

/// Looks at the bytes of a payload from a place on, and adds the places of the whole frames that certainly stand there.
pub fn step(
    stage: Stage,
    bytes: &[u8],
    at: u64,
    places: &mut ListOf<u64>,
) -> Result<Stepped, OutOfMemory>
    requires { at + length bytes.now < 2 ^ 63 }
    ensures { IfOk result (Steps stage bytes.now at places.old places.new) }
{
    match stage {
        Stage::Search => search(bytes, at, places),
        Stage::Frames(format) => frames_from(format, bytes, 0, at, places),
        Stage::Broken(_) => Ok(Stepped {
            done: bytes.len(),
            stage,
        }),
    }
}

/// Looks at the bytes from a place on before which no first frame begins.
fn search(bytes: &[u8], at: u64, places: &mut ListOf<u64>) -> Result<Stepped, OutOfMemory>
    requires { at + length bytes.now < 2 ^ 63 }
    ensures { IfOk result (Steps Stage.Search bytes.now at places.old places.new) }
{
    let sought = seek(bytes);
    match sought.first {
        Some(format) => frames_from(format, bytes, sought.at, at, places),
        None => Ok(Stepped {
            done: sought.at,
            stage: Stage::Search,
        }),
    }
}

/// Adds the places of the frames of a format that stand from a place of some bytes on, of which the first one is at `at`.
fn frames_from(
    format: FrameHeader,
    bytes: &[u8],
    from: usize,
    at: u64,
    places: &mut ListOf<u64>,
) -> Result<Stepped, OutOfMemory>
    requires room { at + length bytes.now < 2 ^ 63 }
    requires within { from ≤ length bytes.now }
    ensures { IfOk result (StepsFrom format bytes.now from at places.old places.new) }
{
    let followed = follow(format, &bytes[from..], at + from as u64, places)?;
    match followed.broken {
        Some(fault) => Ok(Stepped {
            done: bytes.len(),
            stage: Stage::Broken(fault),
        }),
        None => Ok(Stepped {
            done: from + followed.done,
            stage: Stage::Frames(format),
        }),
    }
}
