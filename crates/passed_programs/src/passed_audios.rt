//! The pieces of the audio streams of a program, with their times.
ghost use Rattle.std.specs.Prelude.{◌<◌, ◌^◌, All, IfOk};
ghost use Rattle.std.specs.List.{AllZip};
ghost use Rattle.elementary_streams.specs.NearTimes.{IsTime};
ghost use Rattle.passed_programs.specs.Private.PassedAudios.{IsCutUp, IsReady};

use elementary_streams::ReadStream;
use list_types::{ListOf, OutOfMemory};
use program_reader::{AudioPiece, DueClock, audio_pieces};
use std::alloc::Global;

/// The pieces of audio streams that are read, whose times aren't before the earliest one.
pub fn passed_audios(
    alloc: Global,
    streams: &[ReadStream],
    clock: &DueClock,
) -> Result<ListOf<ListOf<AudioPiece>>, OutOfMemory>
    requires start { clock.now.start < 2 ^ 50 }
    requires earliest { IsTime clock.now.earliest }
    requires ready { All (IsReady clock.now.earliest) streams.now }
    ensures { IfOk result (AllZip (IsCutUp clock.now.start clock.now.earliest) streams.now) }
{
    let mut audios = ListOf::new(alloc);
    for stream in streams {
        audios.push(audio_pieces(
            alloc,
            stream.packets.as_slice(),
            stream.frames.as_slice(),
            clock,
        )?)?;
    }
    Ok(audios)
}
