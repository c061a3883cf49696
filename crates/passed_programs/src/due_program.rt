//! A program of streams that were read while its file passed.
ghost use Rattle.std.specs.Prelude.{◌≡◌, ◌<◌, ◌^◌, map, IfOk};
ghost use Rattle.ts_demux.specs.declared.demuxed.Demuxed.{Demuxed};
ghost use Rattle.program_reader.specs.KeptUnits.{kept_at};
ghost use Rattle.program_reader.specs.Sizes.{stands_at};
ghost use Rattle.passed_programs.specs.PassedProgram.{AreRead, IsPassed};

use crate::passed_audios::passed_audios;
use crate::passed_program::PassedProgram;
use crate::video_laws::near_times;
use elementary_streams::ReadStream;
use list_types::{ListOf, OutOfMemory};
use program_reader::{EarliestTime, WalkedVideo, audio_packets_dropped, due_units};
use psi_tables::ProgramMap;
use std::alloc::Global;

/// What is found of a program beside its streams.
#[derive(Drop)]
pub struct FoundMap {
    /// The carried streams, the video first.
    pub map: ProgramMap,
    /// Bytes behind the last whole transport packet of the file.
    pub rest: u8,
    /// The PIDs of the program's other streams, in order.
    pub not_carried: ListOf<u16>,
}

/// The program of streams that were read as they passed, its earliest time due at `start`, in ticks.
pub fn due_passed(
    alloc: Global,
    found: FoundMap,
    video: &WalkedVideo,
    streams: &[ReadStream],
    start: u64,
) -> Result<PassedProgram, OutOfMemory>
    requires start { start < 2 ^ 50 }
    requires read { (demuxed : Demuxed) × AreRead demuxed found video.now streams.now }
    ensures program { (demuxed : Demuxed) → AreRead demuxed found video.now streams.now → IfOk result (IsPassed start demuxed) }
    ensures places { IfOk result (λ passed. map stands_at passed.units ≡ map kept_at video.now.units.items) }
{
    near_times();
    let first = first_time(video);
    let earliest = first.of_units(video.units.as_slice()).of_streams(streams);
    let clock = earliest.clock(start);
    let units = due_units(alloc, video.units.as_slice(), &clock)?;
    let audios = passed_audios(alloc, streams, &clock)?;
    Ok(PassedProgram {
        map: found.map,
        base: clock.base(),
        vbv: video.first.seq.vbv,
        units,
        audios,
        units_dropped: video.units_dropped,
        pes_dropped: video.pes_dropped + audio_packets_dropped(streams),
        rest: found.rest,
        not_carried: found.not_carried,
    })
}

/// The time of the first picture of a video, in ticks.
fn first_time(video: &WalkedVideo) -> EarliestTime
    ensures { result.ticks ≡ video.now.first.ticks }
{
    EarliestTime {
        ticks: video.first.ticks,
    }
}
