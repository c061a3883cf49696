//! Which of its limits a program passes: its refusal doesn't tell it, so its file is counted again, and where that doesn't tell it either, all
//! limits are named.

use crate::amounts::Seconds;
use crate::elements::split_again;
use crate::extent::{Extent, extent_of, extent_of_elements};
use crate::named_program::NamedProgram;
use job_programs::limits::{AUDIO_PACKETS_MOST, PROBED_AUDIO_PACKETS_MOST, TIMES_LIMIT};
use job_report::Form;
use program_reader::limits::{
    FILE_BYTES_MOST, PES_PACKETS_MOST, TIME_SLOTS_MOST, UNIT_BYTES_MOST, UNITS_MOST,
};
use program_stream::SplitFault;
use std::alloc::{AllocError, Global};
use std::rt::Files;
use stream_audit::AUDITED_BYTES_MOST;
use stream_constants::limits::AUDIOS_MOST;

/// Which limit a program passes, and by how much; all limits where that isn't found.
pub(crate) fn limits_in_words<R: Files + AllocGlobal>(
    rt: &R,
    program: Option<NamedProgram<'_>>,
) -> Result<String, AllocError> {
    let alloc = rt.alloc();
    let Some(program) = program else {
        return program_limits(alloc);
    };
    if let Form::Ps = program.form {
        return limits_of_elements(rt, program);
    }
    let Some(streams) = program.streams(rt) else {
        return program_limits(alloc);
    };
    let audios = streams.len().saturating_sub(1);
    if audios > AUDIOS_MOST {
        return format!(in alloc;
            "it has {audios} audio streams, and {AUDIOS_MOST} are taken at most: name others in `drop` of the job"
        );
    }
    match extent_of(rt, program.file, streams.as_slice()) {
        Some(extent) => passed_limit(alloc, program, extent),
        None => program_limits(alloc),
    }
}

/// The same of a program stream.
fn limits_of_elements<R: Files + AllocGlobal>(
    rt: &R,
    program: NamedProgram<'_>,
) -> Result<String, AllocError> {
    match split_again(rt, &program) {
        Ok(demuxed) => passed_limit(rt.alloc(), program, extent_of_elements(&demuxed)),
        Err(SplitFault::ProgramLimit { at: _ }) => format!(in rt.alloc();
            "it has more than {AUDIOS_MOST} audio streams: name others in `drop` of the job"
        ),
        Err(_) => program_limits(rt.alloc()),
    }
}

/// Which limit is passed by what was counted; all limits where none is.
fn passed_limit(
    alloc: Global,
    program: NamedProgram<'_>,
    extent: Extent,
) -> Result<String, AllocError> {
    let ticks = TIMES_LIMIT
        .min(TIME_SLOTS_MOST.saturating_mul(program.slot))
        .saturating_sub(program.start);
    if extent.ticks > ticks {
        return format!(in alloc;
            "its times go on for {lasting} s, and behind a `start` of {start} s {most} s are taken at most in slots of {slot} ticks: cut it \
             (docs/JOB.md tells how many hours fit which slot), or let times that jump be made anew",
            lasting = Seconds {
                ticks: extent.ticks
            },
            start = Seconds {
                ticks: program.start
            },
            most = Seconds { ticks },
            slot = program.slot
        );
    }
    if extent.pes > PES_PACKETS_MOST as u64 {
        return format!(in alloc;
            "a stream of it has {pes} PES packets, and {PES_PACKETS_MOST} are taken at most: cut it",
            pes = extent.pes
        );
    }
    if extent.pictures > UNITS_MOST as u64 {
        return format!(in alloc;
            "it has {pictures} pictures, and {UNITS_MOST} are taken at most: cut it",
            pictures = extent.pictures
        );
    }
    program_limits(alloc)
}

/// What a program may be at most, and how to find what it passes.
fn program_limits(alloc: Global) -> Result<String, AllocError> {
    format!(in alloc;
        "it passes one of these limits: with the programs before it {FILE_BYTES_MOST} bytes of files and {UNITS_MOST} pictures; by \
         itself {AUDIOS_MOST} audio streams, {PES_PACKETS_MOST} PES packets of a stream, {UNIT_BYTES_MOST} bytes of a picture, \
         {AUDIO_PACKETS_MOST} audio packets ({PROBED_AUDIO_PACKETS_MOST} for `probe`), {AUDITED_BYTES_MOST} bytes of the file of `audit` and a last time of {TIME_SLOTS_MOST} slots or \
         {TIMES_LIMIT} ticks; or its pictures' distortions, times weight and drift, the table's; docs/REFUSALS.md tells how to find \
         which, docs/JOB.md how many hours fit which slot"
    )
}
