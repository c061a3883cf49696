//! What is said where the work was done.

use crate::amounts::{Megabits, Rate, Seconds};
use crate::buffers::coarse_programs;
use crate::coarser::coarser_pictures;
use crate::job_again::job_table;
use crate::jumps::long_waits;
use crate::line::{End, list, number};
use crate::table_again::table_again;
use serde_json::Value;
use std::alloc::{AllocError, Global};
use std::rt::Files;
use version_table::limits::SLOT_LEAST;
use window_slots::longest_slot;

/// The window of time in which nothing fits, its times in seconds and its packets in megabits too, and the rate at which it has room;
/// none where the line has no window.
pub(crate) fn no_room<R: Files + AllocGlobal>(
    rt: &R,
    end: &End<'_>,
    line: &Value,
) -> Result<Option<String>, AllocError> {
    let Some(room) = line.get("room").and_then(Value::as_i64) else {
        return Ok(None);
    };
    let needed = number(line, "needed");
    let help = rate_with_room(rt, end.word(1), line)?;
    let said = format!(in rt.alloc();
        "{table}: no choice of versions is scheduled: what is due from {from} s to {due} s needs {needed} packets at least, \
         {bits} Mbit, and there is room for {room}, {held} Mbit; {help}",
        table = end.word(1),
        from = Seconds {
            ticks: number(line, "from")
        },
        due = Seconds {
            ticks: number(line, "due")
        },
        bits = Megabits::of(needed),
        held = Megabits::of(room.max(0) as u64)
    )?;
    Ok(Some(said))
}

/// At which rate the window of a line has room, by the table, which is read once more.
fn rate_with_room<R: Files + AllocGlobal>(
    rt: &R,
    name: &str,
    line: &Value,
) -> Result<String, AllocError> {
    let alloc = rt.alloc();
    let Some(table) = table_again(rt, name) else {
        return String::from_str(
            alloc,
            "a shorter slot, smaller versions or later times may help",
        );
    };
    match longest_slot(
        &table,
        number(line, "from"),
        number(line, "due"),
        number(line, "needed"),
    ) {
        Some(slot) => format!(in alloc;
            "it has room in slots of {slot} ticks, {rate} Mbit/s, and in no longer ones, where other times may lack room; smaller versions or \
             later times may help too",
            rate = Rate {
                slot: u64::from(slot)
            }
        ),
        None => format!(in alloc;
            "no slot from {SLOT_LEAST} ticks on gives it room, so smaller versions or later times are wanted"
        ),
    }
}

/// What is said after a run, a sentence a line: how many pictures go out coarser, programs without sound, programs that a small buffer makes
/// coarser, and times that jump.
pub(crate) fn after_run<R: Files + AllocGlobal>(
    rt: &R,
    end: &End<'_>,
    line: &Value,
) -> Result<Option<String>, AllocError> {
    let alloc = rt.alloc();
    let mut said = String::new(alloc);
    add_sentence(&mut said, coarser_pictures(alloc, end, line)?)?;
    add_sentence(&mut said, silent_programs(alloc, end, line)?)?;
    if let Some(table) = job_table(rt, end.word(1)) {
        add_sentence(&mut said, coarse_programs(rt, end, line, &table)?)?;
        add_sentence(&mut said, long_waits(rt, end, line, &table)?)?;
    }
    if said.is_empty() {
        return Ok(None);
    }
    Ok(Some(said))
}

/// Adds a sentence, on a line of its own.
fn add_sentence(said: &mut String, more: Option<String>) -> Result<(), AllocError> {
    let Some(more) = more else {
        return Ok(());
    };
    if !said.is_empty() {
        said.push_str("\nremux: ")?;
    }
    said.push_str(more.as_str())
}

/// The programs of a run that have no sound though their files name streams that aren't carried; none where each has some.
fn silent_programs(
    alloc: Global,
    end: &End<'_>,
    line: &Value,
) -> Result<Option<String>, AllocError> {
    let mut said = String::new(alloc);
    for program in list(line, "programs") {
        if list(program, "audio_bytes").is_empty() && !list(program, "not_carried").is_empty() {
            add_silent(alloc, &mut said, program)?;
        }
    }
    if said.is_empty() {
        return Ok(None);
    }
    let whole = format!(in alloc;
        "{job}: {said}; only MPEG audio of Layer II is carried: `ffmpeg -i FILE -map 0 -c:v copy -c:a mp2 -f mpegts NEW` makes it",
        job = end.word(1)
    )?;
    Ok(Some(whole))
}

/// Adds a program without sound, with the streams that aren't carried.
fn add_silent(alloc: Global, said: &mut String, program: &Value) -> Result<(), AllocError> {
    if !said.is_empty() {
        said.push_str("; ")?;
    }
    let begin = format!(in alloc;
        "program number {} goes out without sound, and of its file these PIDs or stream ids aren't carried:",
        number(program, "number")
    )?;
    said.push_str(begin.as_str())?;
    for pid in list(program, "not_carried") {
        let text = format!(in alloc; " {}", pid.as_u64().unwrap_or(0))?;
        said.push_str(text.as_str())?;
    }
    Ok(())
}
