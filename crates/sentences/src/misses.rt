//! What is said where not even the smallest versions are scheduled.

use crate::amounts::Seconds;
use crate::buffers::small_buffers;
use crate::job_again::{integer, job_table};
use crate::lateness::{Miss, late_in_words};
use crate::line::{End, number};
use crate::owners::{owner_in_words, owners_of_job, owners_of_table};
use crate::sources::CODE;
use crate::table_again::table_again;
use serde_json::Value;
use std::alloc::{AllocError, Global};
use std::rt::Files;

/// What to try with a table.
const OF_A_TABLE: &str =
    "a shorter slot, smaller versions or later times may help, and `remux impossible TABLE` tells of a table whether any \
     versions could be";

/// Which packet can't be in time, and what may help.
pub(crate) fn unschedulable<R: Files + AllocGlobal>(
    rt: &R,
    end: &End<'_>,
    line: &Value,
) -> Result<String, AllocError> {
    let alloc = rt.alloc();
    let help = if end.word(0) == "plan" {
        String::from_str(alloc, OF_A_TABLE)?
    } else {
        help_of_job(rt, end)?
    };
    let owner = owner(rt, end, number(line, "stream"))?;
    let late = lateness(rt, end, line)?;
    format!(in alloc;
        "{text}: not even the smallest versions are scheduled: unit {unit} of stream {stream} ({owner}counted from 0, over all programs), due \
         at {due} s, tick {ticks}, misses in slot {slot}{late}; {help}",
        text = end.word(1),
        unit = number(line, "unit"),
        stream = number(line, "stream"),
        due = Seconds {
            ticks: number(line, "due")
        },
        ticks = number(line, "due"),
        slot = number(line, "slot")
    )
}

/// When the slot of a miss ends, and by how much the packet comes late; nothing where it isn't known any more how long slots are.
fn lateness<R: Files + AllocGlobal>(
    rt: &R,
    end: &End<'_>,
    line: &Value,
) -> Result<String, AllocError> {
    let miss = Miss {
        length: slot_length(rt, end),
        slot: number(line, "slot"),
        due: number(line, "due"),
    };
    if miss.length == 0 {
        return Ok(String::new(rt.alloc()));
    }
    let late = late_in_words(rt.alloc(), miss)?;
    format!(in rt.alloc();
        ", which ends at {seconds} s, so it {late}",
        seconds = Seconds { ticks: miss.end() }
    )
}

/// Ticks of a slot, as the job or the table has them, which is read once more; 0 where it can't be.
fn slot_length<R: Files + AllocGlobal>(rt: &R, end: &End<'_>) -> u64 {
    if end.word(0) == "plan" {
        return match table_again(rt, end.word(1)) {
            Some(table) => u64::from(table.slot),
            None => 0,
        };
    }
    match job_table(rt, end.word(1)) {
        Some(table) => integer(&table, "slot", 0),
        None => 0,
    }
}

/// Which program a stream is of, before a semicolon; nothing where that isn't known.
fn owner<R: Files + AllocGlobal>(rt: &R, end: &End<'_>, stream: u64) -> Result<String, AllocError> {
    let alloc = rt.alloc();
    let owner = if end.word(0) == "plan" {
        owner_in_words(alloc, owners_of_table(rt, end).as_slice(), stream)?
    } else {
        owner_in_job(rt, end, stream)?
    };
    if owner.is_empty() {
        return Ok(owner);
    }
    format!(in alloc; "{owner}; ")
}

/// Which program of a job a stream is of.
fn owner_in_job<R: Files + AllocGlobal>(
    rt: &R,
    end: &End<'_>,
    stream: u64,
) -> Result<String, AllocError> {
    match job_table(rt, end.word(1)) {
        Some(table) => owner_in_words(rt.alloc(), owners_of_job(rt, &table).as_slice(), stream),
        None => Ok(String::new(rt.alloc())),
    }
}

/// What most often causes it in a job, and what to try in which order.
fn help_of_job<R: Files + AllocGlobal>(rt: &R, end: &End<'_>) -> Result<String, AllocError> {
    let small = small_buffers(rt, end)?;
    format!(in rt.alloc();
        "mostly its source states a smaller buffer than its pictures need, as plain ffmpeg does, or the channel is too slow{small}. \
         Try in this order: a smaller `slot`; more and greater numbers in `coarser`, up to 1792; a later `start`, up to 54000000; fewer programs \
         or audio streams. Where slot 1016, start 54000000 and a version of 1792 miss too, code the source anew with a rate and a buffer: \
         `ffmpeg -i FILE {CODE}`. Whether any versions of a program could be is told by `remux probe FILE PROGRAM TABLE` and, with the \
         job's `slot` in TABLE, `remux impossible TABLE`"
    )
}
