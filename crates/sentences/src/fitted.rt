//! What is said of the slots in which a job fits, and of those in which it misses.

use crate::amounts::Rate;
use crate::job_again::job_table;
use crate::lateness::{Miss, late_in_words};
use crate::line::{End, list, number, text};
use crate::owners::{Owner, owner_in_words, owners_of_job};
use serde_json::Value;
use std::alloc::{AllocError, Global};
use std::rt::Files;
use version_table::limits::{SLOT_LEAST, SLOT_MOST};

/// The longest slot of a list in which a job fits, with its rate, and of each slot that misses by how much.
pub(crate) fn fitting<R: Files + AllocGlobal>(
    rt: &R,
    end: &End<'_>,
    line: &Value,
) -> Result<String, AllocError> {
    let slot = number(line, "fit");
    let misses = misses_of_job(rt, end, line)?;
    format!(in rt.alloc();
        "{job}: it fits in slots of {slot} ticks, {rate} Mbit/s, and in no longer ones of {list}{misses}",
        job = end.word(1),
        rate = Rate { slot },
        list = end.word(2)
    )
}

/// That a job fits in no slot of a list, and by how much it misses in each.
pub(crate) fn no_fit<R: Files + AllocGlobal>(
    rt: &R,
    end: &End<'_>,
    line: &Value,
) -> Result<String, AllocError> {
    let misses = misses_of_job(rt, end, line)?;
    format!(in rt.alloc();
        "{job}: it fits in no slot of {list}{misses}; shorter slots, more and greater numbers in `coarser`, or a later `start` may help",
        job = end.word(1),
        list = end.word(2)
    )
}

/// Why a list of slots is refused.
pub(crate) fn refused_list(
    alloc: Global,
    end: &End<'_>,
    line: &Value,
) -> Result<String, AllocError> {
    let name = end.word(2);
    match number(line, "line") {
        0 => format!(in alloc;
            "{name}: its text is longer than a list of slots may be, 1,024 bytes (docs/JOB.md)"
        ),
        number => format!(in alloc;
            "{name}: line {number} can't stand in a list of slots: it has 1 to 64 lines, each a whole number from {SLOT_LEAST} to {SLOT_MOST} and \
             greater than the one before (docs/JOB.md)"
        ),
    }
}

/// What is said of each slot of a line that isn't scheduled, with the programs of the job.
fn misses_of_job<R: Files + AllocGlobal>(
    rt: &R,
    end: &End<'_>,
    line: &Value,
) -> Result<String, AllocError> {
    match job_table(rt, end.word(1)) {
        Some(table) => misses(rt.alloc(), owners_of_job(rt, &table).as_slice(), line),
        None => misses(rt.alloc(), &[], line),
    }
}

/// The same, behind a semicolon each.
fn misses(alloc: Global, owners: &[Owner<'_>], line: &Value) -> Result<String, AllocError> {
    let mut said = String::new(alloc);
    for slot in list(line, "slots") {
        let miss = miss(alloc, owners, slot)?;
        said.push_str(miss.as_str())?;
    }
    Ok(said)
}

/// What is said of one slot; nothing where it is scheduled.
fn miss(alloc: Global, owners: &[Owner<'_>], said: &Value) -> Result<String, AllocError> {
    let slot = number(said, "slot");
    let rate = Rate { slot };
    match text(said, "verdict") {
        "missed" => {
            let stream = number(said, "stream");
            let owner = owner_in_parentheses(alloc, owners, stream)?;
            let miss = Miss {
                length: slot,
                slot: number(said, "packet_slot"),
                due: number(said, "due"),
            };
            let late = late_in_words(alloc, miss)?;
            format!(in alloc;
                "; in slots of {slot} ticks, {rate} Mbit/s, unit {unit} of stream {stream}{owner} {late}",
                unit = number(said, "unit")
            )
        }
        "limit" => format!(in alloc;
            "; of slots of {slot} ticks, {rate} Mbit/s, no stream has as many as its times want"
        ),
        _ => Ok(String::new(alloc)),
    }
}

/// Which program a stream is of; nothing where that isn't known.
fn owner_in_parentheses(
    alloc: Global,
    owners: &[Owner<'_>],
    stream: u64,
) -> Result<String, AllocError> {
    let owner = owner_in_words(alloc, owners, stream)?;
    if owner.is_empty() {
        return Ok(owner);
    }
    format!(in alloc; " ({owner})")
}
